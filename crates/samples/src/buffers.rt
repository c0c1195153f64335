//! Buffers filled before a call, and looked through after it.
use access::{front, limited};

// What entry i is filled with: the numbers above `salt`, one after the other.
fn filled(i: usize, salt: usize) -> u16 {
    limited(salt.saturating_add(i).saturating_add(1))
}

/// Fills the whole buffer.
pub fn fill(list: &mut [u16], salt: usize) {
    for (i, entry) in list.iter_mut().enumerate() {
        *entry = filled(i, salt);
    }
}

// Whether all entries from one on are as they were filled.
fn is_untouched(list: &[u16], from: usize, salt: usize) -> bool {
    let mut rest = list.iter().enumerate().skip(from);
    rest.all(|(i, entry)| *entry == filled(i, salt))
}

/// Whether so many entries are cleared, and all later ones as they were filled.
pub fn is_cleared(list: &[u16], count: usize, salt: usize) -> bool {
    count <= list.len()
        && front(list, count).iter().all(|entry| *entry == 0)
        && is_untouched(list, count, salt)
}

/// Whether these entries are written, and all later ones as they were filled.
pub fn is_written(list: &[u16], entries: &[u16], salt: usize) -> bool {
    list.starts_with(entries) && is_untouched(list, entries.len(), salt)
}
