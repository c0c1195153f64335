//! Letters, entries and parts at a place, each defined for all arguments.
ghost use Rattle.std.specs.Prelude.{◌≡◌, ◌≤◌, length};

/// The mark.
pub const SEPARATOR: u8 = 255;

/// The letter or the entry at a place, 0 past the end.
pub fn entry<T: Copy + Into<usize>>(list: &[T], at: usize) -> usize {
    match list.get(at) {
        Some(x) => (*x).into(),
        None => 0,
    }
}

/// What stands from a place on, nothing past the end.
pub fn tail<T>(list: &[T], from: usize) -> &[T] {
    list.get(from..).unwrap_or(&[])
}

/// What stands from a place to an end, nothing where there is no such part.
pub fn part<T>(list: &[T], from: usize, end: usize) -> &[T] {
    list.get(from..end).unwrap_or(&[])
}

/// The first n, all where there are fewer.
pub fn front<T>(list: &[T], n: usize) -> &[T]
    ensures { n ≤ length list.now → length result.now ≡ n }
{
    list.get(..n).unwrap_or(list)
}
