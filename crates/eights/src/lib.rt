//! Eight letters at once, as a number of 64 bits. The first of them has the lowest bits (little-endian).
#![tactic(auto)]

ghost use Rattle.std.specs.Prelude.{◌+◌, ◌≤◌, length};
ghost use Rattle.eights.specs.Eights.{NumberAt, PairTells};

/// The eight letters from l on as a number.
pub fn eight_at(x: &[u8], l: usize) -> u64
    requires { l + 8 ≤ length x.now }
    ensures { NumberAt 8 x.now l result }
{
    let a = &x[l..l + 8];
    u64::from_le_bytes([a[0], a[1], a[2], a[3], a[4], a[5], a[6], a[7]])
}

/// How many leading letters of two eights are equal, by their numbers; 8 if all are. The lowest bit that differs lies
/// in the first byte that differs.
pub fn equal_bytes(v: u64, w: u64) -> u32
    ensures { PairTells v w result }
{
    u64::trailing_zeros(v ^ w) / 8
}
