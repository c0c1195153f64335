//! Words, their two factorizations and their runs. The definitions are in specs/, with examples; what is said of them
//! is in the crate theory. The two types here are those that the definition of the breaks is stated in, and in which
//! the code holds one.
#![tactic(auto)]

/// The separator letter (request 103: a mark, which a board writes when its thermocouple is open).
pub const SEPARATOR: u8 = 255;

/// What became of a break: kept, with the letters after both copies of r, the smaller first; or joined, with |r| less
/// the length of the factor that was joined.
#[derive(Drop)]
pub enum Fate {
    Kept(u8, u8),
    Joined(u16),
}

/// A break of the piece cut: the place where p ends, the place where that step began, |r|, and what became of it.
#[derive(Drop)]
pub struct Break {
    pub place: u16,
    pub begun: u16,
    pub border: u16,
    pub fate: Fate,
}
