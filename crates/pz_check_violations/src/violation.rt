use pz_syntax::Pos;

/// A rule of the checker that a model violates, by its number, and the place in the text.
#[derive(Clone, Copy, Debug, PartialEq, Eq)]
pub struct Violation {
    pub rule: u8,
    pub pos: Pos,
}
