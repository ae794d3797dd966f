use pz_syntax::Pos;
use pz_syntax::pz_items::Items;

/// A call in the body of a method: the number of the called method, and the place of its name.
#[derive(Clone, Copy, Debug, PartialEq, Eq)]
pub struct Call {
    pub method: u32,
    pub pos: Pos,
}

/// What opening asks of a method. Methods stand in a list, each at its number.
#[derive(Drop)]
pub struct Method {
    /// How many statements its body has.
    pub statements: u32,
    /// The calls with which it begins.
    pub begun: Items<Call>,
    /// All calls that can open in its body.
    pub calls: Items<Call>,
}
