use pz_classes_code::pz_syntax::Pos;
use pz_nodes::Key;
use pz_rules::Kind;
use pz_rules::pz_offer::Place;
use pz_rules::pz_state::FrameId;

/// A part of a term, and where it stands in the nodes.
#[derive(Drop)]
pub struct Part {
    /// Where it stands in the term.
    pub place: Place,
    /// The key of its topmost node, which is no shift node.
    pub key: Key,
    /// The frame in which it stands.
    pub frame: FrameId,
    /// What its clock shows, in clock units.
    pub clock: u128,
}

/// A part, and the internal action that it can do.
#[derive(Drop)]
pub struct ActingPart {
    pub part: Part,
    pub kind: Kind,
    /// The place of its statement in the text.
    pub pos: Pos,
}

/// What parts are sought.
#[derive(Clone, Copy, Debug, PartialEq, Eq)]
pub enum Offering {
    /// Those that send.
    Sends,
    /// Those that receive.
    Receives,
}
