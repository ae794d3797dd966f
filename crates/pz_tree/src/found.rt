use pz_rules::Kind;
use pz_rules::pz_offer::Place;
use pz_rules::pz_syntax::Pos;

/// An internal action that a process offers.
#[derive(Drop)]
pub struct InternalAction {
    /// Where the part that can do it stands in the term.
    pub place: Place,
    pub kind: Kind,
    /// The place of its statement in the text.
    pub pos: Pos,
}
