use crate::Mention;
use pz_syntax::Id;
use pz_syntax::pz_items::Items;

/// A stretch of a declaration in which the same local names are known.
#[derive(Drop)]
pub struct LocalScope {
    /// The local names, in the order of the text.
    pub locals: Items<Id>,
    /// What the stretch mentions, in the order of the text.
    pub mentions: Items<Mention>,
}
