//! Laws of the text of rings, each the contract of a function that does nothing.
#![tactic(auto)]

ghost use Rattle.pz_gen_laws.specs.Rings.{RingsAreModels, RingsAreShort};

/// The text of a ring of 2 to 1000 stations is that of a model that violates no rule, and opens.
pub fn ring_is_accepted()
    ensures law { RingsAreModels }
{}

/// The text of a ring of at most 1000 stations has fewer than 2^17 bytes.
pub fn ring_is_short()
    ensures law { RingsAreShort }
{}
