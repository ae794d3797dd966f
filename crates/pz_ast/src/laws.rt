//! Laws of the definitions, each the contract of a function.

ghost use Rattle.pz_ast.specs.HeadsLaw.{TextHasItsHeads};

/// The text of a model that the grammar has is marked as the rule for heads marks its tokens.
pub fn text_has_its_heads()
    ensures { TextHasItsHeads }
{}
