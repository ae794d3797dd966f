//! Laws of layouts, each the contract of a function that does nothing.

ghost use Rattle.pz_run_formatting.specs.Laws.{LayoutsKeepTrees, LayoutsKeepPieces, LayoutsStay};

/// What is read of the layout of a model's text, where that is one of bytes: the same tree, tokens and
/// comments, but for their places; and the layout of these is the text itself.
pub fn layouts_read_back()
    ensures tree { LayoutsKeepTrees }
    ensures pieces { LayoutsKeepPieces }
    ensures again { LayoutsStay }
{
    pz_lexer::one_answer();
    pz_format::models_stand_apart();
    pz_format::layouts_read_back();
    pz_parser::laws::places_alone();
    pz_parser::laws::one_placed_tree();
}
