//! Laws of the grammar, each the contract of a function that does nothing.

ghost use Rattle.pz_parser.specs.OneTree.{HasOneTree, HasOnePlacedTree, PlacesAlone};

/// Models of the grammar with one text are equal up to positions.
pub fn one_tree()
    ensures { HasOneTree }
{}

/// Tokens are the text of one model alone, with their positions.
pub fn one_placed_tree()
    ensures { HasOnePlacedTree }
{}

/// The positions of tokens change nothing else of a tree.
pub fn places_alone()
    ensures { PlacesAlone }
{}
