// Laws of what nodes keep, each the contract of a function that does nothing of its own.

ghost use Rattle.pz_tree_nodes.specs.Laws.{UnaskedAreRight, UnaskedAreFlagged, UnwokenAreCalm, UnwokenAreSteady};
ghost use Rattle.pz_tree_nodes.specs.Seeking.{ActiveAtPlace, TendedStand};

/// Nodes of which the topmost says that nothing is asked are right as soon as they are active, and say
/// rightly what a passing of time may wake.
pub fn unasked_nodes_are_right()
    ensures law { UnaskedAreRight }
    ensures flags { UnaskedAreFlagged }
{
    pz_tree_standing::laws::rests_are_right();
}

/// Nodes of which the topmost keeps that no active delay has still to begin, that no active part names the
/// clock and that what is due comes afterwards are calm and steady: a passing of time touches none of them.
pub fn unwoken_nodes_stay()
    ensures calm { UnwokenAreCalm }
    ensures steady { UnwokenAreSteady }
{
    pz_tree_standing::laws::unwoken_nodes_stay();
}

/// An active part of a term is the part at its place, in the frame there.
pub fn active_parts_are_at_their_places()
    ensures law { ActiveAtPlace }
{}

/// Tended nodes stand for their term under the key of the topmost, so parts are found in them.
pub fn tended_nodes_stand()
    ensures law { TendedStand }
{}
