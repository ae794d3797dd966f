// Laws of closed systems, each the contract of a function that does nothing.

ghost use Rattle.pz_env_sound.specs.Laws.{ClosedTreesAreSound, ClosedTreesOpen, ClosedTreesHaveFewMarks};

/// The tree of a system that a script may close violates no rule.
pub fn closed_trees_are_sound()
    ensures law { ClosedTreesAreSound }
{
    pz_env_tree::pz_classes_rules::laws::ancestors_are_reached();
    pz_env_tree::pz_classes_rules::laws::sound_systems_fit();
    pz_env_tree::laws::refusals_are_computed();
}

/// In the tree of a system that a script may close, no method begins with a call that leads to the
/// method itself, and none is too large with all that opens out of it.
pub fn closed_trees_open()
    ensures law { ClosedTreesOpen }
{
    pz_env_tree::pz_classes_rules::laws::ancestors_are_reached();
    pz_env_tree::pz_classes_rules::laws::sound_systems_fit();
    pz_env_tree::laws::refusals_are_computed();
}

/// The text of the tree of a system that a script may close has fewer than 2^32 - 1 marks.
pub fn closed_trees_have_few_marks()
    ensures law { ClosedTreesHaveFewMarks }
{
    pz_env_tree::pz_classes_rules::laws::sound_systems_fit();
}
