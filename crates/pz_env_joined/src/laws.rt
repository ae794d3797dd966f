// Laws of closed systems, each the contract of a function that does nothing.

ghost use Rattle.pz_env_joined.specs.Laws.{ClosedHasSameRules, ClosedHasOneMore, ClosedHasEnvironment, ClosedTreeCloses};

/// The model that a script closes has the rules of the model with the further channels: what evaluation
/// takes of it, the processes with all that belongs to them, and their wires.
pub fn closed_has_same_rules()
    ensures law { ClosedHasSameRules }
{
    pz_env_mimics::pz_classes_rules::laws::ancestors_are_reached();
    pz_env_mimics::pz_classes_rules::laws::sound_systems_fit();
    pz_env_mimics::pz_rules::laws::calls_unfold();
}

/// It has one class and one process more, behind all others, and the same wires.
pub fn closed_has_one_more()
    ensures law { ClosedHasOneMore }
{
    pz_env_mimics::pz_classes_rules::laws::sound_systems_fit();
}

/// That process is the environment: its one method does the lines of the script, and the wire of the port
/// of a line is the wire of the line in the driven system.
pub fn closed_has_environment()
    ensures law { ClosedHasEnvironment }
{
    pz_env_mimics::pz_classes_rules::laws::ancestors_are_reached();
    pz_env_mimics::pz_classes_rules::laws::sound_systems_fit();
    pz_env_mimics::pz_rules::laws::calls_unfold();
}

/// So the model that a written script closes stands for the driven system, under limits that an environment
/// needs: the runs of the one are those of the other, by the laws of `pz_env_mimics`.
pub fn closed_tree_closes()
    ensures law { ClosedTreeCloses }
{
    pz_env_mimics::laws::written_lines_are_plain();
    closed_has_same_rules();
    closed_has_environment();
}
