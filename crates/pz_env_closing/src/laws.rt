// Laws of closed systems, each the contract of a function that does nothing.

ghost use Rattle.pz_env_closing.specs.Laws.{ClosedRunsAreDriven, DrivenRunsAreClosed, OneDrivenEnding};

/// A run that is chosen of a closed model is a driven run of the system and the script that is chosen so,
/// with the same text behind the header of driven runs.
pub fn closed_runs_are_driven()
    ensures { ClosedRunsAreDriven }
{
    pz_env_joined::laws::closed_tree_closes();
    pz_env_joined::pz_env_mimics::laws::runs_are_the_same();
    pz_env_joined::pz_env_mimics::laws::lines_are_the_same();
}

/// And a driven run that is chosen is a run of the closed model.
pub fn driven_runs_are_closed()
    ensures { DrivenRunsAreClosed }
{
    pz_env_joined::laws::closed_tree_closes();
    pz_env_joined::pz_env_mimics::laws::runs_are_the_same();
    pz_env_joined::pz_env_mimics::laws::lines_are_the_same();
    pz_run_playing::pz_rules::laws::one_chosen_run();
}

/// A policy chooses one end of driven runs.
pub fn driven_runs_end_once()
    ensures { OneDrivenEnding }
{
    driven_runs_are_closed();
    pz_env_sound::laws::closed_trees_are_sound();
    pz_run_playing::laws::one_run();
}
