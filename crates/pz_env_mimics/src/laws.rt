// Laws of driven systems and of the models that close them, each the contract of a function that does
// nothing.

ghost use Rattle.pz_env_mimics.specs.Laws.{DrivenRunsAreClosed, ClosedRunsAreDriven, ChosenDrivenAreClosed, ChosenClosedAreDriven, EventLinesAreSame, EventTextsAreSame, EndLinesAreSame, TextsAreSame, WrittenLinesArePlain};

/// The runs of a model that closes a driven system are the driven runs: the same events one by one, at the
/// same clocks, and where they stand the same may happen and they may end the same. So are the runs that a
/// policy chooses, and the texts.
pub fn runs_are_the_same()
    ensures driven { DrivenRunsAreClosed }
    ensures closed { ClosedRunsAreDriven }
    ensures chosen_driven { ChosenDrivenAreClosed }
    ensures chosen_closed { ChosenClosedAreDriven }
    ensures texts { TextsAreSame }
{
    pz_env_tree::pz_rules::laws::one_next();
    pz_env_same::laws::processes_see_the_same();
    pz_env_same::laws::parts_are_the_same();
    pz_env_same::laws::processes_stand_in_both();
    pz_env_same::laws::offers_are_the_same();
    pz_env_same::laws::moments_are_the_same();
    pz_env_same::laws::parts_act_the_same();
    pz_env_same::laws::steps_are_the_same();
    pz_env_same::laws::starts_are_the_same();
}

/// The same event has the same line in both, and so have the same events and an end.
pub fn lines_are_the_same()
    ensures event { EventLinesAreSame }
    ensures events { EventTextsAreSame }
    ensures end { EndLinesAreSame }
{}

/// Each line of a script that a text writes waits 0 or more, and has no values but those of literals.
pub fn written_lines_are_plain()
    ensures law { WrittenLinesArePlain }
{}
