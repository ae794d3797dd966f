// Laws, each the contract of a function that does nothing.

ghost use Rattle.pz_run_playing.specs.Laws.{HasOneRun, RunTextsAreTraceTexts, ChosenRunsAreTraces};
ghost use Rattle.pz_run_playing.specs.devices.Known.{Known};

/// A policy chooses one run of a sound model: it has one list of events, one configuration at its end,
/// and one ending.
pub fn one_run()
    ensures { HasOneRun }
{
    pz_rules::laws::one_chosen_run();
    pz_rules::laws::what_fits_goes_on();
}

/// The text of a run in which no entry is refused is a trace of the model.
pub fn run_texts_are_traces()
    ensures texts { RunTextsAreTraceTexts }
    ensures traces { ChosenRunsAreTraces }
{
    pz_rules::laws::one_chosen_run();
}

/// What is known of runs, of names and of writing.
pub(crate) fn rules_are_known()
    ensures { Known }
{
    pz_rules::laws::wires_are_known();
    pz_rules::laws::one_moment();
    pz_rules::laws::least_passes();
    pz_rules::laws::one_next();
    pz_rules::laws::what_fits_goes_on();
    pz_rules::laws::one_chosen_run();
    pz_rules::laws::passings_end();
    pz_term_simulator::laws::simulators_show_one_moment();
    pz_term_simulator::laws::room_is_left();
    pz_watch_points::pz_trace::laws::what_happens_is_named();
    pz_io::laws::pieces_join();
    pz_watch_points::laws::processes_are_there();
}
