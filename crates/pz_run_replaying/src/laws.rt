// Laws, each the contract of a function that does nothing.

ghost use Rattle.pz_run_replaying.specs.Laws.{HasOneToldRun};
ghost use Rattle.pz_run_replaying.specs.devices.Known.{Known};

/// The text of a trace is that of one run of a sound model: it tells the events, the configuration to which
/// they lead, and the ending.
pub fn one_told_run()
    ensures { HasOneToldRun }
{
    rules_are_known();
}

/// What is known of runs, of lines and of writing.
pub(crate) fn rules_are_known()
    ensures { Known }
{
    pz_rules::laws::one_list_of_offers();
    pz_rules::laws::wires_are_known();
    pz_rules::laws::one_moment();
    pz_rules::laws::least_passes();
    pz_rules::laws::one_next();
    pz_rules::laws::what_fits_goes_on();
    pz_term_simulator::laws::simulators_show_one_moment();
    pz_term_simulator::laws::room_is_left();
    pz_trace::laws::what_happens_is_named();
    pz_trace::laws::lines_stand_apart();
    pz_trace::laws::lines_differ();
    pz_trace::laws::headings_tell_actions();
    pz_io::laws::pieces_join();
}
