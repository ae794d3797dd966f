// Laws of sessions, the contracts of functions that do nothing.

ghost use Rattle.pz_debug_session.specs.Laws.{OnePlace, BeginsAtStart, GoesOnByChoice, GoesOnByPassing, FrontsLead, BeginsLow, StaysLowByChoice, StaysLowByPassing};
ghost use Rattle.pz_debug_session.specs.devices.Known.{Known};

/// A list of steps leads to one place.
pub fn sessions_have_one_place()
    ensures { OnePlace }
{
    rules_are_known();
}

/// Before its first step a session stands at the start of a run. After each step it stands where its
/// steps lead, with this one; and the clock is at most 2^64 units for each of them, if it was and a passing
/// is shorter.
pub fn sessions_go_on()
    ensures start { BeginsAtStart }
    ensures choice { GoesOnByChoice }
    ensures passing { GoesOnByPassing }
    ensures low_start { BeginsLow }
    ensures low_choice { StaysLowByChoice }
    ensures low_passing { StaysLowByPassing }
{
    rules_are_known();
}

/// Where steps lead somewhere, the first of them do.
pub fn fronts_lead_too()
    ensures { FrontsLead }
{}

/// What is known of runs.
pub(crate) fn rules_are_known()
    ensures { Known }
{
    pz_rules::laws::one_moment();
    pz_rules::laws::one_list_of_offers();
    pz_rules::laws::one_next();
    pz_rules::laws::start_is_one();
    pz_term_simulator::laws::simulators_show_one_moment();
}
