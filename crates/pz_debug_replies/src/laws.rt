// Laws of the text of sessions, the contracts of functions that do nothing.

ghost use Rattle.pz_debug_replies.specs.Laws.{OneAdvance, OneReply, OneText, EveryAdvance, EveryReply, EveryText, EverySession};
ghost use Rattle.pz_debug_replies.specs.devices.Known.{Known};

/// From where some steps lead, so many further ones have one text, and lead to one list of steps.
pub fn advances_are_one()
    ensures { OneAdvance }
{
    pz_debug_session::laws::sessions_have_one_place();
    pz_term_simulator::laws::simulators_show_one_moment();
}

/// Commands have one reply each, and one text together, and leave one list of steps.
pub fn replies_are_one()
    ensures reply { OneReply }
    ensures text { OneText }
{
    pz_rules::laws::one_list_of_offers();
    pz_rules::laws::walks_list_what_is_active();
    pz_debug_session::laws::sessions_have_one_place();
    pz_term_simulator::laws::simulators_show_one_moment();
}

/// In a session of a sound model each command has a reply, and a text of commands has a text of replies.
pub fn sessions_have_replies()
    ensures advance { EveryAdvance }
    ensures reply { EveryReply }
    ensures text { EveryText }
    ensures session { EverySession }
{
    rules_are_known();
}

/// What is known of runs, of sessions, of names and of writing.
pub(crate) fn rules_are_known()
    ensures { Known }
{
    pz_rules::laws::wires_are_known();
    pz_rules::laws::one_list_of_offers();
    pz_rules::laws::one_moment();
    pz_rules::laws::least_passes();
    pz_rules::laws::one_next();
    pz_rules::laws::what_fits_goes_on();
    pz_rules::laws::start_is_one();
    pz_rules::laws::walks_list_what_is_active();
    pz_term_simulator::laws::simulators_show_one_moment();
    pz_trace::laws::what_happens_is_named();
    pz_io::laws::pieces_join();
    pz_debug_commands::laws::texts_have_one_list();
    pz_debug_session::laws::sessions_have_one_place();
    pz_debug_session::laws::sessions_go_on();
    pz_debug_session::laws::fronts_lead_too();
}
