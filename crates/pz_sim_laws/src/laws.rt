// Laws of systems that are known process by process, each the contract of a function that does nothing.

ghost use Rattle.pz_sim_laws.specs.Laws.{MomentIsDecided, InternalsComeFirst, CommunicationsFollow, PairsAreCouples, ReceiversStand, SendsAreOrdered, ReceivesAreOrdered, SendersAreReplaced, ReceiversAreReplaced, OthersStayTruthful, MembersAct, ActionLeadsOn, CommunicationLeadsOn, SenderTroubleEnds, PassingLeadsOn, MembersStay, MembersPass, SendsOutlast, ReceivesOutlast, VerdictsOutlast};
ghost use Rattle.pz_sim_laws.specs.Leading.{MerelyMoment, MerelyChosen, MerelyLeads, MerelyPasses};
ghost use Rattle.pz_sim_laws.specs.devices.Saying.{SaysWhatIsComputed, SaysNothingElse};

/// Where no term is too high, the moment is what totals and pairs decide.
use pz_tree_standing::pz_rules::{pz_classes_rules, pz_eval_rules};

pub fn moments_are_decided()
    ensures law { MomentIsDecided }
{
    pz_tree_standing::pz_rules::laws::one_list_of_offers();
    pz_tree_standing::pz_rules::laws::walks_list_what_is_active();
    pz_part_queries::laws::one_verdict();
}

/// The offers by their numbers: the internal actions, process by process, and behind them the pairs that are
/// taken.
pub fn offers_are_numbered()
    ensures internal { InternalsComeFirst }
    ensures communications { CommunicationsFollow }
{
    pz_tree_standing::pz_rules::laws::walks_list_what_is_active();
    pz_part_queries::laws::one_verdict();
}

/// The pairs of what all processes offer are those of the rules. What is offered stands in its process, in
/// the order of places.
pub fn pairs_are_those_of_the_rules()
    ensures couples { PairsAreCouples }
    ensures receivers { ReceiversStand }
    ensures sends { SendsAreOrdered }
    ensures receives { ReceivesAreOrdered }
{
    pz_tree_standing::pz_rules::laws::walks_list_what_is_active();
    pz_tree_standing::pz_rules::laws::offered_parts_act();
}

/// Where one process is replaced, what the others offer and what their receives say stays.
pub fn others_stay()
    ensures senders { SendersAreReplaced }
    ensures receivers { ReceiversAreReplaced }
    ensures truthful { OthersStayTruthful }
{}

/// What one process or two leave by an action, and all as time passes, is the next configuration of the
/// rules, or the trouble of it.
pub fn steps_lead_on()
    ensures acts { MembersAct }
    ensures action { ActionLeadsOn }
    ensures communication { CommunicationLeadsOn }
    ensures trouble { SenderTroubleEnds }
    ensures passing { PassingLeadsOn }
    ensures stay { MembersStay }
    ensures pass { MembersPass }
{
    pz_eval_rules::laws::each_list_has_an_outcome();
}

/// A receive says to a parcel what is computed, and nothing else.
pub fn receives_say_one_thing()
    ensures computed { SaysWhatIsComputed }
    ensures only { SaysNothingElse }
{
    pz_eval_rules::laws::each_evaluation_has_an_outcome();
    pz_tree_standing::pz_rules::laws::evaluations_are_computed();
    pz_part_queries::laws::one_verdict();
}

/// In a sound model there is one moment of a configuration, one offer of a number, one result of it, and one
/// configuration after a passing of time, and each can be found. So what is merely so of them is so.
pub fn what_is_merely_so_is_so()
    ensures moment { MerelyMoment }
    ensures chosen { MerelyChosen }
    ensures leads { MerelyLeads }
    ensures passes { MerelyPasses }
{
    pz_classes_rules::laws::sound_bodies_fit();
    pz_eval_rules::laws::each_evaluation_has_an_outcome();
    pz_eval_rules::laws::each_list_has_an_outcome();
    pz_tree_standing::pz_rules::laws::wires_are_known();
    pz_tree_standing::pz_rules::laws::one_list_of_offers();
    pz_tree_standing::pz_rules::laws::one_moment();
    pz_tree_standing::pz_rules::laws::one_next();
    pz_tree_standing::pz_rules::laws::least_passes();
    pz_tree_standing::pz_rules::laws::active_parts_fit();
    pz_tree_standing::pz_rules::laws::trees_are_sets();
}

/// In a sound model a process that does not name the clock offers the same after a passing of time, and its
/// receives say the same.
pub fn unclocked_offers_outlast()
    ensures sends { SendsOutlast }
    ensures receives { ReceivesOutlast }
    ensures verdicts { VerdictsOutlast }
{
    pz_eval_rules::laws::unclocked_is_timeless();
    pz_tree_standing::laws::steady_terms_keep_summaries();
    pz_tree_standing::pz_rules::laws::passing_is_computed();
    pz_tree_standing::pz_rules::laws::evaluations_are_computed();
    pz_tree_standing::pz_rules::laws::walks_list_what_is_active();
    pz_tree_standing::pz_rules::laws::offered_parts_act();
}
