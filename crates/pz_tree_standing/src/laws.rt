// Laws of what nodes stand for, each the contract of a function that does nothing.

ghost use Rattle.pz_tree_standing.specs.Laws.{OneTerm, ReachesWhatGoesOn, TimePasses, NothingElsePasses, StillRight, StillSound, UnwokenIsCalm, UnwokenIsSteadyToo, RestsAreRight, FramesStandOrAreLost, NoFramesOpenInOne, NoDeeperThanHigh};
ghost use Rattle.pz_tree_standing.specs.devices.Laws.{TimePassesComputed, StillRightComputed, StillSoundComputed, WrittenIsSummary, WrittenIsRight, ChildTerms, ChildFits, ChildRests, ChildRight, ShiftsAdd};
ghost use Rattle.pz_tree_standing.specs.SummaryLaws.{OfSequence, OfFrame, OfGuard, OfAbort, OfIdle, OfHandling, OfParallel, OfSelect, OfLaterClock, UnaskedIsSteady, UnwokenIsSteady, SteadySummary};
ghost use Rattle.pz_tree_standing.specs.devices.SummaryLaws.{TestIsSteady, SteadySummaryIsComputed};
ghost use Rattle.pz_tree_standing.specs.Frames.{PerformedOpens, HandedOpens, TakenOpens, AroundOpens, FramesStandAtStart, FramesStandAsTimePasses};

/// The nodes under a key stand for one term at most.
pub fn nodes_stand_for_one_term()
    ensures law { OneTerm }
{}

/// A node reaches those of its children that go on with its term.
pub fn reached_parts_are_active()
    ensures law { ReachesWhatGoesOn }
{
    pz_rules::laws::evaluations_are_computed();
    pz_rules::pz_eval_rules::laws::computed_is_found();
}

/// Where no active delay begins, the same nodes, not one touched, stand for what the passing of time leaves.
pub fn time_passes()
    ensures passes { TimePasses }
    ensures only { NothingElsePasses }
    ensures computed { TimePassesComputed }
{
    pz_rules::laws::passing_is_computed();
}

/// In a sound model their summaries and gates stay right, and they stay sound, where no active delay begins
/// or is over, and no active test or argument names the clock.
pub fn still_right()
    ensures right { StillRight }
    ensures sound { StillSound }
    ensures computed { StillRightComputed }
    ensures computed_sound { StillSoundComputed }
{
    crate::laws::steady_terms_keep_summaries();
    crate::laws::unasked_is_steady();
    pz_rules::pz_eval_rules::laws::unclocked_is_timeless();
    pz_clock::laws::local_clocks();
}

/// What nothing wakes is calm and steady: where no active delay begins, no active part names the clock, and
/// what the topmost node keeps is due afterwards.
pub fn unwoken_nodes_stay()
    ensures calm { UnwokenIsCalm }
    ensures steady { UnwokenIsSteadyToo }
{
    crate::laws::unwoken_is_steady();
}

/// Nodes are no more than twice as deep as their term is high.
pub fn nodes_are_no_deeper()
    ensures law { NoDeeperThanHigh }
{}

/// A part that rests and is asked nothing is right as soon as it is active.
pub fn rests_are_right()
    ensures law { RestsAreRight }
{}

/// A node whose active children keep the right summaries is right once it keeps the one that is made of
/// theirs.
pub fn nodes_are_written()
    ensures summary { WrittenIsSummary }
    ensures right { WrittenIsRight }
{}

/// A child becomes another, or is gone: what that does to the term, and to what is so of each child. Two
/// shift nodes, one under the other, are one.
pub fn children_are_replaced()
    ensures terms { ChildTerms }
    ensures fits { ChildFits }
    ensures rests { ChildRests }
    ensures right { ChildRight }
    ensures shifts_add { ShiftsAdd }
{}

/// An action loses the frames that stand no longer, and no others, and opens those of what opens with it: each is
/// counted. In edition One none opens so.
pub fn frames_are_counted()
    ensures law { FramesStandOrAreLost }
    ensures one { NoFramesOpenInOne }
{}

/// The summary of a term from those of its parts, form by form, and that by a clock that is ahead.
pub fn summaries_by_form()
    ensures sequence { OfSequence }
    ensures frame { OfFrame }
    ensures guard { OfGuard }
    ensures abort { OfAbort }
    ensures idle { OfIdle }
    ensures handling { OfHandling }
    ensures parallel { OfParallel }
    ensures select { OfSelect }
    ensures shifted { OfLaterClock }
{}

/// What is asked nothing has one summary by a clock of its own, whatever the state and the clock of the
/// process.
pub fn unasked_is_steady()
    ensures law { UnaskedIsSteady }
{}

/// A term that a passing of time does not wake is steady: no active delay of it begins, no active part names
/// the clock, and what is due first is due afterwards.
pub fn unwoken_is_steady()
    ensures law { UnwokenIsSteady }
{}

/// In a sound model a term of which no delay begins or is over, and no test or argument names the clock,
/// has the same summary when so much time has passed.
pub fn steady_terms_keep_summaries()
    ensures summary { SteadySummary }
    ensures computed { SteadySummaryIsComputed }
    ensures tests { TestIsSteady }
{
    pz_rules::pz_eval_rules::laws::unclocked_is_timeless();
    pz_rules::laws::passing_is_computed();
}

/// What a part becomes by its deed stands in frames that have opened in the state, each once. In edition One no others
/// have opened, and no evaluation opens or closes any.
pub fn deeds_open_frames()
    ensures performed { PerformedOpens }
    ensures handed { HandedOpens }
    ensures taken { TakenOpens }
{}

/// So does what opens around it: the statements behind what is done, and the second part of an interrupt that is done.
pub fn openings_open_frames()
    ensures law { AroundOpens }
{}

/// Just the frames that stand in a process that begins are open in its state.
pub fn frames_stand_at_start()
    ensures law { FramesStandAtStart }
{
    pz_rules::laws::frames_are_numbered();
}

/// As time passes the same frames stand.
pub fn frames_stand_as_time_passes()
    ensures law { FramesStandAsTimePasses }
{}
