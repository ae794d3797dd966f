// Laws of execution, each the contract of a function that does nothing.

ghost use Rattle.pz_rules.specs.Laws.{OneListOfOffers, EveryListOfOffers, WiresAreKnown, OneMoment, EveryMoment, MomentsCountOffers, TimeWaits, LeastPasses, TimeIsPositive, EveryPassing, PassingTakes, BringsToZero, OneNext, OnePassing, StaysWhole, StartFits, StaysFit, EveryNext, OneChosenRun, EveryChosenRun, ChosenRunsAreRuns, WhatCanActs, WhatSendsIsASend, WhatReceivesIsAReceive, NumbersAreFree, OneNumberIsLeast, LowStays, LowPasses, LowIsNotStopped, OneStart, EveryStart, ProcessesHaveClasses};
ghost use Rattle.pz_rules.specs.CallLaws.{MethodsAreShallow, CallsUnfold, CallsStand, CallsOfNoneStand, BodiesBringFewFrames, StartsBringFewFrames};
ghost use Rattle.pz_rules.specs.Clocks.{ClocksStayLow};
ghost use Rattle.pz_rules.specs.devices.Room.{StartsHaveRoom, ActionsLeaveRoom, PassingsLeaveRoom, RoomIsLow, LessRoom};
ghost use Rattle.pz_rules.specs.devices.Computed.{TestsAreComputed, TimesAreComputed, PartsAreComputed, PassingIsComputed, OnePassingIsComputed};
ghost use Rattle.pz_rules.specs.devices.Ends.{PassingsEnd, ActivePartsFit};
ghost use Rattle.pz_rules.specs.devices.Outlines.{OpeningsHaveOutlines, OutlinesUnfold, OutlinesOfNone, OutlinesInOne, OutlinesAreAsHigh, OutlinesAreAsDone};
ghost use Rattle.pz_rules.specs.devices.Sets.{StatementsAreASet, BodiesAreASet};
ghost use Rattle.pz_rules.specs.devices.Start.{StartIsComputed};
ghost use Rattle.pz_rules.specs.devices.Weights.{CallsAreHeavier};
ghost use Rattle.pz_rules.specs.devices.Walks.{InternalActionsAreListed, SendsAreListed, SendsHaveParcels, ReceivesAreListed, DelaysAreListed, TroublesAreListed};
ghost use Rattle.pz_rules.specs.DelayLaws.{StartsAreShort, ShortStays, ShortPasses, MomentsAreShort};

/// A configuration has no more than one list of offers, and has one where the wires of its model are
/// known.
pub fn one_list_of_offers()
    ensures one { OneListOfOffers }
    ensures some { EveryListOfOffers }
{}

/// The wires of a sound model are known: of each port of each process, which wire it has, and where
/// it has none.
pub fn wires_are_known()
    ensures law { WiresAreKnown }
{
    pz_bind_rules::laws::ends_share_wires();
}

/// A configuration has no more than one moment, and has one where the wires of its model are known. A
/// moment with actions counts the offers, of which there is one at least.
pub fn one_moment()
    ensures one { OneMoment }
    ensures some { EveryMoment }
    ensures counts { MomentsCountOffers }
{}

/// Where the wires of a model are known, time never passes while an action is possible.
pub fn time_waits()
    ensures law { TimeWaits }
{}

/// A passing is by the least that is left of an active delay. Afterwards so much less is left of each
/// of these delays, and nothing of some. Where the wires of the model are known, a passing is by one
/// clock unit or more, and there is a configuration to which it leads.
pub fn least_passes()
    ensures least { LeastPasses }
    ensures positive { TimeIsPositive }
    ensures some { EveryPassing }
    ensures takes { PassingTakes }
    ensures elapsed { BringsToZero }
{}

/// An action leads to no more than one configuration or trouble. Where as many processes stand as the
/// model has, a passing leads to no more than one configuration, and neither makes or ends a process.
pub fn one_next()
    ensures action { OneNext }
    ensures passing { OnePassing }
    ensures whole { StaysWhole }
{}

/// In a sound model all that is left of a process fits its class from the start and stays so, and
/// then each action that is offered leads to a configuration or to a trouble.
pub fn what_fits_goes_on()
    ensures start { StartFits }
    ensures stays { StaysFit }
    ensures some { EveryNext }
{
    pz_bind_rules::pz_classes_rules::laws::sound_bodies_fit();
}

/// What a policy chooses is a run of the rules. Where as many processes stand as the model has, it
/// chooses no more than one run; it chooses one where the model is sound, its wires are known, and what
/// is left of each process fits its class.
pub fn one_chosen_run()
    ensures one { OneChosenRun }
    ensures some { EveryChosenRun }
    ensures is_run { ChosenRunsAreRuns }
{
    pz_bind_rules::pz_classes_rules::laws::sound_bodies_fit();
}

/// One walk of a term lists the internal actions, sends, receives, delays and troubles of its active
/// parts, exactly those that the rules derive, strictly by place. A send has one parcel.
pub fn walks_list_what_is_active()
    ensures internal { InternalActionsAreListed }
    ensures sends { SendsAreListed }
    ensures parcels { SendsHaveParcels }
    ensures receives { ReceivesAreListed }
    ensures delays { DelaysAreListed }
    ensures troubles { TroublesAreListed }
{}

/// What evaluations of statements give is what is computed of them.
pub fn evaluations_are_computed()
    ensures tests { TestsAreComputed }
    ensures times { TimesAreComputed }
    ensures parts { PartsAreComputed }
{}

/// What the passing of time leaves of a term is what is computed of it, and where nothing that its
/// active parts are asked has a trouble, it leaves that.
pub fn passing_is_computed()
    ensures only { OnePassingIsComputed }
    ensures some { PassingIsComputed }
{}

/// Only so many passings of time follow each other: each leaves fewer delays that may have something
/// left.
pub fn passings_end()
    ensures law { PassingsEnd }
{}

/// The clock stays below 2^127 in a run of at most 10^9 actions, of a model that is sound for its edition and
/// whose text has fewer than 2^32 - 1 marks, if each passing is shorter than 2^64 clock units.
pub fn clocks_stay_low()
    ensures law { ClocksStayLow }
{
    wires_are_known();
}

/// The same step by step: room for so many actions is there at the start, an action takes one, the passing
/// of time none, and where there is room the clock is below 2^127.
pub fn room_is_left()
    ensures start { StartsHaveRoom }
    ensures action { ActionsLeaveRoom }
    ensures passing { PassingsLeaveRoom }
    ensures low { RoomIsLow }
    ensures less { LessRoom }
{
    wires_are_known();
}

/// An active part of a term that fits a class fits it too.
pub fn active_parts_fit()
    ensures law { ActivePartsFit }
{}

/// What can act by itself is an acting part, what sends is a send, and what receives is a receive.
pub fn offered_parts_act()
    ensures acts { WhatCanActs }
    ensures sends { WhatSendsIsASend }
    ensures receives { WhatReceivesIsAReceive }
{}

/// The number of a frame that opens is the least that no open frame has, and no other number is.
pub fn frames_are_numbered()
    ensures free { NumbersAreFree }
    ensures one { OneNumberIsLeast }
{}

/// Where no term is higher than the limit, none is after an action or a passing of time, and the moment
/// is not `Stopped`.
pub fn low_terms_stay()
    ensures action { LowStays }
    ensures passing { LowPasses }
    ensures moment { LowIsNotStopped }
{}

/// A model starts in no more than one configuration, and a sound one in the one that is computed.
pub fn start_is_one()
    ensures one { OneStart }
    ensures some { EveryStart }
    ensures computed { StartIsComputed }
{
    pz_bind_rules::pz_classes_rules::laws::sound_classes_fit();
}

/// Each process of a model is of a process class.
pub fn processes_have_classes()
    ensures law { ProcessesHaveClasses }
{}

/// Where no method begins with itself, no more methods open in one another than there are. Then, in a sound
/// model in edition Two, a plain call opens as a frame round the body of its method, which opens in it, and
/// the body is lighter than the call. In edition One a plain call stands as it is, and in either edition so
/// does a call of what is no method.
pub fn calls_unfold()
    ensures shallow { MethodsAreShallow }
    ensures unfolds { CallsUnfold }
    ensures stands { CallsStand }
    ensures none { CallsOfNoneStand }
    ensures heavier { CallsAreHeavier }
{
    pz_bind_rules::pz_classes_rules::laws::sound_bodies_fit();
}

/// In edition Two, in a model whose openings end and are not too large, what opens out of a body of a
/// process class, or out of a part of it, brings at most 1,000,000 frames; the call with which a process
/// starts brings its own and at most 1,000,000 more.
pub fn openings_are_small()
    ensures bodies { BodiesBringFewFrames }
    ensures starts { StartsBringFewFrames }
{}

/// But for the numbers of frames, what statements open as is computed without a state.
pub fn openings_have_outlines()
    ensures outlines { OpeningsHaveOutlines }
    ensures unfolds { OutlinesUnfold }
    ensures none { OutlinesOfNone }
    ensures one { OutlinesInOne }
    ensures high { OutlinesAreAsHigh }
    ensures done { OutlinesAreAsDone }
{
    calls_unfold();
}

/// Statements, and bodies of methods, that are merely equal are equal, also where there may be none.
pub fn trees_are_sets()
    ensures statements { StatementsAreASet }
    ensures bodies { BodiesAreASet }
{}

/// Where a model starts, of each delay that has begun less than 2^64 clock units are left: none has begun.
pub fn starts_are_short()
    ensures law { StartsAreShort }
{}

/// So it is after an action, where it was so before: an action begins no delay.
pub fn short_stays()
    ensures law { ShortStays }
{}

/// And after the passing of time, where each active delay that had not begun took less than 2^64.
pub fn short_passes()
    ensures law { ShortPasses }
{}

/// A passing then is by less than 2^64 clock units.
pub fn moments_are_short()
    ensures law { MomentsAreShort }
{}
