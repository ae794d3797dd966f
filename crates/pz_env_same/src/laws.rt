// Laws of two models with the same rules, each the contract of a function that does nothing.

ghost use Rattle.pz_env_same.specs.Laws.{EvaluationsAreTheSame, ListEvaluationsAreTheSame, TestsAreTheSame, TimesAreTheSame, PartsAreTheSame, AskedIsTheSame, ActivePartsAreTheSame, ActionsAreTheSame, SendsAreTheSame, JudgementsAreTheSame, DelaysAreTheSame, PerformancesAreTheSame, HandingsAreTheSame, TakingsAreTheSame, LeavingsAreTheSame, PassingsAreTheSame, OpeningsAreTheSame, SequencesOpenTheSame, SameBodiesMakeSameCalls, SeeingIsSymmetric, ProcessesSeeTheSame};
ghost use Rattle.pz_env_same.specs.SystemLaws.{OneMoreIsBehind, BothAreWhole, ProcessesStandInBoth, ProcessesSeeTheSameInBoth, OneMoreStands, OneMoreIsLast, PartsStandInBoth, PartsAreOfTheModel, InternalOffersAreTheSame, PairsAreTheSame, VerdictsAreTheSame, CommunicationsAreTheSame, TroublesOfPartsAreTheSame, TroublesOfPairsAreTheSame, DelaysLeaveTheSame, HighIsTheSame, AllAreDoneInBoth, PartsPerformTheSame, PartsHandTheSame, PartsTakeTheSame, ProcessesBecomeTheSame, OneMoreBecomes, LeadOnToBoth, TimePassesInBoth, StartsHaveOneMore, StartsAreOfBoth};

/// Where two models have the same data classes, an evaluation finds the same in both.
pub fn evaluations_are_the_same()
    ensures value { EvaluationsAreTheSame }
    ensures list { ListEvaluationsAreTheSame }
{}

/// Each process of a model sees the same in one with the same rules, and the other way round.
pub fn processes_see_the_same()
    ensures symmetric { SeeingIsSymmetric }
    ensures law { ProcessesSeeTheSame }
{}

/// What the statements of a process ask has the same answers in both.
pub fn answers_are_the_same()
    ensures tests { TestsAreTheSame }
    ensures times { TimesAreTheSame }
    ensures parts { PartsAreTheSame }
    ensures asked { AskedIsTheSame }
{}

/// The same parts of it are active, with the same actions, sends, verdicts and delays.
pub fn parts_are_the_same()
    ensures active { ActivePartsAreTheSame }
    ensures actions { ActionsAreTheSame }
    ensures sends { SendsAreTheSame }
    ensures verdicts { JudgementsAreTheSame }
    ensures delays { DelaysAreTheSame }
{}

/// They leave the same of it, and so does the passing of time.
pub fn deeds_are_the_same()
    ensures performs { PerformancesAreTheSame }
    ensures hands { HandingsAreTheSame }
    ensures takes { TakingsAreTheSame }
    ensures leaves { LeavingsAreTheSame }
    ensures passes { PassingsAreTheSame }
{}

/// Statements open the same.
pub fn openings_are_the_same()
    ensures statement { OpeningsAreTheSame }
    ensures sequence { SequencesOpenTheSame }
{}

/// Where no method begins with itself, the bodies of methods decide what plain calls become.
pub fn same_bodies_make_same_calls()
    ensures law { SameBodiesMakeSameCalls }
{
    pz_rules::laws::calls_unfold();
}

/// In a configuration with one process more, the others stand as they do without it.
pub fn processes_stand_in_both()
    ensures behind { OneMoreIsBehind }
    ensures whole { BothAreWhole }
    ensures processes { ProcessesStandInBoth }
    ensures sees { ProcessesSeeTheSameInBoth }
    ensures more { OneMoreStands }
    ensures last { OneMoreIsLast }
    ensures parts { PartsStandInBoth }
    ensures of_model { PartsAreOfTheModel }
{}

/// They offer the same.
pub fn offers_are_the_same()
    ensures internal { InternalOffersAreTheSame }
    ensures pairs { PairsAreTheSame }
    ensures verdicts { VerdictsAreTheSame }
    ensures communications { CommunicationsAreTheSame }
{}

/// They have the same troubles, as much left of their delays, and are done or too high where they are without
/// it.
pub fn moments_are_the_same()
    ensures parts { TroublesOfPartsAreTheSame }
    ensures pairs { TroublesOfPairsAreTheSame }
    ensures left { DelaysLeaveTheSame }
    ensures high { HighIsTheSame }
    ensures done { AllAreDoneInBoth }
{}

/// They do the same.
pub fn parts_act_the_same()
    ensures performs { PartsPerformTheSame }
    ensures hands { PartsHandTheSame }
    ensures takes { PartsTakeTheSame }
    ensures processes { ProcessesBecomeTheSame }
    ensures more { OneMoreBecomes }
{}

/// Their actions and the passing of time lead on to the same.
pub fn steps_are_the_same()
    ensures action { LeadOnToBoth }
    ensures passing { TimePassesInBoth }
{}

/// They start the same.
pub fn starts_are_the_same()
    ensures some { StartsHaveOneMore }
    ensures only { StartsAreOfBoth }
{}
