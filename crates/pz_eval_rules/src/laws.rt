// Laws of evaluation, each the contract of a function that does nothing.

ghost use Rattle.pz_eval_rules.specs.Laws.{EachHasAnOutcome, HasOneOutcome, MoreFindsTheSame, EachListHasAnOutcome, ListHasOneOutcome, MoreFindsTheSameList, SoundDataIsTimeless, UnclockedIsTimeless, UnclockedListIsTimeless};
ghost use Rattle.pz_eval_rules.specs.devices.Laws.{ComputedIsFound, ComputedListIsFound, TurnsGoOn, UnclockedIsComputedTheSame, UnclockedListIsComputedTheSame};

/// Each evaluation has an outcome and a state afterwards.
pub fn each_evaluation_has_an_outcome()
    ensures law { EachHasAnOutcome }
{}

/// No evaluation has two outcomes, or two states afterwards.
pub fn evaluation_has_one_outcome()
    ensures law { HasOneOutcome }
{}

/// A greater allowance finds the same, unless the smaller one was spent.
pub fn more_allowance_finds_the_same()
    ensures law { MoreFindsTheSame }
{}

/// Each evaluation of a list has an outcome and a state afterwards.
pub fn each_list_has_an_outcome()
    ensures law { EachListHasAnOutcome }
{}

/// No evaluation of a list has two outcomes, or two states afterwards.
pub fn list_has_one_outcome()
    ensures law { ListHasOneOutcome }
{}

/// A greater allowance finds the same of a list, unless the smaller one was spent.
pub fn more_allowance_finds_the_same_list()
    ensures law { MoreFindsTheSameList }
{}

/// What is computed is found, of an expression and of a list.
pub fn computed_is_found()
    ensures value { ComputedIsFound }
    ensures list { ComputedListIsFound }
{}

/// A turn of a `while`, and then those after it, are computed.
pub fn turns_go_on()
    ensures law { TurnsGoOn }
{}

/// In a sound model no data method names the clock, and what does not name the clock comes to the same
/// at each clock, an expression and a list alike; and is computed to the same.
pub fn unclocked_is_timeless()
    ensures methods { SoundDataIsTimeless }
    ensures value { UnclockedIsTimeless }
    ensures list { UnclockedListIsTimeless }
    ensures computed { UnclockedIsComputedTheSame }
    ensures computed_list { UnclockedListIsComputedTheSame }
{
    pz_classes_rules::laws::sound_bodies_fit();
}
