ghost use Rattle.pz_choice.specs.Choosers.{Stands};
ghost use Rattle.pz_run_playing.specs.Policies.{resolver_of};

use pz_choice::Chooser;
use pz_words::Choice;

/// Who chooses as a command line asks for, before the first choice. Takes no memory.
pub(crate) fn chooser_of(choice: Choice) -> Chooser
    ensures { Stands result (resolver_of choice) 0 }
{
    match choice {
        Choice::First => Chooser::first(),
        Choice::Seed(seed) => Chooser::seed(seed),
        Choice::List(entries) => Chooser::list(entries.into_vec()),
    }
}
