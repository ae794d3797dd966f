// What is decided at a moment. Takes no memory.

ghost use Rattle.std.specs.Prelude.{◌≡◌, ◌≢◌, ◌≤◌, ◌<◌, ◌+◌, ℕ, Option, true};
ghost use Rattle.pz_choice.specs.Resolvers.{Resolver, choice, left_over};
ghost use Rattle.pz_choice.specs.Choosers.{Stands};
ghost use Rattle.pz_rules.specs.ChosenRuns as chosen_runs;
ghost use Rattle.pz_watch_points.specs.pz_trace.TraceText.{run_ending};
ghost use Rattle.pz_run_playing.specs.Policies.{policy_of};
ghost use Rattle.pz_run_playing.specs.Endings.{ending_of};
ghost use Rattle.pz_run_playing.specs.devices.Deciding.{decision_of, IfTake, MayTake};

use crate::Finale;
use pz_choice::Chooser;
use pz_term_simulator::Moment;
use pz_watch_points::pz_trace::Ending;
use pz_words::RunLimits;

/// What is decided at a moment at which no time passes.
#[derive(Clone, Copy)]
pub(crate) enum Decision {
    /// The run ends so.
    Stop(Finale),
    /// Of so many offers the one of this number, from 0, is taken.
    Take { offers: u64, number: u64 },
}

/// Whether so much time from a clock on leads beyond the bound, all in clock units.
pub(crate) fn is_beyond(until: Option<u64>, clock: u128, time: u128) -> bool
    ensures { result ≡ chosen_runs.is_beyond until clock time }
{
    let Some(bound) = until else {
        return false;
    };
    match clock.checked_add(time) {
        Some(after) => u128::from(bound) < after,
        None => true,
    }
}

// How a run ends that ends by itself: an entry may be left over.
fn end_of(ending: Ending, chooser: &Chooser) -> Finale
    ensures { (r : Resolver) (chosen : ℕ) → Stands chooser.now r chosen →
        chosen_runs.stops_with (ending_of result) ≡ chosen_runs.used_up (run_ending ending)
        (left_over r chosen) }
{
    match chooser.ahead() {
        None => Finale::Ended(ending),
        Some(entry) => Finale::Refused { entry, offers: 0 },
    }
}

// There may be no further entry, or one that is no offer.
fn choose(offers: u64, chooser: &mut Chooser) -> Decision
    requires { 1 ≤ offers }
    ensures decided { (r : Resolver) (chosen : ℕ) → Stands chooser.old r chosen →
        decision_of result ≡ chosen_runs.entry_of offers (choice r chosen offers) }
    ensures goes_on { (r : Resolver) (chosen : ℕ) → Stands chooser.old r chosen →
        Stands chooser.new r (chosen + 1) }
    ensures takes { IfTake result (λ n k. (n ≡ offers) × (k < offers)) }
{
    match chooser.next(offers) {
        None => Decision::Stop(Finale::Ended(Ending::Stop)),
        Some(number) => {
            if number < offers {
                Decision::Take { offers, number }
            } else {
                Decision::Stop(Finale::Refused {
                    entry: number,
                    offers,
                })
            }
        }
    }
}

// The decision where there are offers.
fn decide_action(offers: u64, chooser: &mut Chooser, limits: RunLimits, chosen: u64) -> Decision
    requires { 1 ≤ offers }
    ensures decided { (r : Resolver) (clock : ℕ) → Stands chooser.old r chosen →
        chosen_runs.decided (policy_of r limits) chosen clock (Moment.Actions offers) ≡
        decision_of result }
    ensures goes_on { IfTake result (λ n k. (r : Resolver) → Stands chooser.old r chosen →
        Stands chooser.new r (chosen + 1)) }
    ensures takes { IfTake result (λ n k. MayTake (Moment.Actions offers) limits.steps chosen n k) }
{
    if limits.steps <= chosen {
        return Decision::Stop(Finale::Ended(Ending::Stop));
    }
    choose(offers, chooser)
}

/// What is decided at a moment, once so many actions were chosen. Time does not pass any more: where it
/// could, that would lead beyond the bound.
pub(crate) fn decide(
    moment: Moment,
    chooser: &mut Chooser,
    limits: RunLimits,
    chosen: u64,
) -> Decision
    requires known { moment ≢ Moment.Broken }
    requires some { (n : ℕ) → moment ≡ Moment.Actions n → 1 ≤ n }
    ensures decided { (r : Resolver) (clock : ℕ) → Stands chooser.old r chosen →
        ((d : ℕ) → moment ≡ Moment.Time d → chosen_runs.is_beyond limits.until clock d ≡ true) →
        chosen_runs.decided (policy_of r limits) chosen clock moment ≡ decision_of result }
    ensures goes_on { IfTake result (λ n k. (r : Resolver) → Stands chooser.old r chosen →
        Stands chooser.new r (chosen + 1)) }
    ensures takes { IfTake result (λ n k. MayTake moment limits.steps chosen n k) }
{
    match moment {
        Moment::Actions(offers) => decide_action(offers, chooser, limits, chosen),
        Moment::Time(_) => Decision::Stop(Finale::Ended(Ending::Stop)),
        Moment::Finished => Decision::Stop(end_of(Ending::End, chooser)),
        Moment::Deadlock => Decision::Stop(end_of(Ending::Deadlock, chooser)),
        Moment::Faulty(trouble) => Decision::Stop(Finale::Ended(Ending::Trouble(trouble))),
        Moment::Stopped(trouble) => Decision::Stop(Finale::Ended(Ending::Trouble(trouble))),
        Moment::Broken => unreachable!(),
    }
}
