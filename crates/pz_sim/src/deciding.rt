// The moment, from what each process can do in short and the pairs.

ghost use Rattle.std.specs.Prelude.{◌≡◌, false, IfOk};
ghost use Rattle.pz_sim_totals.specs.Sums.{all};
ghost use Rattle.pz_sim_laws.specs.Deciding.{calm, decided};

use pz_match::Pairs;
use pz_rules::Moment;
use pz_sim_totals::Totals;
use std::alloc::AllocError;

// Where nothing has a trouble: of so many offers, when the first delay is over, and how many processes are not
// done.
fn calm_moment(clock: u128, offers: u64, due: Option<u128>, unfinished: u64) -> Moment
    ensures { result ≡ calm clock offers due unfinished }
{
    if offers > 0 {
        return Moment::Actions(offers);
    }
    match due {
        Some(due) => Moment::Time(due.saturating_sub(clock)),
        None => {
            if unfinished == 0 {
                Moment::Finished
            } else {
                Moment::Deadlock
            }
        }
    }
}

/// What may happen next. The only error is that there are more offers than can be counted, which is taken for
/// want of memory.
pub(crate) fn decide(clock: u128, totals: &Totals, pairs: &Pairs) -> Result<Moment, AllocError>
    requires { pairs.now.lost ≡ false }
    ensures { IfOk result (λ moment. moment ≡ decided clock (all totals.now) pairs.now.pairs) }
{
    let total = totals.all();
    if let Some(trouble) = total.summary.trouble {
        return Ok(Moment::Faulty(trouble));
    }
    if let Some(trouble) = pairs.trouble() {
        return Ok(Moment::Faulty(trouble));
    }
    let Some(offers) = total.summary.internal.checked_add(pairs.count()) else {
        return Err(AllocError);
    };
    Ok(calm_moment(clock, offers, total.summary.due, total.unfinished))
}
