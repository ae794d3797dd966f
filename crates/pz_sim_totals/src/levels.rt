// The cells of a list of totals: the totals, behind them the sums of neighbours, up to one.

ghost use Rattle.std.specs.Prelude.{◌≡◌, ℕ, ◌<◌, ◌/◌, ◌++◌, length, take, replicate, slice_index_or, slice_set, OnOk, OnErr, MatchOption};
ghost use Rattle.pz_sim_totals.specs.Sums.{none, all, AreNumbers, IsAction};
ghost use Rattle.pz_sim_totals.specs.devices.Levels.{pairs, levels, AreLevels};

use crate::{Found, Total};
use std::alloc::AllocError;

/// Adds the cells of so many totals of nothing. The only error is want of memory.
pub fn grow(cells: &mut Vec<Total>, len: usize) -> Result<(), AllocError>
    ensures { OnOk result (cells.new.items ≡ cells.old.items ++ levels len (replicate len none)) }
{
    let room = cells.len().checked_add(len).ok_or(AllocError)?;
    cells.resize(room, Total::none())?;
    if len > 1 {
        grow(cells, len - len / 2)?;
    }
    Ok(())
}

/// Puts another total in place of one, and mends the sums over it. The only error is that a sum
/// would be 2^64 or more, and then nothing changes.
pub fn set_in(cells: &mut [Total], len: usize, place: usize, total: Total) -> Result<(), AllocError>
    requires levels { AreLevels len cells.old }
    requires place { place < len }
    ensures ok { OnOk result (cells.new ≡ levels len (slice_set (take len cells.old) place total)) }
    ensures err { OnErr result (cells.new ≡ cells.old) }
    ensures only { OnErr result
        (AreNumbers (all (slice_set (take len cells.old) place total)) → ⊥) }
{
    let (here, above) = cells.split_at_mut(len);
    if len > 1 {
        let sum = sum_with(here, place, total).ok_or(AllocError)?;
        set_in(above, len - len / 2, place / 2, sum)?;
    }
    here[place] = total;
    Ok(())
}

/// The sum of a total and its neighbour once another stands in its place; none where a sum would be
/// 2^64 or more.
fn sum_with(here: &[Total], place: usize, total: Total) -> Option<Total>
    requires { place < length here.now }
    ensures { MatchOption result (AreNumbers (all (slice_set here.now place total)) → ⊥)
        (λ sum. sum ≡ slice_index_or (pairs (slice_set here.now place total)) (place / 2) none) }
{
    if place % 2 == 1 {
        return here[place - 1].both(&total);
    }
    match here.get(place + 1) {
        Some(right) => total.both(right),
        None => Some(total),
    }
}

/// The place of an internal action of all.
pub fn find_in(cells: &[Total], len: usize, action: u64) -> Found
    requires levels { AreLevels len cells.now }
    requires action { action < (all (take len cells.now)).summary.internal }
    ensures { IsAction (take len cells.now) action result }
{
    if len <= 1 {
        return Found {
            process: 0,
            number: action,
        };
    }
    let (here, above) = cells.split_at(len);
    let pair = find_in(above, len - len / 2, action);
    left_or_right(here, pair)
}

/// An action of a sum of neighbours is one of the left or of the right one.
fn left_or_right(here: &[Total], pair: Found) -> Found
    requires process { pair.process < length (pairs here.now) }
    requires number { pair.number
        < (slice_index_or (pairs here.now) pair.process none).summary.internal }
    ensures { (k : ℕ) → IsAction (pairs here.now) k pair → IsAction here.now k result }
{
    let left = 2 * pair.process;
    let before = here[left].summary.internal;
    if pair.number < before {
        Found {
            process: left,
            number: pair.number,
        }
    } else {
        Found {
            process: left + 1,
            number: pair.number - before,
        }
    }
}
