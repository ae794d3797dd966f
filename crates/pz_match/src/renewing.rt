// What the sends of other processes hear once a process has other receives.

ghost use Rattle.std.specs.Prelude.{◌≡◌, ◌<◌, ◌+◌, ℕ, List, length, map, sum_by, All, OnOk};
ghost use Rattle.pz_match.specs.declared.kept.Receiving.{Receiving};
ghost use Rattle.pz_match.specs.Judging.{Stays};
ghost use Rattle.pz_match.specs.devices.Kept.{kept};
ghost use Rattle.pz_match.specs.devices.Tallies.{Follows, Moves, send_part, sends_part, part_of, total_of, yeses, troubled};
ghost use Rattle.pz_match.specs.devices.Asking.{asked, MayAsk, renewed};
ghost use Rattle.pz_match.specs.devices.Updating.{TouchesOnly, renewed_in};
ghost use Rattle.pz_match_lists.specs.Increasing.{Increasing};

use crate::asking::ask;
use crate::groups::{Groups, NOTHING, Sort, Tally};
use crate::judge::Judge;
use crate::kept::{Offers, Receiving, Sending};
use crate::rows::Row;
use crate::tallying::{adjust, said};
use std::alloc::AllocError;

/// What rows add to the group of their send.
fn rows_tally(rows: &[Row]) -> Tally
    ensures { result ≡ record {
      sends = 0;
      free = 0;
      own = 0;
      asking = 0;
      yes = yeses rows.now;
      troubles = troubled rows.now;
    } }
{
    Tally {
        yes: said(Sort::Taken, rows) as u64,
        troubles: said(Sort::Troubled, rows) as u64,
        ..NOTHING
    }
}

/// Asks the receives of a process for a send of another. The only error is want of memory.
fn renew<J: Judge>(
    groups: &mut Groups,
    send: &mut Sending,
    process: u32,
    receives: &[Receiving],
    judge: &mut J,
) -> Result<(), AllocError>
    requires group { send.old.group < length groups.old.groups }
    requires takes { All (MayAsk J.takes judge.old send.old.sender send.old.group) receives.now }
    ensures send { OnOk result (send.new ≡ renewed
        (J.verdict judge.old) process receives.now send.old) }
    ensures follows { OnOk result (Follows groups.old groups.new) }
    ensures moves { OnOk result ((rs : List Receiving) →
        Moves groups.old groups.new (send_part rs send.old) (send_part rs send.new)) }
    ensures count { OnOk result (length groups.new.groups ≡ length groups.old.groups) }
    ensures stays { OnOk result (Stays J.takes J.verdict J.lent judge.old judge.new) }
    ensures asked { OnOk result (J.asked judge.new ≡ J.asked judge.old + length
        (asked (J.verdict judge.old) send.old.sender send.old.group process receives.now)) }
    ensures lent { J.lent judge.new ≡ J.lent judge.old }
{
    let less = rows_tally(send.rows.as_slice());
    send.rows.forget(process);
    ask(
        &send.sender,
        send.group,
        process,
        receives,
        &mut send.rows,
        judge,
    )?;
    let more = rows_tally(send.rows.as_slice());
    adjust(groups, send.group, less, more)
}

/// Asks the receives of a process for all sends of another. The only error is want of memory.
fn renew_sends<J: Judge>(
    groups: &mut Groups,
    sends: &mut [Sending],
    process: u32,
    receives: &[Receiving],
    judge: &mut J,
) -> Result<(), AllocError>
    requires groups { All (λ s. s.group < length groups.old.groups) sends.old }
    requires takes { All (λ s. All (MayAsk J.takes judge.old s.sender s.group) receives.now)
        sends.old }
    ensures sends { OnOk result (sends.new ≡ map
        (renewed (J.verdict judge.old) process receives.now) sends.old) }
    ensures follows { OnOk result (Follows groups.old groups.new) }
    ensures moves { OnOk result ((rs : List Receiving) →
        Moves groups.old groups.new (sends_part rs sends.old) (sends_part rs sends.new)) }
    ensures count { OnOk result (length groups.new.groups ≡ length groups.old.groups) }
    ensures stays { OnOk result (Stays J.takes J.verdict J.lent judge.old judge.new) }
    ensures asked { OnOk result (J.asked judge.new ≡ J.asked judge.old + sum_by
        (λ s. length (asked (J.verdict judge.old) s.sender s.group process receives.now))
        sends.old) }
    ensures lent { J.lent judge.new ≡ J.lent judge.old }
{
    for place in 0..sends.len() {
        renew(groups, &mut sends[place], process, receives, judge)?;
    }
    Ok(())
}

/// Asks the receives of a process for what another offers. The only error is want of memory.
fn renew_offers<J: Judge>(
    groups: &mut Groups,
    offers: &mut Offers,
    process: u32,
    receives: &[Receiving],
    judge: &mut J,
) -> Result<(), AllocError>
    requires groups { All (λ s. s.group < length groups.old.groups) offers.old.sends.items }
    requires takes { All (λ s. All (MayAsk J.takes judge.old s.sender s.group) receives.now)
        offers.old.sends.items }
    ensures offers { OnOk result (kept offers.new ≡ renewed_in
        (J.verdict judge.old) process receives.now (kept offers.old)) }
    ensures follows { OnOk result (Follows groups.old groups.new) }
    ensures moves { OnOk result (Moves groups.old groups.new (part_of (kept offers.old))
        (part_of (kept offers.new))) }
    ensures count { OnOk result (length groups.new.groups ≡ length groups.old.groups) }
    ensures stays { OnOk result (Stays J.takes J.verdict J.lent judge.old judge.new) }
    ensures asked { OnOk result (J.asked judge.new ≡ J.asked judge.old + sum_by
        (λ s. length (asked (J.verdict judge.old) s.sender s.group process receives.now))
        offers.old.sends.items) }
    ensures lent { J.lent judge.new ≡ J.lent judge.old }
{
    let sends = offers.sends.as_mut_slice();
    renew_sends(groups, sends, process, receives, judge)?;
    Ok(())
}

/// Asks the receives of a process for the sends of all others, once it has none itself: only the
/// processes at these places have sends for which there is something new. The only error is want of
/// memory.
pub(crate) fn renew_all<J: Judge>(
    groups: &mut Groups,
    all: &mut [Offers],
    places: &[usize],
    process: u32,
    receives: &[Receiving],
    judge: &mut J,
) -> Result<(), AllocError>
    requires increasing { Increasing places.now }
    requires only { TouchesOnly places.now process receives.now (map kept all.old) }
    requires groups { All (λ e. All (λ s. s.group < length groups.old.groups) e.sends)
        (map kept all.old) }
    requires takes { All (λ e. All (λ s. All (MayAsk J.takes judge.old s.sender s.group)
        receives.now) e.sends) (map kept all.old) }
    ensures all { OnOk result (map kept all.new ≡ map
        (renewed_in (J.verdict judge.old) process receives.now) (map kept all.old)) }
    ensures follows { OnOk result (Follows groups.old groups.new) }
    ensures moves { OnOk result (Moves groups.old groups.new (total_of (map kept all.old))
        (total_of (map kept all.new))) }
    ensures stays { OnOk result (Stays J.takes J.verdict J.lent judge.old judge.new) }
    ensures asked { OnOk result (J.asked judge.new ≡ J.asked judge.old + sum_by
        (λ e. sum_by (λ s. length (asked (J.verdict judge.old) s.sender s.group process
        receives.now)) e.sends) (map kept all.old)) }
    ensures lent { J.lent judge.new ≡ J.lent judge.old }
{
    for at in 0..places.len() {
        let place = places[at];
        if place >= all.len() {
            continue;
        }
        renew_offers(groups, &mut all[place], process, receives, judge)?;
    }
    Ok(())
}
