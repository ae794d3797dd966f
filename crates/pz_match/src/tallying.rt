// How offers that come and go change the tallies of their groups.

ghost use Rattle.std.specs.Prelude.{◌≡◌, ◌<◌, length, count_by, All, OnOk};
ghost use Rattle.pz_match.specs.devices.Kept.{free_in};
ghost use Rattle.pz_match.specs.devices.Tallies.{Follows, Moves, nothing, only_in, send_tally, sends_part, receives_part, receive_tally};
ghost use Rattle.pz_match.specs.devices.Seeking.{wants};

use crate::groups::{Groups, NOTHING, Sort, Tally};
use crate::kept::{Receiving, Sending, Stay};
use crate::rows::Row;
use std::alloc::AllocError;

/// How many of these receives are in a group and have no condition.
pub(crate) fn free_in(receives: &[Receiving], group: usize) -> usize
    ensures { result ≡ count_by (free_in group) receives.now }
{
    receives
        .iter()
        .filter(|receive| receive.group == group && !receive.receiver.conditional)
        .count()
}

/// How many of these are of the sort.
pub(crate) fn said(sort: Sort, rows: &[Row]) -> usize
    ensures { result ≡ count_by (λ r. wants sort r.verdict) rows.now }
{
    rows.iter().filter(|row| sort.has(row.verdict)).count()
}

/// What a send with these rows adds to its group, in a process with these receives.
pub(crate) fn send_tally(group: usize, rows: &[Row], receives: &[Receiving]) -> Tally
    ensures { result ≡ send_tally receives.now group rows.now }
{
    Tally {
        sends: 1,
        own: free_in(receives, group) as u64,
        yes: said(Sort::Taken, rows) as u64,
        troubles: said(Sort::Troubled, rows) as u64,
        ..NOTHING
    }
}

/// A group loses the one and gains the other. The only error is want of memory, also where a number
/// would be 2^64 or more.
pub(crate) fn adjust(
    groups: &mut Groups,
    number: usize,
    less: Tally,
    more: Tally,
) -> Result<(), AllocError>
    requires { number < length groups.old.groups }
    ensures follows { OnOk result (Follows groups.old groups.new) }
    ensures moves { OnOk result (Moves groups.old groups.new (only_in number less)
        (only_in number more)) }
    ensures count { OnOk result (length groups.new.groups ≡ length groups.old.groups) }
{
    if less == more {
        return Ok(());
    }
    let Some(both) = groups.tally(number).plus(more) else {
        return Err(AllocError);
    };
    let Some(tally) = both.minus(less) else {
        return Err(AllocError);
    };
    groups.change(number, tally)
}

/// The sends of a process with these receives are gone. The only error is want of memory.
pub(crate) fn withdraw_sends(
    groups: &mut Groups,
    sends: &[Sending],
    receives: &[Receiving],
) -> Result<(), AllocError>
    requires { All (λ s. s.group < length groups.old.groups) sends.now }
    ensures follows { OnOk result (Follows groups.old groups.new) }
    ensures moves { OnOk result (Moves groups.old groups.new
        (sends_part receives.now sends.now) nothing) }
    ensures count { OnOk result (length groups.new.groups ≡ length groups.old.groups) }
{
    for send in sends {
        let tally = send_tally(send.group, send.rows.as_slice(), receives);
        adjust(groups, send.group, tally, NOTHING)?;
    }
    Ok(())
}

/// What a receive adds to its group.
pub(crate) fn receive_tally(conditional: bool) -> Tally
    ensures { result ≡ receive_tally conditional }
{
    if conditional {
        Tally {
            asking: 1,
            ..NOTHING
        }
    } else {
        Tally { free: 1, ..NOTHING }
    }
}

/// Receives are gone. The only error is want of memory.
pub(crate) fn withdraw_receives(
    groups: &mut Groups,
    receives: &[Receiving],
) -> Result<(), AllocError>
    requires { All (λ r. r.group < length groups.old.groups) receives.now }
    ensures follows { OnOk result (Follows groups.old groups.new) }
    ensures moves { OnOk result (Moves groups.old groups.new (receives_part receives.now) nothing) }
    ensures count { OnOk result (length groups.new.groups ≡ length groups.old.groups) }
{
    for receive in receives {
        let tally = receive_tally(receive.receiver.conditional);
        adjust(groups, receive.group, tally, NOTHING)?;
    }
    Ok(())
}

/// A receive, with a condition or without, in place of what it counts already. The only error is want of
/// memory.
pub(crate) fn add_receive(
    groups: &mut Groups,
    seat: Stay,
    conditional: bool,
) -> Result<(), AllocError>
    requires { seat.group < length groups.old.groups }
    ensures follows { OnOk result (Follows groups.old groups.new) }
    ensures moves { OnOk result (Moves groups.old groups.new (only_in seat.group seat.tally)
        (only_in seat.group (receive_tally conditional))) }
{
    adjust(groups, seat.group, seat.tally, receive_tally(conditional))
}

/// A send, with these rows, of a process with these receives, in place of what it counts already. The only
/// error is want of memory.
pub(crate) fn add_send(
    groups: &mut Groups,
    seat: Stay,
    rows: &[Row],
    receives: &[Receiving],
) -> Result<(), AllocError>
    requires { seat.group < length groups.old.groups }
    ensures follows { OnOk result (Follows groups.old groups.new) }
    ensures moves { OnOk result (Moves groups.old groups.new (only_in seat.group seat.tally)
        (only_in seat.group (send_tally receives.now seat.group rows.now))) }
{
    let tally = send_tally(seat.group, rows, receives);
    adjust(groups, seat.group, seat.tally, tally)
}
