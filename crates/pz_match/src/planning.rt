// Which offers of a process stay in their groups: the first and the last, where the new ones have the same
// marks.

ghost use Rattle.std.specs.Prelude.{◌≡◌, ◌<◌, ◌≤◌, ◌-◌, ◌++◌, ℕ, None, length, map, replicate, take, drop, All, IfOk, IfSome, OnOk};
ghost use Rattle.pz_match.specs.devices.Again.{Beside, SameReceive, SameSend};
ghost use Rattle.pz_match.specs.devices.Holding.{ReceiveKeyed, SendKeyed};
ghost use Rattle.pz_match.specs.devices.Staying.{MayReceive, MaySend, receive_stay, send_stay, stay_part, stays_part};
ghost use Rattle.pz_match.specs.devices.Tallies.{Follows, GroupsView, HasKey, Moves, SameTallies, only_in, receives_part, sends_part};

use crate::again::{is_same_receive, is_same_send};
use crate::groups::{Groups, NOTHING};
use crate::kept::{Receiving, Sending, Stay};
use crate::tallying::{receive_tally, send_tally, withdraw_receives, withdraw_sends};
use pz_offer::{ReceiveOffer, SendOffer};
use pz_syntax::Name;
use std::alloc::{AllocError, Global};

/// Of each new offer of a process, what it counts already, if it stays.
#[derive(Drop)]
pub(crate) struct Plan {
    pub(crate) sends: Vec<Option<Stay>>,
    pub(crate) receives: Vec<Option<Stay>>,
}

impl Plan {
    /// Of no offers. Takes no memory.
    pub(crate) fn new(alloc: Global) -> Plan {
        Plan {
            sends: Vec::new(alloc),
            receives: Vec::new(alloc),
        }
    }
}

/// How many of the first sends have the marks of these.
fn sends_in_front(sends: &[Sending], offers: &[SendOffer]) -> usize
    ensures within { result ≤ length sends.now }
    ensures within_offers { result ≤ length offers.now }
    ensures same { Beside SameSend (take result sends.now) (take result offers.now) }
{
    let most = sends.len().min(offers.len());
    for at in 0..most {
        if !is_same_send(&sends[at], &offers[at]) {
            return at;
        }
    }
    most
}

/// How many of the last sends have the marks of these.
fn sends_behind(sends: &[Sending], offers: &[SendOffer]) -> usize
    ensures within { result ≤ length sends.now }
    ensures within_offers { result ≤ length offers.now }
    ensures same { Beside SameSend (drop (length sends.now - result) sends.now)
        (drop (length offers.now - result) offers.now) }
{
    let most = sends.len().min(offers.len());
    for back in 0..most {
        let send = &sends[sends.len() - back - 1];
        let offer = &offers[offers.len() - back - 1];
        if !is_same_send(send, offer) {
            return back;
        }
    }
    most
}

/// How many of the first receives have the marks of these.
fn receives_in_front(receives: &[Receiving], offers: &[ReceiveOffer]) -> usize
    ensures within { result ≤ length receives.now }
    ensures within_offers { result ≤ length offers.now }
    ensures same { Beside SameReceive (take result receives.now) (take result offers.now) }
{
    let most = receives.len().min(offers.len());
    for at in 0..most {
        if !is_same_receive(&receives[at], &offers[at]) {
            return at;
        }
    }
    most
}

/// How many of the last receives have the marks of these.
fn receives_behind(receives: &[Receiving], offers: &[ReceiveOffer]) -> usize
    ensures within { result ≤ length receives.now }
    ensures within_offers { result ≤ length offers.now }
    ensures same { Beside SameReceive (drop (length receives.now - result) receives.now)
        (drop (length offers.now - result) offers.now) }
{
    let most = receives.len().min(offers.len());
    for back in 0..most {
        let receive = &receives[receives.len() - back - 1];
        let offer = &offers[offers.len() - back - 1];
        if !is_same_receive(receive, offer) {
            return back;
        }
    }
    most
}

/// So many offers that come. The only error is want of memory.
fn plan_others(plan: &mut Vec<Option<Stay>>, count: usize) -> Result<(), AllocError>
    ensures { OnOk result (plan.new.items ≡ plan.old.items ++ replicate count None) }
{
    for _ in 0..count {
        plan.push(None)?;
    }
    Ok(())
}

/// These sends, of a process with these receives, stay. The only error is want of memory.
fn plan_sends(
    plan: &mut Vec<Option<Stay>>,
    sends: &[Sending],
    receives: &[Receiving],
) -> Result<(), AllocError>
    ensures { OnOk result (plan.new.items ≡ plan.old.items ++ map (send_stay receives.now)
        sends.now) }
{
    for send in sends {
        let tally = send_tally(send.group, send.rows.as_slice(), receives);
        plan.push(Some(Stay {
            group: send.group,
            tally,
        }))?;
    }
    Ok(())
}

/// These receives stay. The only error is want of memory.
fn plan_receives(plan: &mut Vec<Option<Stay>>, receives: &[Receiving]) -> Result<(), AllocError>
    ensures { OnOk result (plan.new.items ≡ plan.old.items ++ map receive_stay receives.now) }
{
    for receive in receives {
        plan.push(Some(Stay {
            group: receive.group,
            tally: receive_tally(receive.receiver.conditional),
        }))?;
    }
    Ok(())
}

/// The sends of a process with these receives are gone, but for those that stay as others come. The only
/// error is want of memory.
pub(crate) fn part_sends(
    groups: &mut Groups,
    plan: &mut Vec<Option<Stay>>,
    sends: &[Sending],
    receives: &[Receiving],
    offers: &[SendOffer],
) -> Result<(), AllocError>
    requires { All (λ s. s.group < length groups.old.groups) sends.now }
    ensures follows { OnOk result (Follows groups.old groups.new) }
    ensures moves { OnOk result (Moves groups.old groups.new
        (sends_part receives.now sends.now) (stays_part plan.new.items)) }
    ensures count { OnOk result (length groups.new.groups ≡ length groups.old.groups) }
    ensures may { OnOk result ((g : GroupsView) → All (SendKeyed g) sends.now →
        Beside (MaySend g) plan.new.items offers.now) }
{
    plan.clear();
    let front = sends_in_front(sends, offers);
    let (first, rest) = sends.split_at(front);
    let (_, others) = offers.split_at(front);
    let back = sends_behind(rest, others);
    let (gone, last) = rest.split_at(rest.len() - back);
    plan_sends(plan, first, receives)?;
    plan_others(plan, others.len() - back)?;
    plan_sends(plan, last, receives)?;
    withdraw_sends(groups, gone, receives)?;
    Ok(())
}

/// Receives are gone, but for those that stay as others come. The only error is want of memory.
pub(crate) fn part_receives(
    groups: &mut Groups,
    plan: &mut Vec<Option<Stay>>,
    receives: &[Receiving],
    offers: &[ReceiveOffer],
) -> Result<(), AllocError>
    requires { All (λ r. r.group < length groups.old.groups) receives.now }
    ensures follows { OnOk result (Follows groups.old groups.new) }
    ensures moves { OnOk result (Moves groups.old groups.new (receives_part receives.now)
        (stays_part plan.new.items)) }
    ensures count { OnOk result (length groups.new.groups ≡ length groups.old.groups) }
    ensures may { OnOk result ((g : GroupsView) → All (ReceiveKeyed g) receives.now →
        Beside (MayReceive g) plan.new.items offers.now) }
{
    plan.clear();
    let front = receives_in_front(receives, offers);
    let (first, rest) = receives.split_at(front);
    let (_, others) = offers.split_at(front);
    let back = receives_behind(rest, others);
    let (gone, last) = rest.split_at(rest.len() - back);
    plan_receives(plan, first)?;
    plan_others(plan, others.len() - back)?;
    plan_receives(plan, last)?;
    withdraw_receives(groups, gone)?;
    Ok(())
}

/// What an offer with these marks counts already, and in which group: the one where it stays, else nothing
/// in the one with its marks, which is made if it is not there. The only error is want of memory.
pub(crate) fn seat(
    groups: &mut Groups,
    stay: Option<Stay>,
    wire: u32,
    message: &Name,
    count: usize,
) -> Result<Stay, AllocError>
    requires { IfSome stay (λ s. HasKey groups.old.groups s.group wire message.now count) }
    ensures found { IfOk result (λ s. HasKey groups.new.groups s.group wire message.now count) }
    ensures counts { IfOk result (λ s. (g : ℕ) → only_in s.group s.tally g ≡ stay_part stay g) }
    ensures follows { OnOk result (Follows groups.old groups.new) }
    ensures tallies { OnOk result (SameTallies groups.old groups.new) }
{
    match stay {
        Some(stay) => Ok(stay),
        None => {
            let group = groups.number(wire, message, count)?;
            Ok(Stay {
                group,
                tally: NOTHING,
            })
        }
    }
}
