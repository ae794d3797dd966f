// The k-th pair of one sort.

ghost use Rattle.std.specs.Prelude.{◌≡◌, ◌<◌, ◌≤◌, ◌+◌, None, length, sum_by, take, drop, map, slice_get, slice_index_or, IfOk, MatchOption, MatchResult};
ghost use Rattle.pz_match.specs.declared.kept.Sending.{Sending};
ghost use Rattle.pz_match.specs.declared.kept.Receiving.{Receiving};
ghost use Rattle.pz_match.specs.Pairs.{first_or, first_trouble, offered, taken};
ghost use Rattle.pz_match.specs.declared.rows.Row.{Row};
ghost use Rattle.pz_match.specs.devices.Kept.{kept, rows_at, answers, heard, pairs_of, pairs_on, all_pairs};
ghost use Rattle.pz_match.specs.devices.Holding.{Holds, Answered, SendKeyed};
ghost use Rattle.pz_match.specs.devices.Sharing.{Shared, AreOwn};
ghost use Rattle.pz_match.specs.devices.Seeking.{sought, number_of, number_on, IsAnswer, IsHit, IsSeat, IsTaker, IsCouple, IsSend, IsSendAt, IsReceive, IsReceiveAt, OnlyAt};
ghost use Rattle.pz_match.specs.devices.Users.{AreUsers, HaveUsers, AreBlocks, HaveBlocks};
ghost use Rattle.pz_match_lists.specs.Increasing.{Increasing};

use crate::groups::{Groups, Sort};
use crate::kept::{Offers, Receiving, Sending};
use crate::offers::Sender;
use crate::places::{Couple, Hit, Seat, Taker};
use crate::rows::Row;
use crate::skipping::{skip_receivers, skip_senders};
use crate::tallying::{free_in, said};
use crate::users::Users;
use pz_match_lists::{Shares, below};
use pz_offer::{End, Trouble, Verdict};
use std::alloc::AllocError;

/// How many pairs of a send are of the sort, in a process with these receives.
fn number_of(sort: Sort, groups: &Groups, receives: &[Receiving], send: &Sending) -> u128
    ensures { result ≡ number_of sort groups.now.groups receives.now send.now }
{
    let rows = send.rows.as_slice();
    match sort {
        Sort::Taken => {
            let own = free_in(receives, send.group) as u64;
            let free = groups.tally(send.group).free.saturating_sub(own);
            u128::from(free) + said(sort, rows) as u128
        }
        Sort::Troubled => said(sort, rows) as u128,
    }
}

/// The send of a process, among those on a wire, with the pair of this number; else what of the number
/// is left behind them.
fn find_send(
    sort: Sort,
    groups: &Groups,
    offers: &Offers,
    wire: usize,
    number: u64,
) -> Result<Seat, u64>
    ensures { MatchResult result (IsSeat (number_on sort groups.now.groups wire
        offers.now.receives.items) offers.now.sends.items number)
        (λ left. sum_by (number_on sort groups.now.groups wire offers.now.receives.items)
        offers.now.sends.items + left ≡ number) }
{
    let receives = offers.receives.as_slice();
    let sends = offers.sends.as_slice();
    let mut rest = number;
    for (place, send) in sends.iter().enumerate() {
        if send.sender.wire as usize != wire {
            continue;
        }
        let pairs = number_of(sort, groups, receives, send);
        if u128::from(rest) < pairs {
            return Ok(Seat { place, rest });
        }
        rest -= pairs as u64;
    }
    Err(rest)
}

/// The place, from this one on, of the first row of a process; that behind the end, if there is none.
fn next_row(rows: &[Row], from: usize, process: u32) -> usize
    requires { from ≤ length rows.now }
    ensures within { result ≤ length rows.now }
    ensures same { rows_at process (drop from rows.now) ≡ rows_at process (drop result rows.now) }
    ensures here { result < length rows.now → (d : Row) →
        (slice_index_or rows.now result d).process ≡ process }
{
    for place in from..rows.len() {
        if rows[place].process == process {
            return place;
        }
    }
    rows.len()
}

/// What a receive says, if the rows of its process go on from a place, and where they go on behind it.
fn answer(receive: &Receiving, rows: &[Row], from: usize, process: u32) -> (Verdict, usize)
    requires { from ≤ length rows.now }
    ensures within { result.1 ≤ length rows.now }
    ensures answer { IsAnswer receive.now.receiver.conditional
        (rows_at process (drop from rows.now)) result.0 (rows_at process (drop result.1 rows.now)) }
{
    if !receive.receiver.conditional {
        return (Verdict::Yes, from);
    }
    let place = next_row(rows, from, process);
    if place < rows.len() {
        (rows[place].verdict, place + 1)
    } else {
        (Verdict::No, place)
    }
}

/// The receive of a process with the pair of this number of a send; else what of the number is left.
fn find_in(sort: Sort, send: &Sending, offers: &Offers, number: u64) -> Result<Hit, u64>
    ensures { MatchResult result (IsHit sort send.now offers.now.receives.items
        (rows_at offers.now.process send.now.rows) number)
        (λ left. length (sought sort (answers send.now.sender send.now.group
        (rows_at offers.now.process send.now.rows) offers.now.receives.items)) + left ≡ number) }
{
    let rows = send.rows.as_slice();
    let receives = offers.receives.as_slice();
    let mut from = 0;
    let mut rest = number;
    for (place, receive) in receives.iter().enumerate() {
        if receive.group != send.group {
            continue;
        }
        let (verdict, next) = answer(receive, rows, from, offers.process);
        from = next;
        if !sort.has(verdict) {
            continue;
        }
        if rest == 0 {
            return Ok(Hit { place, verdict });
        }
        rest -= 1;
    }
    Err(rest)
}

/// The receive with the pair of this number of a send, among those of these processes, if so much is left
/// of the number at that place.
fn find_taker(
    sort: Sort,
    all: &[Offers],
    users: &[usize],
    send: &Sending,
    number: u64,
    start: Seat,
) -> Option<Taker>
    requires start { sum_by (λ e. length (sought sort (heard send.now e))) (take start.place
        (map kept all.now)) + start.rest ≡ number }
    requires increasing { Increasing users.now }
    requires only { OnlyAt users.now (map kept all.now) (λ e. length (sought sort
        (heard send.now e))) }
    ensures { MatchOption result (length (sought sort (pairs_of (map kept all.now) send.now)) ≤
        number) (IsTaker sort (map kept all.now) send.now number) }
{
    let mut rest = start.rest;
    for at in below(users, start.place)..users.len() {
        let process = users[at];
        if process >= all.len() {
            continue;
        }
        let offers = &all[process];
        if offers.process == send.sender.end.process {
            continue;
        }
        match find_in(sort, send, offers, rest) {
            Ok(hit) => return Some(Taker { process, hit }),
            Err(left) => rest = left,
        }
    }
    None
}

/// The pair with this number of a send that stands at this place, in a process with these receives, with
/// receives of these processes, which are in these blocks.
fn couple(
    sort: Sort,
    groups: &Groups,
    all: &[Offers],
    shares: &Shares,
    users: &[usize],
    blocks: &[usize],
    sender: (usize, usize),
    send: &Sending,
    receives: &[Receiving],
    number: u64,
) -> Option<Couple>
    requires holds { Holds groups.now (map kept all.now) }
    requires shared { Shared shares.now (map kept all.now) }
    requires blocks_increasing { Increasing blocks.now }
    requires blocks { AreBlocks blocks.now (map kept all.now) send.now.sender.wire }
    requires keyed { SendKeyed groups.now send.now }
    requires answered { Answered (map kept all.now) send.now }
    requires own { AreOwn (map kept all.now) send.now.sender.end.process receives.now }
    requires increasing { Increasing users.now }
    requires only { OnlyAt users.now (map kept all.now) (λ e. length (sought sort
        (heard send.now e))) }
    ensures { MatchOption result (length (sought sort (pairs_of (map kept all.now) send.now)) ≤
        number) (λ c. (c.sender ≡ sender) × IsTaker sort (map kept all.now) send.now number
        (record {
          process = c.receiver.0;
          hit = record { place = c.receiver.1; verdict = c.verdict };
        })) }
{
    let start = skip_receivers(sort, groups, all, shares, blocks, send, receives, number);
    match find_taker(sort, all, users, send, number, start) {
        Some(taker) => Some(Couple {
            sender,
            receiver: (taker.process, taker.hit.place),
            verdict: taker.hit.verdict,
        }),
        None => None,
    }
}

/// The pair with this number of those of the sort on a wire, over which these processes send and those
/// receive, which are in these blocks.
fn find_on(
    sort: Sort,
    groups: &Groups,
    all: &[Offers],
    shares: &Shares,
    senders: &[usize],
    receivers: &[usize],
    blocks: &[usize],
    wire: usize,
    number: u64,
) -> Option<Couple>
    requires holds { Holds groups.now (map kept all.now) }
    requires shared { Shared shares.now (map kept all.now) }
    requires increasing { Increasing blocks.now }
    requires blocks { AreBlocks blocks.now (map kept all.now) wire }
    requires senders { Increasing senders.now }
    requires receivers { Increasing receivers.now }
    requires users { AreUsers senders.now receivers.now (map kept all.now) wire }
    ensures { MatchOption result (length (sought sort (pairs_on (map kept all.now) wire)) ≤ number)
        (IsCouple (sought sort (pairs_on (map kept all.now) wire)) (map kept all.now) number) }
{
    let start = skip_senders(sort, groups, all, shares, blocks, wire, number);
    let mut rest = start.rest;
    for at in below(senders, start.place)..senders.len() {
        let process = senders[at];
        if process >= all.len() {
            continue;
        }
        let offers = &all[process];
        match find_send(sort, groups, offers, wire, rest) {
            Ok(seat) => {
                let sends = offers.sends.as_slice();
                let send = &sends[seat.place];
                let sender = (process, seat.place);
                let receives = offers.receives.as_slice();
                return couple(
                    sort, groups, all, shares, receivers, blocks, sender, send, receives, seat.rest,
                );
            }
            Err(left) => rest = left,
        }
    }
    None
}

/// The trouble of a verdict.
fn trouble_of(verdict: Verdict) -> Option<Trouble>
    ensures { result ≡ first_or verdict None }
{
    match verdict {
        Verdict::Trouble(trouble) => Some(trouble),
        Verdict::Yes | Verdict::No => None,
    }
}

/// The first trouble of a condition on a wire, over which these processes send and those receive, which are
/// in these blocks, in the order of the pairs.
fn trouble_on(
    groups: &Groups,
    all: &[Offers],
    shares: &Shares,
    senders: &[usize],
    receivers: &[usize],
    blocks: &[usize],
    wire: usize,
) -> Option<Trouble>
    requires holds { Holds groups.now (map kept all.now) }
    requires shared { Shared shares.now (map kept all.now) }
    requires increasing { Increasing blocks.now }
    requires blocks { AreBlocks blocks.now (map kept all.now) wire }
    requires senders { Increasing senders.now }
    requires receivers { Increasing receivers.now }
    requires users { AreUsers senders.now receivers.now (map kept all.now) wire }
    ensures { result ≡ first_trouble (pairs_on (map kept all.now) wire) }
{
    match find_on(
        Sort::Troubled,
        groups,
        all,
        shares,
        senders,
        receivers,
        blocks,
        wire,
        0,
    ) {
        Some(couple) => trouble_of(couple.verdict),
        None => None,
    }
}

/// The first trouble of a condition, in the order of the pairs. Takes a step where there is none.
pub(crate) fn find_trouble(
    groups: &Groups,
    all: &[Offers],
    shares: &Shares,
    users: &Users,
) -> Option<Trouble>
    requires holds { Holds groups.now (map kept all.now) }
    requires shared { Shared shares.now (map kept all.now) }
    requires users { HaveUsers users.now (map kept all.now) }
    requires blocks { HaveBlocks users.now.blocks (map kept all.now) }
    ensures { result ≡ first_trouble (all_pairs (map kept all.now) groups.now.wires) }
{
    if groups.troubles() == 0 {
        return None;
    }
    for wire in 0..groups.wires() {
        let senders = users.senders.list(wire);
        let receivers = users.receivers.list(wire);
        let blocks = users.blocks.list(wire);
        match trouble_on(groups, all, shares, senders, receivers, blocks, wire) {
            Some(trouble) => return Some(trouble),
            None => {}
        }
    }
    None
}

/// The send at this place of a process. The only error is want of memory.
fn send_at(all: &[Offers], process: usize, place: usize) -> Result<Sender, AllocError>
    requires { IsSend (map kept all.now) process place }
    ensures { (s : Sending) → IsSendAt (map kept all.now) process place s →
        IfOk result (λ sender. sender ≡ s.sender) }
{
    all[process].sends[place].sender.copy()
}

/// The end of the receive at this place of a process. The only error is want of memory.
fn end_of_receive(all: &[Offers], process: usize, place: usize) -> Result<End, AllocError>
    requires { IsReceive (map kept all.now) process place }
    ensures { (r : Receiving) → IsReceiveAt (map kept all.now) process place r →
        IfOk result (λ end. end ≡ r.receiver.end) }
{
    all[process].receives[place].receiver.end.copy()
}

/// The send of the taken pair with this number on a wire, over which these processes send and those
/// receive, which are in these blocks, and the end of its receive. The only error is want of memory.
pub(crate) fn pair_on(
    groups: &Groups,
    all: &[Offers],
    shares: &Shares,
    senders: &[usize],
    receivers: &[usize],
    blocks: &[usize],
    wire: usize,
    number: u64,
) -> Result<Option<(Sender, End)>, AllocError>
    requires holds { Holds groups.now (map kept all.now) }
    requires shared { Shared shares.now (map kept all.now) }
    requires increasing { Increasing blocks.now }
    requires blocks { AreBlocks blocks.now (map kept all.now) wire }
    requires senders { Increasing senders.now }
    requires receivers { Increasing receivers.now }
    requires users { AreUsers senders.now receivers.now (map kept all.now) wire }
    ensures { IfOk result (λ pair. pair ≡ slice_get
        (map offered (taken (pairs_on (map kept all.now) wire))) number) }
{
    match find_on(
        Sort::Taken,
        groups,
        all,
        shares,
        senders,
        receivers,
        blocks,
        wire,
        number,
    ) {
        None => Ok(None),
        Some(couple) => {
            let sender = send_at(all, couple.sender.0, couple.sender.1)?;
            let receiver = end_of_receive(all, couple.receiver.0, couple.receiver.1)?;
            Ok(Some((sender, receiver)))
        }
    }
}
