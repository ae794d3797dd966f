// Blocks of processes that a search passes over.

ghost use Rattle.std.specs.Prelude.{◌≡◌, ◌+◌, length, take, sum_by, map, All, IfSome};
ghost use Rattle.pz_match.specs.devices.Kept.{kept, heard};
ghost use Rattle.pz_match.specs.devices.Holding.{Holds, Answered, SendKeyed};
ghost use Rattle.pz_match.specs.declared.groups.Sort.TheVariants.{Taken};
ghost use Rattle.pz_match.specs.devices.Tallies.{yeses};
ghost use Rattle.pz_match.specs.devices.Seeking.{sought, from_process};
ghost use Rattle.pz_match.specs.devices.Sharing.{share_taken, taken_by, IsTakenFrom, AreListedOn, IsBehind, Shared, AreOwn};
ghost use Rattle.pz_match.specs.devices.Users.{AreBlocks};
ghost use Rattle.pz_match_lists.specs.Increasing.{Increasing};

use crate::groups::{Group, Groups, Sort};
use crate::kept::{Offers, Receiving, Sending};
use crate::places::Seat;
use crate::sharing::BLOCK;
use crate::tallying::{free_in, said};
use pz_match_lists::{Share, Shares};

/// How many pairs are taken of the sends of a block in a group, if the group is on a wire; none where
/// receives with conditions take any, or where the number is 2^64 or more.
fn taken_in(group: &Group, wire: usize, share: Share) -> Option<u64>
    ensures calm { IfSome result (λ n. group.now.wire ≡ wire → group.now.tally.yes ≡ 0) }
    ensures number { IfSome result (λ n. n ≡ share_taken group.now wire share) }
{
    if group.wire as usize != wire {
        return Some(0);
    }
    if group.tally.yes != 0 {
        return None;
    }
    let pairs = share.sends.checked_mul(group.tally.free)?;
    Some(pairs.saturating_sub(share.own))
}

/// How many pairs are taken of the sends of a block on a wire, over which there are groups with these
/// numbers alone; none where receives with conditions take any, or where the number is 2^64 or more.
pub(crate) fn taken_from(
    groups: &[Group],
    numbers: &[usize],
    shares: &Shares,
    wire: usize,
    block: usize,
) -> Option<u64>
    requires increasing { Increasing numbers.now }
    requires listed { AreListedOn groups.now numbers.now wire }
    ensures { IfSome result (IsTakenFrom groups.now shares.now wire block) }
{
    let mut sum: u64 = 0;
    for at in 0..numbers.len() {
        let number = numbers[at];
        if number >= groups.len() {
            continue;
        }
        let part = taken_in(&groups[number], wire, shares.at(number, block))?;
        sum = sum.checked_add(part)?;
    }
    Some(sum)
}

/// Behind a block, with what is left of a number without so many pairs of the block; none where the pair
/// with the number is one of them.
fn behind(block: usize, pairs: u64, number: u64) -> Option<Seat>
    ensures { IfSome result (IsBehind block pairs number) }
{
    let rest = number.checked_sub(pairs)?;
    let place = block.checked_mul(BLOCK)?.checked_add(BLOCK)?;
    Some(Seat { place, rest })
}

/// The first process, of those that send over a wire and are in these blocks, that a search for the taken
/// pair with this number has to look at, and what is left of the number there.
fn taken_senders(
    groups: &Groups,
    all: &[Offers],
    shares: &Shares,
    blocks: &[usize],
    wire: usize,
    number: u64,
) -> Seat
    requires holds { Holds groups.now (map kept all.now) }
    requires shared { Shared shares.now (map kept all.now) }
    requires increasing { Increasing blocks.now }
    requires blocks { AreBlocks blocks.now (map kept all.now) wire }
    ensures { sum_by (from_process Taken groups.now.groups wire) (take result.place
        (map kept all.now)) + result.rest ≡ number }
{
    let mut seat = Seat {
        place: 0,
        rest: number,
    };
    for at in 0..blocks.len().saturating_sub(1) {
        let Some(pairs) = groups.taken_from(shares, wire, blocks[at]) else {
            return seat;
        };
        let Some(next) = behind(blocks[at], pairs, seat.rest) else {
            return seat;
        };
        seat = next;
    }
    seat
}

/// The same for pairs of a sort: blocks are passed over for taken pairs alone.
pub(crate) fn skip_senders(
    sort: Sort,
    groups: &Groups,
    all: &[Offers],
    shares: &Shares,
    blocks: &[usize],
    wire: usize,
    number: u64,
) -> Seat
    requires holds { Holds groups.now (map kept all.now) }
    requires shared { Shared shares.now (map kept all.now) }
    requires increasing { Increasing blocks.now }
    requires blocks { AreBlocks blocks.now (map kept all.now) wire }
    ensures { sum_by (from_process sort groups.now.groups wire) (take result.place
        (map kept all.now)) + result.rest ≡ number }
{
    match sort {
        Sort::Taken => taken_senders(groups, all, shares, blocks, wire, number),
        Sort::Troubled => Seat {
            place: 0,
            rest: number,
        },
    }
}

/// How many receives of a block, without a condition, take a send of a process that has so many itself.
fn taken_by(shares: &Shares, send: &Sending, own: u64, block: usize) -> u64
    ensures { result ≡ taken_by shares.now send.now own block }
{
    let free = shares.at(send.group, block).free;
    if send.sender.end.process as usize / BLOCK == block {
        free.saturating_sub(own)
    } else {
        free
    }
}

/// The first process, of those that receive over the wire of a send and are in these blocks, that a search
/// for the taken pair with this number has to look at, and what is left of the number there. No receive
/// with a condition takes the send, and its process has these receives.
fn free_receivers(
    groups: &Groups,
    all: &[Offers],
    shares: &Shares,
    blocks: &[usize],
    send: &Sending,
    receives: &[Receiving],
    number: u64,
) -> Seat
    requires holds { Holds groups.now (map kept all.now) }
    requires shared { Shared shares.now (map kept all.now) }
    requires increasing { Increasing blocks.now }
    requires blocks { AreBlocks blocks.now (map kept all.now) send.now.sender.wire }
    requires keyed { SendKeyed groups.now send.now }
    requires answered { Answered (map kept all.now) send.now }
    requires own { AreOwn (map kept all.now) send.now.sender.end.process receives.now }
    requires none { yeses send.now.rows ≡ 0 }
    ensures { sum_by (λ e. length (sought Taken (heard send.now e))) (take result.place
        (map kept all.now)) + result.rest ≡ number }
{
    let own = free_in(receives, send.group) as u64;
    let mut seat = Seat {
        place: 0,
        rest: number,
    };
    for at in 0..blocks.len().saturating_sub(1) {
        let pairs = taken_by(shares, send, own, blocks[at]);
        let Some(next) = behind(blocks[at], pairs, seat.rest) else {
            return seat;
        };
        seat = next;
    }
    seat
}

/// The same for pairs of a sort: blocks are passed over for taken pairs alone, where no receive with a
/// condition takes the send.
pub(crate) fn skip_receivers(
    sort: Sort,
    groups: &Groups,
    all: &[Offers],
    shares: &Shares,
    blocks: &[usize],
    send: &Sending,
    receives: &[Receiving],
    number: u64,
) -> Seat
    requires holds { Holds groups.now (map kept all.now) }
    requires shared { Shared shares.now (map kept all.now) }
    requires increasing { Increasing blocks.now }
    requires blocks { AreBlocks blocks.now (map kept all.now) send.now.sender.wire }
    requires keyed { SendKeyed groups.now send.now }
    requires answered { Answered (map kept all.now) send.now }
    requires own { AreOwn (map kept all.now) send.now.sender.end.process receives.now }
    ensures { sum_by (λ e. length (sought sort (heard send.now e))) (take result.place
        (map kept all.now)) + result.rest ≡ number }
{
    match sort {
        Sort::Taken if said(Sort::Taken, send.rows.as_slice()) == 0 => {
            free_receivers(groups, all, shares, blocks, send, receives, number)
        }
        Sort::Taken | Sort::Troubled => Seat {
            place: 0,
            rest: number,
        },
    }
}
