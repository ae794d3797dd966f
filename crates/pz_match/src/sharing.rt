// What blocks of processes have of the groups.

ghost use Rattle.std.specs.Prelude.{◌≡◌, ◌<◌, ◌+◌, ◌/◌, length, map, slice_get, Some, IfSome, OnOk};
ghost use Rattle.pz_match.specs.devices.Kept.{Kept, kept};
ghost use Rattle.pz_match.specs.devices.Tallies.{nothing, only_in, sends_part, receives_part, part_of};
ghost use Rattle.pz_match.specs.devices.Sharing.{side, Shifts};

use crate::groups::Tally;
use crate::kept::{Offers, Receiving, Sending};
use crate::tallying::{receive_tally, send_tally};
use pz_match_lists::{Share, Shares};
use std::alloc::AllocError;

/// How many processes are in a block.
pub(crate) const BLOCK: usize = 64;

/// Whether offers go or come.
#[derive(Clone, Copy)]
pub(crate) enum Way {
    Off,
    On,
}

/// A number without a part of it, or with one more.
fn shifted(way: Way, number: u64, part: u64) -> Option<u64>
    ensures { IfSome result (λ n. n + side way part 0 ≡ number + side way 0 part) }
{
    match way {
        Way::Off => number.checked_sub(part),
        Way::On => number.checked_add(part),
    }
}

/// A share without a part of it, or with one more.
fn shifted_share(way: Way, share: Share, part: Tally) -> Option<Share>
    ensures { IfSome result (λ s. (s.sends + side way part.sends 0 ≡ share.sends +
        side way 0 part.sends) × (s.free + side way part.free 0 ≡ share.free +
        side way 0 part.free) × (s.own + side way part.own 0 ≡ share.own +
        side way 0 part.own)) }
{
    Some(Share {
        sends: shifted(way, share.sends, part.sends)?,
        free: shifted(way, share.free, part.free)?,
        own: shifted(way, share.own, part.own)?,
    })
}

/// What a block has in a group goes or comes. The only error is want of memory, also where a number
/// would be 2^64 or more.
fn shift_in(
    shares: &mut Shares,
    group: usize,
    block: usize,
    way: Way,
    part: Tally,
) -> Result<(), AllocError>
    ensures { OnOk result (Shifts block shares.old shares.new
        (side way (only_in group part) nothing) (side way nothing (only_in group part))) }
{
    let Some(share) = shifted_share(way, shares.at(group, block), part) else {
        return Err(AllocError);
    };
    shares.put(group, block, share)
}

/// The sends of a process with these receives go or come. The only error is want of memory.
fn shift_sends(
    shares: &mut Shares,
    block: usize,
    way: Way,
    sends: &[Sending],
    receives: &[Receiving],
) -> Result<(), AllocError>
    ensures { OnOk result (Shifts block shares.old shares.new
        (side way (sends_part receives.now sends.now) nothing)
        (side way nothing (sends_part receives.now sends.now))) }
{
    for send in sends {
        let part = send_tally(send.group, &[], receives);
        shift_in(shares, send.group, block, way, part)?;
    }
    Ok(())
}

/// Receives go or come. The only error is want of memory.
fn shift_receives(
    shares: &mut Shares,
    block: usize,
    way: Way,
    receives: &[Receiving],
) -> Result<(), AllocError>
    ensures { OnOk result (Shifts block shares.old shares.new
        (side way (receives_part receives.now) nothing)
        (side way nothing (receives_part receives.now))) }
{
    for receive in receives {
        let part = receive_tally(receive.receiver.conditional);
        shift_in(shares, receive.group, block, way, part)?;
    }
    Ok(())
}

/// All that a process offers goes or comes. The only error is want of memory.
pub(crate) fn shift(
    shares: &mut Shares,
    all: &[Offers],
    process: u32,
    way: Way,
) -> Result<(), AllocError>
    requires { process < length all.now }
    ensures { OnOk result ((e : Kept) → slice_get (map kept all.now) process ≡ Some e →
        Shifts (process / 64) shares.old shares.new (side way (part_of e) nothing)
        (side way nothing (part_of e))) }
{
    let place = process as usize;
    let offers = &all[place];
    let receives = offers.receives.as_slice();
    let block = place / BLOCK;
    shift_sends(shares, block, way, offers.sends.as_slice(), receives)?;
    shift_receives(shares, block, way, receives)
}
