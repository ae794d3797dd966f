// A process offers something else.

ghost use Rattle.std.specs.Prelude.{◌≡◌, ◌<◌, ◌≤◌, ◌+◌, [], length, map, All, IfOk, OnOk};
ghost use Rattle.pz_match.specs.Offers.{senders, receivers};
ghost use Rattle.pz_match.specs.Judging.{MayTake, Stays};
ghost use Rattle.pz_match.specs.devices.Lists.{upto};
ghost use Rattle.pz_match.specs.devices.Kept.{kept};
ghost use Rattle.pz_match.specs.devices.Tallies.{Distinct, Follows, Moves, part_of};
ghost use Rattle.pz_match.specs.devices.Asking.{all_written};
ghost use Rattle.pz_match.specs.devices.Again.{Beside};
ghost use Rattle.pz_match.specs.devices.Holding.{Holds, ReceiveKeyed, SendKeyed};
ghost use Rattle.pz_match.specs.devices.Staying.{MayReceive, MaySend, planned};
ghost use Rattle.pz_match.specs.devices.Users.{Gathered, HaveAskers, HaveUsers};
ghost use Rattle.pz_match.specs.devices.Updating.{Replaced, senders_of, receivers_of, silent};

use crate::groups::Groups;
use crate::hearing::{gather, listen};
use crate::judge::Judge;
use crate::kept::{Offers, Receiving, Sending};
use crate::offering::offer;
use crate::planning::{Plan, part_receives, part_sends};
use crate::renewing::renew_all;
use crate::rows::Spare;
use crate::users::Users;
use pz_match_lists::Numbers;
use pz_offer::{ReceiveOffer, SendOffer};
use std::alloc::{AllocError, Global};
use std::mem;

/// Lists without elements, which keep their room for others.
#[derive(Drop)]
struct Room {
    sends: Vec<Sending>,
    receives: Vec<Receiving>,
}

/// Keeps the room of the rows of these sends, which go. The only error is want of memory.
fn clear(spare: &mut Spare, sends: &mut Vec<Sending>) -> Result<(), AllocError>
    ensures { OnOk result (sends.new.items ≡ []) }
{
    for _ in 0..sends.len() {
        if let Some(send) = sends.pop() {
            spare.keep(send.rows)?;
        }
    }
    sends.clear();
    Ok(())
}

/// Takes away all that a process offers, and gathers the places of the processes whose sends its
/// receives may have answered. What stays as the process offers these is planned, and counts on in its
/// groups. The only error is want of memory.
fn withdraw(
    alloc: Global,
    spare: &mut Spare,
    groups: &mut Groups,
    users: &Users,
    places: &mut Numbers,
    plan: &mut Plan,
    offers: &mut Offers,
    new_sends: &[SendOffer],
    new_receives: &[ReceiveOffer],
) -> Result<Room, AllocError>
    requires sends { All (SendKeyed groups.old) offers.old.sends.items }
    requires receives { All (ReceiveKeyed groups.old) offers.old.receives.items }
    ensures silent { OnOk result (kept offers.new ≡ silent offers.old.process) }
    ensures follows { OnOk result (Follows groups.old groups.new) }
    ensures moves { OnOk result (Moves groups.old groups.new (part_of (kept offers.old))
        (planned plan.new.sends.items plan.new.receives.items)) }
    ensures may_send { OnOk result (Beside (MaySend groups.new) plan.new.sends.items
        new_sends.now) }
    ensures may_receive { OnOk result (Beside (MayReceive groups.new) plan.new.receives.items
        new_receives.now) }
    ensures sends_room { IfOk result (λ room. room.sends.items ≡ []) }
    ensures receives_room { IfOk result (λ room. room.receives.items ≡ []) }
    ensures gathered { OnOk result (Gathered users.now.senders places.new
        offers.old.receives.items) }
{
    places.clear();
    gather(&users.senders, offers.receives.as_slice(), places)?;
    part_sends(
        groups,
        &mut plan.sends,
        offers.sends.as_slice(),
        offers.receives.as_slice(),
        new_sends,
    )?;
    part_receives(
        groups,
        &mut plan.receives,
        offers.receives.as_slice(),
        new_receives,
    )?;
    let mut sends = mem::replace(&mut offers.sends, Vec::new(alloc));
    let mut receives = mem::replace(&mut offers.receives, Vec::new(alloc));
    clear(spare, &mut sends)?;
    receives.clear();
    Ok(Room { sends, receives })
}

/// A process offers other sends and receives: those that it offered are forgotten, and the judge is
/// asked about each pair with a condition and an end in the process. The only error is want of memory.
pub(crate) fn replace<J: Judge>(
    all: &mut [Offers],
    groups: &mut Groups,
    users: &Users,
    places: &mut Numbers,
    plan: &mut Plan,
    spare: &mut Spare,
    process: u32,
    sends: Vec<SendOffer>,
    receives: Vec<ReceiveOffer>,
    judge: &mut J,
) -> Result<(), AllocError>
    requires within { process < length all.old }
    requires holds { Holds groups.old (map kept all.old) }
    requires users { HaveUsers users.now (map kept all.old) }
    requires askers { HaveAskers users.now.askers (map kept all.old) }
    requires sends_asked { MayTake J.takes judge.old (senders process sends.items)
        (receivers_of (map kept all.old)) }
    requires receives_asked { MayTake J.takes judge.old (senders_of (map kept all.old))
        (receivers process receives.items) }
    ensures replaced { OnOk result (Replaced (J.verdict judge.old) process sends.items
        receives.items groups.old (map kept all.old) groups.new (map kept all.new)) }
    ensures stays { OnOk result (Stays J.takes J.verdict J.lent judge.old judge.new) }
    ensures asked { OnOk result (J.asked judge.new ≡ J.asked judge.old + all_written process
        (map kept all.new)) }
    ensures lent { J.lent judge.new ≡ J.lent judge.old }
{
    let place = process as usize;
    let alloc = *sends.allocator();
    let room = withdraw(
        alloc,
        spare,
        groups,
        users,
        places,
        plan,
        &mut all[place],
        sends.as_slice(),
        receives.as_slice(),
    )?;
    let Room {
        sends: mut sent,
        receives: mut heard,
    } = room;
    let still_heard = plan.receives.as_slice();
    listen(
        groups,
        users,
        places,
        process,
        receives,
        still_heard,
        &mut heard,
    )?;
    let still_sent = plan.sends.as_slice();
    offer(
        spare,
        groups,
        all,
        &users.askers,
        process,
        heard.as_slice(),
        sends,
        still_sent,
        &mut sent,
        judge,
    )?;
    let changed = places.as_slice();
    renew_all(groups, all, changed, process, heard.as_slice(), judge)?;
    let offers = &mut all[place];
    offers.sends = sent;
    offers.receives = heard;
    Ok(())
}

/// So many processes that offer nothing. The only error is want of memory.
pub(crate) fn silence(alloc: Global, processes: u32) -> Result<Vec<Offers>, AllocError>
    ensures { IfOk result (λ all. map kept all.items ≡ map silent (upto processes)) }
{
    let mut all = Vec::new(alloc);
    for process in 0..processes {
        all.push(Offers {
            process,
            sends: Vec::new(alloc),
            receives: Vec::new(alloc),
        })?;
    }
    Ok(all)
}

/// The same on a vector, with what the groups know. The only error is want of memory.
pub(crate) fn replace_in<J: Judge>(
    all: &mut Vec<Offers>,
    groups: &mut Groups,
    users: &Users,
    places: &mut Numbers,
    plan: &mut Plan,
    spare: &mut Spare,
    process: u32,
    sends: Vec<SendOffer>,
    receives: Vec<ReceiveOffer>,
    judge: &mut J,
) -> Result<(), AllocError>
    requires within { process < length all.old.items }
    requires holds { Holds groups.old (map kept all.old.items) }
    requires users { HaveUsers users.now (map kept all.old.items) }
    requires askers { HaveAskers users.now.askers (map kept all.old.items) }
    requires sends_asked { MayTake J.takes judge.old (senders process sends.items)
        (receivers_of (map kept all.old.items)) }
    requires receives_asked { MayTake J.takes judge.old (senders_of (map kept all.old.items))
        (receivers process receives.items) }
    ensures replaced { OnOk result (Replaced (J.verdict judge.old) process sends.items
        receives.items groups.old (map kept all.old.items) groups.new (map kept all.new.items)) }
    ensures stays { OnOk result (Stays J.takes J.verdict J.lent judge.old judge.new) }
    ensures asked { OnOk result (J.asked judge.new ≡ J.asked judge.old + all_written process
        (map kept all.new.items)) }
    ensures lent { J.lent judge.new ≡ J.lent judge.old }
    ensures within { OnOk result (All (λ x. x.wire < groups.new.wires) groups.new.groups) }
    ensures distinct { OnOk result (Distinct groups.new.groups) }
{
    let slice = all.as_mut_slice();
    replace(
        slice, groups, users, places, plan, spare, process, sends, receives, judge,
    )?;
    groups.are_distinct();
    Ok(())
}
