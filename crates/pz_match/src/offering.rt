// The sends that a process offers now.

ghost use Rattle.std.specs.Prelude.{◌≡◌, ◌≤◌, ◌+◌, ◌++◌, [], ◌∷◌, length, count_by, map, sum_by, All, IfOk, IfSome, OnOk};
ghost use Rattle.std.specs.List.{flat_map};
ghost use Rattle.std.specs.Option.{option_to_list};
ghost use Rattle.pz_match.specs.Offers.{senders};
ghost use Rattle.pz_match.specs.Judging.{MayTake, Stays};
ghost use Rattle.pz_match_lists.specs.Increasing.{Increasing};
ghost use Rattle.pz_match.specs.devices.Kept.{asks_in, kept};
ghost use Rattle.pz_match.specs.devices.Seeking.{OnlyAt};
ghost use Rattle.pz_match.specs.devices.Users.{HaveAskers};
ghost use Rattle.pz_match.specs.devices.Again.{Beside};
ghost use Rattle.pz_match.specs.devices.Staying.{MaySend, stay_part, stays_part};
ghost use Rattle.pz_match.specs.devices.Tallies.{HasKey, total_of};
ghost use Rattle.pz_match.specs.devices.Asking.{asked_in, MayAskAll};
ghost use Rattle.pz_match.specs.devices.Holding.{ReceiveKeyed};
ghost use Rattle.pz_match.specs.devices.Updating.{Offered, Speaks, Covers, receivers_of};

use crate::asking::ask_all;
use crate::groups::Groups;
use crate::judge::Judge;
use crate::kept::{Offers, Receiving, Sending, Stay};
use crate::offers::Sender;
use crate::planning::seat;
use crate::rows::{Rows, Spare};
use crate::tallying::add_send;
use pz_match_lists::Lists;
use pz_offer::{End, SendOffer};
use std::alloc::{AllocError, Global};

/// What the conditional receives of other processes say to a send, in a group that covers them: only
/// these processes have any. The only error is want of memory.
fn rows_for<J: Judge>(
    alloc: Global,
    spare: &mut Spare,
    asking: u64,
    all: &[Offers],
    askers: &[usize],
    sender: &Sender,
    group: usize,
    judge: &mut J,
) -> Result<Rows, AllocError>
    requires covers { (total_of (map kept all.now) group).asking ≤ asking }
    requires increasing { Increasing askers.now }
    requires only { OnlyAt askers.now (map kept all.now)
        (λ e. count_by (asks_in group) e.receives) }
    requires takes { All (MayAskAll J.takes judge.old sender.now group) (map kept all.now) }
    ensures rows { IfOk result (λ rows. rows ≡ flat_map
        (asked_in (J.verdict judge.old) sender.now group) (map kept all.now)) }
    ensures stays { OnOk result (Stays J.takes J.verdict J.lent judge.old judge.new) }
    ensures asked { IfOk result (λ rows. J.asked judge.new ≡ J.asked judge.old + length rows) }
    ensures lent { J.lent judge.new ≡ J.lent judge.old }
{
    if asking == 0 {
        return Ok(Rows::new(alloc));
    }
    let mut rows = spare.take();
    ask_all(all, askers, sender, group, &mut rows, judge)?;
    Ok(rows)
}

/// The group of a send of a process with these receives, which has one more, if it does not stay there,
/// and what the conditional receives of other processes that fit say. The only error is want of memory.
fn join<J: Judge>(
    alloc: Global,
    spare: &mut Spare,
    groups: &mut Groups,
    all: &[Offers],
    askers: &Lists,
    receives: &[Receiving],
    sender: &Sender,
    stay: Option<Stay>,
    judge: &mut J,
) -> Result<(usize, Rows), AllocError>
    requires may { IfSome stay (λ s. HasKey groups.old.groups s.group sender.now.wire
        sender.now.message (length sender.now.parcel.values)) }
    requires keyed { All (λ e. All (ReceiveKeyed groups.old) e.receives) (map kept all.now) }
    requires own { All (λ e. All (λ r. r.receiver.end.process ≡ e.process) e.receives)
        (map kept all.now) }
    requires covers { Covers groups.old (map kept all.now) }
    requires askers { HaveAskers askers.now (map kept all.now) }
    requires takes { MayTake J.takes judge.old (sender.now ∷ [])
        (receivers_of (map kept all.now)) }
    ensures speaks { IfOk result (λ x. Speaks (J.verdict judge.old) (map kept all.now)
        receives.now groups.old groups.new (stay_part stay)
        (record { sender = sender.now; group = x.0; rows = x.1 })) }
    ensures stays { OnOk result (Stays J.takes J.verdict J.lent judge.old judge.new) }
    ensures asked { IfOk result (λ x. J.asked judge.new ≡ J.asked judge.old + length x.1) }
    ensures lent { J.lent judge.new ≡ J.lent judge.old }
{
    let values = sender.parcel.values().len();
    let seat = seat(groups, stay, sender.wire, &sender.message, values)?;
    let group = seat.group;
    let asking = groups.tally(group).asking;
    let askers = askers.list(sender.wire as usize);
    let rows = rows_for(alloc, spare, asking, all, askers, sender, group, judge)?;
    add_send(groups, seat, rows.as_slice(), receives)?;
    Ok((group, rows))
}

/// A send as it is kept, if it reaches a wire: the conditional receives of other processes that fit
/// are asked, and its group has one more. The only error is want of memory.
fn offer_one<J: Judge>(
    alloc: Global,
    spare: &mut Spare,
    groups: &mut Groups,
    all: &[Offers],
    askers: &Lists,
    process: u32,
    receives: &[Receiving],
    offer: SendOffer,
    stay: Option<Stay>,
    judge: &mut J,
) -> Result<Option<Sending>, AllocError>
    requires keyed { All (λ e. All (ReceiveKeyed groups.old) e.receives) (map kept all.now) }
    requires own { All (λ e. All (λ r. r.receiver.end.process ≡ e.process) e.receives)
        (map kept all.now) }
    requires covers { Covers groups.old (map kept all.now) }
    requires askers { HaveAskers askers.now (map kept all.now) }
    requires takes { MayTake J.takes judge.old (senders process (offer ∷ []))
        (receivers_of (map kept all.now)) }
    requires may { MaySend groups.old stay offer }
    ensures offered { IfOk result (λ s. Offered (J.verdict judge.old)
        (map kept all.now) receives.now groups.old groups.new (stay_part stay) process (offer ∷ [])
        (option_to_list s)) }
    ensures stays { OnOk result (Stays J.takes J.verdict J.lent judge.old judge.new) }
    ensures asked { IfOk result (λ s. J.asked judge.new ≡ J.asked judge.old + sum_by
        (λ x. length x.rows) (option_to_list s)) }
    ensures lent { J.lent judge.new ≡ J.lent judge.old }
{
    let Some(wire) = offer.wire else {
        return Ok(None);
    };
    let sender = Sender {
        end: End {
            process,
            place: offer.place,
        },
        wire,
        message: offer.message,
        parcel: offer.parcel,
    };
    let joined = join(
        alloc, spare, groups, all, askers, receives, &sender, stay, judge,
    )?;
    Ok(Some(Sending {
        sender,
        group: joined.0,
        rows: joined.1,
    }))
}

/// One send more, if there is one. The only error is want of memory.
fn keep(sent: &mut Vec<Sending>, send: Option<Sending>) -> Result<(), AllocError>
    ensures { OnOk result (sent.new.items ≡ sent.old.items ++ option_to_list send) }
{
    if let Some(send) = send {
        sent.push(send)?;
    }
    Ok(())
}

/// Keeps the sends that a process with these receives offers. The only error is want of memory.
pub(crate) fn offer<J: Judge>(
    spare: &mut Spare,
    groups: &mut Groups,
    all: &[Offers],
    askers: &Lists,
    process: u32,
    receives: &[Receiving],
    offers: Vec<SendOffer>,
    plan: &[Option<Stay>],
    sent: &mut Vec<Sending>,
    judge: &mut J,
) -> Result<(), AllocError>
    requires empty { sent.old.items ≡ [] }
    requires keyed { All (λ e. All (ReceiveKeyed groups.old) e.receives) (map kept all.now) }
    requires own { All (λ e. All (λ r. r.receiver.end.process ≡ e.process) e.receives)
        (map kept all.now) }
    requires covers { Covers groups.old (map kept all.now) }
    requires askers { HaveAskers askers.now (map kept all.now) }
    requires takes { MayTake J.takes judge.old (senders process offers.items)
        (receivers_of (map kept all.now)) }
    requires may { Beside (MaySend groups.old) plan.now offers.items }
    ensures offered { OnOk result (Offered (J.verdict judge.old)
        (map kept all.now) receives.now groups.old groups.new (stays_part plan.now) process
        offers.items sent.new.items) }
    ensures stays { OnOk result (Stays J.takes J.verdict J.lent judge.old judge.new) }
    ensures asked { OnOk result (J.asked judge.new ≡ J.asked judge.old + sum_by
        (λ x. length x.rows) sent.new.items) }
    ensures lent { J.lent judge.new ≡ J.lent judge.old }
{
    let alloc = *sent.allocator();
    let mut at = 0;
    for offer in offers {
        let send = offer_one(
            alloc, spare, groups, all, askers, process, receives, offer, plan[at], judge,
        )?;
        keep(sent, send)?;
        at += 1;
    }
    Ok(())
}
