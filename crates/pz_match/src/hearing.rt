// The receives that a process offers now.

ghost use Rattle.std.specs.Prelude.{◌≡◌, ℕ, [], ◌∷◌, ◌++◌, Contains, IfOk, IfSome, OnOk};
ghost use Rattle.std.specs.Option.{option_to_list};
ghost use Rattle.pz_match.specs.devices.Again.{Beside};
ghost use Rattle.pz_match.specs.devices.Staying.{MayReceive, stay_part, stays_part};
ghost use Rattle.pz_match.specs.devices.Tallies.{HasKey};
ghost use Rattle.pz_match.specs.devices.Updating.{Heard, Listens};
ghost use Rattle.pz_match.specs.devices.Users.{Gathered};

use crate::groups::Groups;
use crate::kept::{Receiving, Stay};
use crate::offers::Receiver;
use crate::planning::seat;
use crate::tallying::add_receive;
use crate::users::Users;
use pz_match_lists::{Lists, Numbers};
use pz_offer::{End, ReceiveOffer};
use std::alloc::AllocError;

/// The group of a receive, which has one more, if it does not stay there. The only error is want of
/// memory.
fn join(groups: &mut Groups, receiver: &Receiver, stay: Option<Stay>) -> Result<usize, AllocError>
    requires { IfSome stay (λ s. HasKey groups.old.groups s.group receiver.now.wire
        receiver.now.message receiver.now.count) }
    ensures { IfOk result (λ g. Listens groups.old groups.new (stay_part stay)
        (record { receiver = receiver.now; group = g })) }
{
    let seat = seat(
        groups,
        stay,
        receiver.wire,
        &receiver.message,
        receiver.count,
    )?;
    add_receive(groups, seat, receiver.conditional)?;
    Ok(seat.group)
}

/// A receive as it is kept, if it reaches a wire: its group has one more, if it does not stay there. The
/// only error is want of memory.
fn hear_one(
    groups: &mut Groups,
    process: u32,
    offer: ReceiveOffer,
    stay: Option<Stay>,
) -> Result<Option<Receiving>, AllocError>
    requires { MayReceive groups.old stay offer }
    ensures { IfOk result (λ r. Heard groups.old groups.new (stay_part stay) process (offer ∷ [])
        (option_to_list r)) }
{
    let Some(wire) = offer.wire else {
        return Ok(None);
    };
    let receiver = Receiver {
        end: End {
            process,
            place: offer.place,
        },
        wire,
        message: offer.message,
        count: offer.count,
        conditional: offer.conditional,
    };
    let group = join(groups, &receiver, stay)?;
    Ok(Some(Receiving { receiver, group }))
}

/// One receive more, if there is one. The only error is want of memory.
fn keep(kept: &mut Vec<Receiving>, receive: Option<Receiving>) -> Result<(), AllocError>
    ensures { OnOk result (kept.new.items ≡ kept.old.items ++ option_to_list receive) }
{
    if let Some(receive) = receive {
        kept.push(receive)?;
    }
    Ok(())
}

/// Keeps the receives that a process offers. The only error is want of memory.
fn hear(
    groups: &mut Groups,
    process: u32,
    offers: Vec<ReceiveOffer>,
    plan: &[Option<Stay>],
    kept: &mut Vec<Receiving>,
) -> Result<(), AllocError>
    requires empty { kept.old.items ≡ [] }
    requires may { Beside (MayReceive groups.old) plan.now offers.items }
    ensures { OnOk result (Heard groups.old groups.new (stays_part plan.now) process offers.items
        kept.new.items) }
{
    let mut at = 0;
    for offer in offers {
        let receive = hear_one(groups, process, offer, plan[at])?;
        keep(kept, receive)?;
        at += 1;
    }
    Ok(())
}

/// The places of the processes that have ever sent over the wires of those of these receives that have a
/// condition. The only error is want of memory.
pub(crate) fn gather(
    senders: &Lists,
    receives: &[Receiving],
    places: &mut Numbers,
) -> Result<(), AllocError>
    ensures keeps { (n : ℕ) → Contains places.old n → Contains places.new n }
    ensures gathered { OnOk result (Gathered senders.now places.new receives.now) }
{
    for receive in receives {
        if receive.receiver.conditional {
            places.add_all(senders.list(receive.receiver.wire as usize))?;
        }
    }
    Ok(())
}

/// Keeps the receives that a process offers, and gathers the places of the processes whose sends they
/// may be asked about. The only error is want of memory.
pub(crate) fn listen(
    groups: &mut Groups,
    users: &Users,
    places: &mut Numbers,
    process: u32,
    offers: Vec<ReceiveOffer>,
    plan: &[Option<Stay>],
    kept: &mut Vec<Receiving>,
) -> Result<(), AllocError>
    requires empty { kept.old.items ≡ [] }
    requires may { Beside (MayReceive groups.old) plan.now offers.items }
    ensures heard { OnOk result (Heard groups.old groups.new (stays_part plan.now) process
        offers.items kept.new.items) }
    ensures keeps { (n : ℕ) → Contains places.old n → Contains places.new n }
    ensures gathered { OnOk result (Gathered users.now.senders places.new kept.new.items) }
{
    hear(groups, process, offers, plan, kept)?;
    gather(&users.senders, kept.as_slice(), places)
}
