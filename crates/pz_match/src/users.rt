// Who has offered something over which wire.

ghost use Rattle.std.specs.Prelude.{◌≡◌, Contains, IfSome, OnOk};
ghost use Rattle.pz_match_lists.specs.Increasing.{list_at};
ghost use Rattle.pz_match.specs.devices.Users.{KeepsUsers, SendsNoted, ReceivesNoted, AskersNoted, asking_wire};

use crate::sharing::BLOCK;
use pz_match_lists::Lists;
use pz_offer::{ReceiveOffer, SendOffer};
use std::alloc::{AllocError, Global};

/// The processes that have ever offered something, by wire.
#[derive(Drop)]
pub(crate) struct Users {
    pub(crate) senders: Lists,
    pub(crate) receivers: Lists,
    /// Those that have had a receive with a condition.
    pub(crate) askers: Lists,
    /// The blocks of all of them.
    pub(crate) blocks: Lists,
}

impl Users {
    ghost use Rattle.std.specs.Prelude.{◌≡◌, [], OnOk};
    ghost use Rattle.pz_match.specs.devices.Users.{Noted};

    /// None yet. Takes no memory.
    pub(crate) fn new(alloc: Global) -> Users
        ensures { result ≡ record { senders = []; receivers = []; askers = []; blocks = [] } }
    {
        Users {
            senders: Lists::new(alloc),
            receivers: Lists::new(alloc),
            askers: Lists::new(alloc),
            blocks: Lists::new(alloc),
        }
    }

    /// Notes a process as a user of the wires of these offers. The only error is want of memory.
    pub(crate) fn note(
        &mut self,
        process: u32,
        sends: &[SendOffer],
        receives: &[ReceiveOffer],
    ) -> Result<(), AllocError>
        ensures { OnOk result (Noted self.old self.new process sends.now receives.now) }
    {
        note_sends(&mut self.senders, process, sends)?;
        note_receives(&mut self.receivers, process, receives)?;
        note_askers(&mut self.askers, process, receives)?;
        let block = process / BLOCK as u32;
        note_sends(&mut self.blocks, block, sends)?;
        note_receives(&mut self.blocks, block, receives)?;
        Ok(())
    }
}

/// Notes a process as a user of a wire, if there is one. The only error is want of memory.
fn note(users: &mut Lists, process: u32, wire: Option<u32>) -> Result<(), AllocError>
    ensures keeps { KeepsUsers users.old users.new }
    ensures noted { OnOk result (IfSome wire (λ w. Contains (list_at users.new w) process)) }
{
    match wire {
        Some(wire) => users.add(wire, process as usize),
        None => Ok(()),
    }
}

/// Notes a process as a user of the wires of these sends. The only error is want of memory.
fn note_sends(users: &mut Lists, process: u32, sends: &[SendOffer]) -> Result<(), AllocError>
    ensures keeps { KeepsUsers users.old users.new }
    ensures noted { OnOk result (SendsNoted users.new process sends.now) }
{
    for send in sends {
        note(users, process, send.wire)?;
    }
    Ok(())
}

/// Notes a process as a user of the wires of these receives. The only error is want of memory.
fn note_receives(
    users: &mut Lists,
    process: u32,
    receives: &[ReceiveOffer],
) -> Result<(), AllocError>
    ensures keeps { KeepsUsers users.old users.new }
    ensures noted { OnOk result (ReceivesNoted users.new process receives.now) }
{
    for receive in receives {
        note(users, process, receive.wire)?;
    }
    Ok(())
}

/// The wire of a receive that has a condition.
fn asking_wire(receive: &ReceiveOffer) -> Option<u32>
    ensures { result ≡ asking_wire receive.now }
{
    if receive.conditional {
        receive.wire
    } else {
        None
    }
}

/// Notes a process as one that asks on a wire, for each of these receives that has a condition. The
/// only error is want of memory.
fn note_askers(
    askers: &mut Lists,
    process: u32,
    receives: &[ReceiveOffer],
) -> Result<(), AllocError>
    ensures keeps { KeepsUsers askers.old askers.new }
    ensures noted { OnOk result (AskersNoted askers.new process receives.now) }
{
    for receive in receives {
        note(askers, process, asking_wire(receive))?;
    }
    Ok(())
}
