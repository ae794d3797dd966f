// What is found in one process, added to a survey. The only error is want of memory.

ghost use Rattle.std.specs.Prelude.{◌≡◌, ◌++◌, ℕ, map, slice_get, All, OnOk};
ghost use Rattle.std.specs.List.{filter_map};
ghost use Rattle.std.specs.Option.{option_or, option_to_list};
ghost use Rattle.pz_classes_code.specs.pz_syntax.Classes.{ModelTree};
ghost use Rattle.pz_bind.specs.NetView.{HasProcess};
ghost use Rattle.pz_term_enabled.specs.devices.Adding as spec;
ghost use Rattle.pz_term_enabled.specs.devices.Adding.{action_of, sender_of, receiver_of, Adds};
ghost use Rattle.pz_term_enabled.specs.devices.Seen.{Wired, HasPort, wire_at};

use crate::findings::Survey;
use crate::found::{ActiveReceive, ActiveSend, Doing, Found};
use pz_bind::Net;
use pz_rules::Action;
use pz_rules::pz_offer::{End, Trouble};
use pz_term_matching::{Receiver, Sender};
use std::alloc::AllocError;

/// The internal actions of a process.
fn add_actions(
    process: u32,
    doings: Vec<Doing>,
    actions: &mut Vec<Action>,
) -> Result<(), AllocError>
    ensures { OnOk result (actions.new.items ≡ actions.old.items ++ map
        (action_of process) doings.items) }
{
    for doing in doings {
        let Doing { place, kind, pos } = doing;
        let at = End { process, place };
        actions.push(Action::Internal { at, kind, pos })?;
    }
    Ok(())
}

/// The wire of a port of a process, by the port's number in the class of the process.
fn wire_of(net: &Net, process: u32, port: u32) -> Option<u32>
    requires { HasProcess net.now process }
    ensures { (m : ModelTree) (wired : Wired m net.now process) → HasPort wired port →
        result ≡ wire_at wired port }
{
    net.wire(process, port)
}

/// A send, if its port has a wire.
fn add_sender(
    net: &Net,
    process: u32,
    sending: ActiveSend,
    senders: &mut Vec<Sender>,
) -> Result<(), AllocError>
    requires { HasProcess net.now process }
    ensures { (m : ModelTree) (wired : Wired m net.now process) → HasPort wired sending.port →
        OnOk result (senders.new.items ≡ senders.old.items ++ option_to_list
        (sender_of (wire_at wired) process sending)) }
{
    let Some(wire) = wire_of(net, process, sending.port) else {
        return Ok(());
    };
    let ActiveSend {
        place,
        pos: _,
        port: _,
        message,
        parcel,
    } = sending;
    let end = End { process, place };
    senders.push(Sender {
        end,
        wire,
        message,
        parcel,
    })?;
    Ok(())
}

/// The sends of a process whose ports have wires.
fn add_senders(
    net: &Net,
    process: u32,
    sends: Vec<ActiveSend>,
    senders: &mut Vec<Sender>,
) -> Result<(), AllocError>
    requires { HasProcess net.now process }
    ensures { (m : ModelTree) (wired : Wired m net.now process) →
        All (λ x. HasPort wired x.port) sends.items →
        OnOk result (senders.new.items ≡ senders.old.items ++ filter_map
        (sender_of (wire_at wired) process) sends.items) }
{
    for sending in sends {
        add_sender(net, process, sending, senders)?;
    }
    Ok(())
}

/// A receive, if its port has a wire.
fn add_receiver(
    net: &Net,
    process: u32,
    receiving: ActiveReceive,
    receivers: &mut Vec<Receiver>,
) -> Result<(), AllocError>
    requires { HasProcess net.now process }
    ensures { (m : ModelTree) (wired : Wired m net.now process) → HasPort wired receiving.port →
        OnOk result (receivers.new.items ≡ receivers.old.items ++ option_to_list
        (receiver_of (wire_at wired) process receiving)) }
{
    let Some(wire) = wire_of(net, process, receiving.port) else {
        return Ok(());
    };
    let ActiveReceive {
        place,
        pos: _,
        port: _,
        message,
        count,
    } = receiving;
    let end = End { process, place };
    receivers.push(Receiver {
        end,
        wire,
        message,
        count,
    })?;
    Ok(())
}

/// The receives of a process whose ports have wires.
fn add_receivers(
    net: &Net,
    process: u32,
    receives: Vec<ActiveReceive>,
    receivers: &mut Vec<Receiver>,
) -> Result<(), AllocError>
    requires { HasProcess net.now process }
    ensures { (m : ModelTree) (wired : Wired m net.now process) →
        All (λ x. HasPort wired x.port) receives.items →
        OnOk result (receivers.new.items ≡ receivers.old.items ++ filter_map
        (receiver_of (wire_at wired) process) receives.items) }
{
    for receiving in receives {
        add_receiver(net, process, receiving, receivers)?;
    }
    Ok(())
}

/// The lesser of what was the least so far, if there was something, and of this.
fn lesser(least: Option<u128>, left: u128) -> u128
    ensures { result ≡ spec.lesser least left }
{
    match least {
        None => left,
        Some(least) => least.min(left),
    }
}

/// The least of what was the least so far, if there was something, and of these.
fn least_of(mut least: Option<u128>, delays: &[u128]) -> Option<u128>
    ensures { result ≡ spec.least_of least delays.now }
{
    for left in delays {
        least = Some(lesser(least, *left));
    }
    least
}

/// The trouble that was first so far, or else the first of these.
fn first_of(trouble: Option<Trouble>, troubles: &[Trouble]) -> Option<Trouble>
    ensures { result ≡ option_or trouble (slice_get troubles.now 0) }
{
    trouble.or(troubles.first().copied())
}

/// Adds what is found in a process, and whether nothing is left of it.
pub(crate) fn add_found(
    net: &Net,
    process: u32,
    found: Found,
    done: bool,
    survey: &mut Survey,
) -> Result<(), AllocError>
    requires { HasProcess net.now process }
    ensures { (m : ModelTree) (wired : Wired m net.now process) →
        All (λ x. HasPort wired x.port) found.sends.items →
        All (λ x. HasPort wired x.port) found.receives.items →
        OnOk result (Adds (wire_at wired) process found done survey.old survey.new) }
{
    let Found {
        internal,
        sends,
        receives,
        delays,
        troubles,
    } = found;
    survey.least = least_of(survey.least, delays.as_slice());
    survey.trouble = first_of(survey.trouble, troubles.as_slice());
    survey.done &= done;
    add_actions(process, internal, &mut survey.internal)?;
    add_senders(net, process, sends, &mut survey.senders)?;
    add_receivers(net, process, receives, &mut survey.receivers)
}
