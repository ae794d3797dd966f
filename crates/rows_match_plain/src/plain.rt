//! The pairs of few processes, found by looking at every two offers on every wire. It knows nothing of
//! the table: it is what the table is held against.

use crate::answers::{Rule, Spot, said};
use crate::words::{Kind, Wish};
use pz_offer::Verdict;
use std::alloc::{AllocError, Global};

/// An offer of a process.
#[derive(Clone, Copy)]
pub struct Stand {
    pub spot: Spot,
    pub wish: Wish,
    /// The number of the update in which the process came to offer it.
    pub since: u32,
}

/// A pair that fits.
#[derive(Clone, Copy)]
pub struct Couple {
    /// What is sent.
    pub wish: Wish,
    pub sender: Spot,
    pub receiver: Spot,
    pub conditional: bool,
    pub verdict: Verdict,
}

/// The offers of all processes but one, in their order.
fn add_others(
    stands: &mut Vec<Stand>,
    old: &[Stand],
    process: u32,
    before: bool,
) -> Result<(), AllocError> {
    for stand in old {
        let is_before = stand.spot.process < process;
        if stand.spot.process != process && is_before == before {
            stands.push(*stand)?;
        }
    }
    Ok(())
}

fn add_own(
    stands: &mut Vec<Stand>,
    process: u32,
    wishes: &[Wish],
    since: u32,
) -> Result<(), AllocError> {
    for (place, wish) in wishes.iter().enumerate() {
        stands.push(Stand {
            spot: Spot { process, place },
            wish: *wish,
            since,
        })?;
    }
    Ok(())
}

/// The offers once a process has others.
pub fn replaced(
    alloc: Global,
    old: &[Stand],
    process: u32,
    wishes: &[Wish],
    since: u32,
) -> Result<Vec<Stand>, AllocError> {
    let mut stands = Vec::new(alloc);
    add_others(&mut stands, old, process, true)?;
    add_own(&mut stands, process, wishes, since)?;
    add_others(&mut stands, old, process, false)?;
    Ok(stands)
}

fn on_wire(stand: &Stand, wire: u32) -> bool {
    match stand.wish.wire {
        Some(number) => number == wire,
        None => false,
    }
}

/// Whether one is a send and the other a receive of another process, with as much in common as a pair
/// has.
fn fit(send: &Stand, receive: &Stand) -> bool {
    send.wish.kind == Kind::Send
        && receive.wish.kind != Kind::Send
        && send.spot.process != receive.spot.process
        && send.wish.second == receive.wish.second
        && send.wish.values == receive.wish.values
}

/// A pair that fits. A condition was last asked when the later of the two came.
fn couple_of(send: &Stand, receive: &Stand) -> Couple {
    let conditional = receive.wish.kind == Kind::Asking;
    let rule = if conditional {
        Rule::Mixed(send.since.max(receive.since))
    } else {
        Rule::Yes
    };
    Couple {
        wish: send.wish,
        sender: send.spot,
        receiver: receive.spot,
        conditional,
        verdict: said(rule, send.spot, receive.spot),
    }
}

/// The pairs of a send on a wire.
fn add_couples(
    couples: &mut Vec<Couple>,
    stands: &[Stand],
    send: &Stand,
    wire: u32,
) -> Result<(), AllocError> {
    for receive in stands {
        if on_wire(receive, wire) && fit(send, receive) {
            couples.push(couple_of(send, receive))?;
        }
    }
    Ok(())
}

/// The pairs on a wire.
fn add_wire(couples: &mut Vec<Couple>, stands: &[Stand], wire: u32) -> Result<(), AllocError> {
    for send in stands {
        if on_wire(send, wire) {
            add_couples(couples, stands, send, wire)?;
        }
    }
    Ok(())
}

/// All pairs on so many wires, in their order.
pub fn couples(alloc: Global, stands: &[Stand], wires: u32) -> Result<Vec<Couple>, AllocError> {
    let mut couples = Vec::new(alloc);
    for wire in 0..wires {
        add_wire(&mut couples, stands, wire)?;
    }
    Ok(couples)
}
