ghost use Rattle.std.specs.Prelude.{◌≡◌, ◌++◌, IfOk, OnOk};
ghost use Rattle.std.specs.List.{flat_map};
ghost use Rattle.pz_term_matching.specs.Matches.{AreMatches};
ghost use Rattle.pz_term_matching.specs.devices.Chains.{AreChains};
ghost use Rattle.pz_term_matching.specs.devices.Turns.{AreTurns};
ghost use Rattle.pz_term_matching.specs.devices.Pairing.{pairs_from, pairs_of};

use crate::chains::{Chains, chains_of};
use crate::key::key_of_sender;
use crate::turns::{Turn, turns_of};
use crate::{Pair, Receiver, Sender};
use std::alloc::{AllocError, Global};

/// Puts the pairs of a sender, by its place, behind the others. Time: a step for each pair, and no
/// more for receives of its own process. The only error is want of memory.
fn match_sender(
    sender: &Sender,
    number: usize,
    receivers: &[Receiver],
    chains: &Chains<'_>,
    pairs: &mut Vec<Pair>,
) -> Result<(), AllocError>
    requires { AreChains receivers.now chains.now }
    ensures { OnOk result (pairs.new.items ≡ pairs.old.items ++ pairs_from sender.now number 0
        receivers.now) }
{
    let mut place = chains.first(key_of_sender(sender));
    while place < receivers.len() {
        let link = chains.links[place];
        if receivers[place].end.process == sender.end.process {
            place = link.elsewhere;
        } else {
            pairs.push(Pair {
                sender: number,
                receiver: place,
            })?;
            place = link.next;
        }
    }
    Ok(())
}

/// The pairs of all senders, in the order of their turns. The only error is want of memory.
fn match_all(
    alloc: Global,
    senders: &[Sender],
    turns: &[Turn],
    receivers: &[Receiver],
    chains: &Chains<'_>,
) -> Result<Vec<Pair>, AllocError>
    requires turns { AreTurns senders.now turns.now }
    requires chains { AreChains receivers.now chains.now }
    ensures { IfOk result (λ pairs. pairs.items ≡ flat_map
        (pairs_of senders.now receivers.now) turns.now) }
{
    let mut pairs = Vec::new(alloc);
    for turn in turns {
        let number = turn.sender;
        match_sender(&senders[number], number, receivers, chains, &mut pairs)?;
    }
    Ok(pairs)
}

/// The pairs that fit: they stand in two processes, on one wire, with the same message and as many
/// values. They are in order of wires, then of senders and then of receivers as these stand in the
/// lists. Time: a step for each sender, receiver and pair, but for the order of the senders, which
/// takes a logarithm more; never all with all. The only error is want of memory.
pub fn match_ends(
    alloc: Global,
    senders: &[Sender],
    receivers: &[Receiver],
) -> Result<Vec<Pair>, AllocError>
    ensures pairs { IfOk result (λ pairs. AreMatches senders.now receivers.now pairs.items) }
{
    let chains = chains_of(alloc, receivers)?;
    let turns = turns_of(alloc, senders)?;
    match_all(alloc, senders, turns.as_slice(), receivers, &chains)
}
