// The senders in the order of their wires.

ghost use Rattle.std.specs.Prelude.{IfOk};
ghost use Rattle.pz_term_matching.specs.devices.Turns.{AreTurns};

use crate::Sender;
use std::alloc::{AllocError, Global};

/// A sender, by its place in the list, and its wire.
#[derive(Clone, Copy, PartialEq, Eq, PartialOrd, Ord)]
pub(crate) struct Turn {
    wire: u32,
    pub(crate) sender: usize,
}

/// Each sender, those of a wire as they stand in the list. The only error is want of memory.
pub(crate) fn turns_of(alloc: Global, senders: &[Sender]) -> Result<Vec<Turn>, AllocError>
    ensures { IfOk result (λ turns. AreTurns senders.now turns.items) }
{
    let mut turns = Vec::with_capacity(alloc, senders.len())?;
    for (place, sender) in senders.iter().enumerate() {
        turns.push(Turn {
            wire: sender.wire,
            sender: place,
        })?;
    }
    turns.sort()?;
    Ok(turns)
}
