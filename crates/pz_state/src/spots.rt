//! What an assignment changes.

ghost use Rattle.std.specs.Prelude.{◌≡◌};
ghost use Rattle.pz_state.specs.devices.Spots.{spot_of};

use crate::journal::{Change, Entry};

/// A variable, a local of a frame, or an item of an object.
#[derive(Clone, Copy, Debug, PartialEq, Eq)]
pub enum Spot {
    Variable { slot: u32 },
    Local { frame: u64, slot: usize },
    Item { object: u32, place: u32 },
}

/// The spot whose former value an entry of a journal notes, if it notes one.
pub fn noted_spot(entry: &Entry) -> Option<Spot>
    ensures { result ≡ spot_of entry.now }
{
    match entry {
        Entry::Change(Change::Variable { slot, .. }) => Some(Spot::Variable { slot: *slot }),
        Entry::Change(Change::Local { frame, slot, .. }) => Some(Spot::Local {
            frame: *frame,
            slot: *slot,
        }),
        Entry::Change(Change::Item { object, place, .. }) => Some(Spot::Item {
            object: *object,
            place: *place,
        }),
        _ => None,
    }
}
