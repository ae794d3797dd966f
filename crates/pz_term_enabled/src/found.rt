ghost use Rattle.std.specs.Prelude.{◌≡◌, []};

use pz_classes_code::pz_syntax::{Name, Pos};
use pz_rules::Kind;
use pz_rules::pz_copy::Parcel;
use pz_rules::pz_offer::{Place, Trouble};
use std::alloc::Global;

/// An internal action that an active part can do.
#[derive(Drop)]
pub struct Doing {
    pub place: Place,
    pub kind: Kind,
    pub pos: Pos,
}

/// An active send, with the parcel that it would hand over now.
#[derive(Drop)]
pub struct ActiveSend {
    pub place: Place,
    pub pos: Pos,
    pub port: u32,
    pub message: Name,
    pub parcel: Parcel,
}

/// An active receive, of so many values.
#[derive(Drop)]
pub struct ActiveReceive {
    pub place: Place,
    pub pos: Pos,
    pub port: u32,
    pub message: Name,
    pub count: usize,
}

/// What is found in a term, each list in the order of places.
#[derive(Drop)]
pub struct Found {
    pub internal: Vec<Doing>,
    pub sends: Vec<ActiveSend>,
    pub receives: Vec<ActiveReceive>,
    /// What is left of the active delays, in clock units.
    pub delays: Vec<u128>,
    /// The troubles of what is asked.
    pub troubles: Vec<Trouble>,
}

impl Found {
    /// Nothing yet. Takes no memory.
    pub fn new(alloc: Global) -> Found
        ensures internal { result.internal.items ≡ [] }
        ensures sends { result.sends.items ≡ [] }
        ensures receives { result.receives.items ≡ [] }
        ensures delays { result.delays.items ≡ [] }
        ensures troubles { result.troubles.items ≡ [] }
    {
        Found {
            internal: Vec::new(alloc),
            sends: Vec::new(alloc),
            receives: Vec::new(alloc),
            delays: Vec::new(alloc),
            troubles: Vec::new(alloc),
        }
    }
}
