ghost use Rattle.std.specs.Prelude.{◌≡◌, [], None, true};

use pz_rules::Action;
use pz_rules::pz_offer::Trouble;
use pz_term_matching::{Receiver, Sender};
use std::alloc::Global;

/// What is found in all processes.
#[derive(Drop)]
pub struct Survey {
    /// The internal actions that are offered, in their order.
    pub internal: Vec<Action>,
    /// The active sends whose ports have a wire, by process and then place.
    pub senders: Vec<Sender>,
    /// The active receives whose ports have a wire, by process and then place.
    pub receivers: Vec<Receiver>,
    /// The least that is left of an active delay, in clock units.
    pub least: Option<u128>,
    /// The first trouble of what active parts are asked, by process and then place.
    pub trouble: Option<Trouble>,
    /// Whether nothing is left of any process.
    pub done: bool,
}

impl Survey {
    /// That of no process. Takes no memory.
    pub(crate) fn new(alloc: Global) -> Survey
        ensures internal { result.internal.items ≡ [] }
        ensures senders { result.senders.items ≡ [] }
        ensures receivers { result.receivers.items ≡ [] }
        ensures least { result.least ≡ None }
        ensures trouble { result.trouble ≡ None }
        ensures done { result.done ≡ true }
    {
        Survey {
            internal: Vec::new(alloc),
            senders: Vec::new(alloc),
            receivers: Vec::new(alloc),
            least: None,
            trouble: None,
            done: true,
        }
    }
}
