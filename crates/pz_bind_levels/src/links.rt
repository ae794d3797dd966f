ghost use Rattle.std.specs.Prelude.{◌≡◌, ℕ, None, Some, OnOk, if◌then◌else◌, ◌&&◌, nat_eq};
ghost use Rattle.std.specs.Option.{option_or};
ghost use Rattle.pz_bind_levels.specs.devices.Walking.{linked_in};

use indexmap::IndexMap;
use std::alloc::{AllocError, Global};

/// A port of a part, by their numbers.
#[derive(Clone, Copy, Debug, PartialEq, Eq, Hash)]
struct PartPort {
    part: usize,
    port: usize,
}

/// In which channel of a level the ports of its parts are.
#[derive(Drop)]
pub struct Links {
    map: IndexMap<PartPort, usize>,
}

impl Links {
    /// No port is in a channel yet. Takes no memory.
    pub fn new(alloc: Global) -> Links
        ensures { (part port : ℕ) → linked_in result part port ≡ None }
    {
        Links {
            map: IndexMap::new(alloc),
        }
    }

    /// The channel in which this port of this part is, if it is in one.
    pub fn get(&self, part: usize, port: usize) -> Option<usize>
        ensures { result ≡ linked_in self.now part port }
    {
        self.map.get(&PartPort { part, port }).copied()
    }

    /// Puts a port of a part into a channel, unless it is in one. The only error is want of memory.
    pub fn add(&mut self, part: usize, port: usize, channel: usize) -> Result<(), AllocError>
        ensures { OnOk result ((i p : ℕ) → linked_in self.new i p ≡ option_or
            (linked_in self.old i p) (if nat_eq i part && nat_eq p port then Some channel else
            None)) }
    {
        if self.get(part, port).is_none() {
            self.map.insert(PartPort { part, port }, channel)?;
        }
        Ok(())
    }
}
