// Sets of ends, by names.

ghost use Rattle.std.specs.Prelude.{◌≡◌, [], not, IfOk, OnOk};
ghost use Rattle.pz_env.specs.devices.Ends.{ends_in, named, has_end, number_of, with_end};

use indexmap::IndexSet;
use std::alloc::{AllocError, Global};

/// A port of an instance, by their names.
#[derive(Clone, Copy, Debug, PartialEq, Eq, Hash)]
pub(crate) struct End<'a> {
    instance: &'a [u8],
    port: &'a [u8],
}

/// Ends, each of which it has once, numbered from 0 in the order in which they were added.
#[derive(Drop)]
pub(crate) struct EndSet<'a> {
    set: IndexSet<End<'a>>,
}

/// The number of an end in a set, and whether it was added.
#[derive(Clone, Copy)]
pub(crate) struct Numbered {
    pub(crate) number: usize,
    pub(crate) is_new: bool,
}

impl<'a> EndSet<'a> {
    /// No end yet. Takes no memory.
    pub(crate) fn new(alloc: Global) -> EndSet<'a>
        ensures { ends_in result ≡ [] }
    {
        EndSet {
            set: IndexSet::new(alloc),
        }
    }

    pub(crate) fn has(&self, instance: &'a [u8], port: &'a [u8]) -> bool
        ensures { result ≡ has_end (ends_in self.now) (named instance.now port.now) }
    {
        self.set.contains(&End { instance, port })
    }

    /// Adds an end, unless it is there. The only error is want of memory.
    pub(crate) fn add(&mut self, instance: &'a [u8], port: &'a [u8]) -> Result<Numbered, AllocError>
        ensures added { OnOk result (ends_in self.new ≡ with_end (ends_in self.old)
            (named instance.now port.now)) }
        ensures number { IfOk result (λ n. n.number ≡ number_of (ends_in self.old)
            (named instance.now port.now)) }
        ensures fresh { IfOk result (λ n. n.is_new ≡ not (has_end (ends_in self.old)
            (named instance.now port.now))) }
    {
        let (number, is_new) = self.set.insert_full(End { instance, port })?;
        Ok(Numbered { number, is_new })
    }
}
