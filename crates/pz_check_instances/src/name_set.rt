ghost use Rattle.std.specs.Prelude.{◌≡◌, [], not, length, take, IfOk, OnOk};
ghost use Rattle.pz_classes.specs.pz_classes_rules.Members.{spelled, grouped};
ghost use Rattle.pz_check_instances.specs.devices.NameSets.{names_in, has_name, with_name, with_all};

use indexmap::IndexSet;
use pz_classes_code::pz_syntax::{Id, VarGroup};
use std::alloc::{AllocError, Global};

/// Names, each of which it has once, in the order in which they were added.
#[derive(Drop)]
pub(crate) struct NameSet<'a> {
    set: IndexSet<&'a [u8]>,
}

impl<'a> NameSet<'a> {
    /// No name yet. Takes no memory.
    pub(crate) fn new(alloc: Global) -> NameSet<'a>
        ensures { names_in result ≡ [] }
    {
        NameSet {
            set: IndexSet::new(alloc),
        }
    }

    /// How many names there are.
    pub(crate) fn len(&self) -> usize
        ensures { result ≡ length (names_in self.now) }
    {
        self.set.len()
    }

    pub(crate) fn has(&self, name: &[u8]) -> bool
        ensures { result ≡ has_name (names_in self.now) name.now }
    {
        self.set.contains(name)
    }

    /// Adds a name, and tells whether it is new. The only error is want of memory.
    pub(crate) fn add(&mut self, name: &'a [u8]) -> Result<bool, AllocError>
        ensures added { OnOk result (names_in self.new ≡ with_name (names_in self.old) name.now) }
        ensures fresh { IfOk result (λ is_new. is_new ≡ not
            (has_name (names_in self.old) name.now)) }
    {
        Ok(self.set.insert(name)?)
    }

    /// Adds the names of these. The only error is want of memory.
    pub(crate) fn add_ids(&mut self, ids: &'a [Id]) -> Result<(), AllocError>
        ensures { OnOk result (names_in self.new ≡ with_all (names_in self.old) (spelled ids.now)) }
    {
        for id in ids {
            self.add(id.name.as_str().as_bytes())?;
        }
        Ok(())
    }

    /// Adds the names of these groups. The only error is want of memory.
    pub(crate) fn add_groups(&mut self, groups: &'a [VarGroup]) -> Result<(), AllocError>
        ensures { OnOk result (names_in self.new ≡ with_all (names_in self.old)
            (spelled (grouped groups.now))) }
    {
        for group in groups {
            self.add_ids(group.names.as_slice())?;
        }
        Ok(())
    }

    /// Keeps the first so many names.
    pub(crate) fn truncate(&mut self, count: usize)
        ensures { names_in self.new ≡ take count (names_in self.old) }
    {
        self.set.truncate(count);
    }
}
