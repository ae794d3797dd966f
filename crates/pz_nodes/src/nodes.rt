ghost use Rattle.std.specs.Prelude.{◌≡◌, ◌+◌, ◌<◌, ◌≤◌, [], Some, None, OnOk, OnSome, IfNone, option_copied};
ghost use Rattle.pz_nodes.specs.Arena.{find, live, Updates};

use crate::Steps;
use slab::Slab;
use std::alloc::{AllocError, Global};
use std::marker::Model;
use std::mem;
use std::sync::ledger::Ledger;

/// Names a node.
pub type Key = usize;

/// Nodes of one type, each under a key that the map picks. Contracts see what is under each key, and how
/// many more nodes there is room for. `insert`, `get`, `set` and `remove` count one step each.
#[derive(Drop)]
pub struct Nodes<T> {
    slab: Slab<T>,
}

impl<T> Model for Nodes<T> {
    ghost use Rattle.std.specs.Prelude.{◌-◌};
    ghost use Rattle.slab.specs.Slab.{slab_len};
    ghost use Rattle.pz_nodes.specs.Arena.{Arena, arena_code};

    ghost Value = { Arena T };

    ghost coded = { arena_code T.code };

    ghost view = { λ n. record { slots = n.slab.slots; spare = n.slab.capacity - slab_len n.slab } };
}

impl<T> Nodes<T> {
    /// There is no node. Takes no memory.
    pub fn new(alloc: Global) -> Nodes<T>
        ensures { result.slots ≡ [] }
    {
        Nodes {
            slab: Slab::new(alloc),
        }
    }

    /// Makes room for so many more nodes. The only error is want of memory; the nodes stay in any case.
    pub fn reserve(&mut self, more: usize) -> Result<(), AllocError>
        ensures room { OnOk result (more ≤ self.new.spare) }
        ensures spare { self.old.spare ≤ self.new.spare }
        ensures nodes { self.new.slots ≡ self.old.slots }
    {
        self.slab.reserve(more)
    }

    /// Puts a node under a key that had none. Takes no memory.
    pub fn insert<L: Ledger>(&mut self, node: T, steps: &mut Steps<L>) -> Key
        requires { 0 < self.old.spare }
        ensures vacant { find self.old result ≡ None }
        ensures updates { Updates self.old self.new result (Some node) }
        ensures spare { self.new.spare + 1 ≡ self.old.spare }
        ensures more { live self.new ≡ live self.old + 1 }
        ensures ticks { steps.new ≡ steps.old + 1 }
    {
        steps.tick();
        self.slab.insert_reserved(node)
    }

    /// The node under the key; None exactly where there is none. Takes no memory.
    pub fn get<L: Ledger>(&self, key: Key, steps: &mut Steps<L>) -> Option<&T>
        ensures value { option_copied result ≡ find self.now key }
        ensures ticks { steps.new ≡ steps.old + 1 }
    {
        steps.tick();
        self.slab.get(key)
    }

    /// Takes out the node under the key; None exactly where there is none. Takes no memory.
    pub fn remove<L: Ledger>(&mut self, key: Key, steps: &mut Steps<L>) -> Option<T>
        ensures value { result ≡ find self.old key }
        ensures updates { Updates self.old self.new key None }
        ensures spare { OnSome result (self.new.spare ≡ self.old.spare + 1) }
        ensures absent { IfNone result (self.new ≡ self.old) }
        ensures fewer { OnSome result (live self.new + 1 ≡ live self.old) }
        ensures ticks { steps.new ≡ steps.old + 1 }
    {
        steps.tick();
        self.slab.try_remove(key)
    }
}

impl<T: Drop> Nodes<T> {
    /// Puts another node under the key and hands back the old one; None exactly where there is none, and
    /// then the given node is dropped. Takes no memory.
    pub fn set<L: Ledger>(&mut self, key: Key, node: T, steps: &mut Steps<L>) -> Option<T>
        ensures value { result ≡ find self.old key }
        ensures updates { OnSome result (Updates self.old self.new key (Some node)) }
        ensures absent { IfNone result (self.new ≡ self.old) }
        ensures spare { self.new.spare ≡ self.old.spare }
        ensures ticks { steps.new ≡ steps.old + 1 }
    {
        steps.tick();
        match self.slab.get_mut(key) {
            None => None,
            Some(slot) => Some(mem::replace(slot, node)),
        }
    }
}
