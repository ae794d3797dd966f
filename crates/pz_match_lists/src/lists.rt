ghost use Rattle.std.specs.Prelude.{◌≡◌, ◌<◌, ℕ, [], length, Contains, OnOk};
ghost use Rattle.pz_match_lists.specs.Increasing.{Increasing, list_at};

use crate::numbers::Numbers;
use std::alloc::{AllocError, Global};
use std::marker::Model;

/// Increasing lists of numbers, by the number of the list. Contracts see the lists.
#[derive(Drop)]
pub struct Lists {
    lists: Vec<Numbers>,
}

impl Model for Lists {
    ghost use Rattle.std.specs.Prelude.{List, ℕ};

    ghost Value = { List (List ℕ) };

    ghost view = { λ l. l.lists.items };
}

impl Lists {
    /// None yet. Takes no memory.
    pub fn new(alloc: Global) -> Lists
        ensures { result ≡ [] }
    {
        Lists {
            lists: Vec::new(alloc),
        }
    }

    /// The list with this number; an empty one behind the end.
    pub fn list(&self, list: usize) -> &[usize]
        ensures list { result.now ≡ list_at self.now list }
        ensures increasing { Increasing result.now }
    {
        match self.lists.get(list) {
            Some(numbers) => numbers.as_slice(),
            None => &[],
        }
    }

    /// Puts a number into a list, if it is not there. The only error is want of memory, and then the
    /// lists have what they had.
    pub fn add(&mut self, list: u32, number: usize) -> Result<(), AllocError>
        ensures has { OnOk result (Contains (list_at self.new list) number) }
        ensures keeps { (k n : ℕ) → Contains (list_at self.old k) n →
            Contains (list_at self.new k) n }
    {
        self.reach(list)?;
        self.lists[list as usize].add(number)
    }

    /// There is a list with this number: further ones are empty. The only error is want of memory.
    fn reach(&mut self, list: u32) -> Result<(), AllocError>
        ensures there { OnOk result (list < length self.new) }
        ensures same { (k : ℕ) → list_at self.new k ≡ list_at self.old k }
    {
        let alloc = *self.lists.allocator();
        for _ in self.lists.len()..list as usize + 1 {
            self.lists.push(Numbers::new(alloc))?;
        }
        Ok(())
    }
}
