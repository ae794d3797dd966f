ghost use Rattle.std.specs.Prelude.{◌≡◌, ◌<◌, ◌≤◌, ◌^◌, ℕ, if◌then◌else◌, nat_eq, false, OnOk};
ghost use Rattle.pz_state_flags.specs.Flags.{is_set, room, IsFirstClear};

use crate::words::{extend, first_clear_in, first_open, set_flag};
use std::alloc::{AllocError, Global};
use std::marker::Model;

/// A flag for each number from 0 on. Contracts see the words of 64 flags that have them.
#[derive(Debug, Drop)]
pub struct Flags {
    // 64 flags a word
    places: Vec<u64>,
    // a flag for each word of the level before, set where that word is full, on three levels
    words: Vec<u64>,
    groups: Vec<u64>,
    blocks: Vec<u64>,
}

impl Model for Flags {
    ghost use Rattle.std.specs.Prelude.{ℕ, List};
    ghost use Rattle.pz_state_flags.specs.devices.Fields.{IsKept};

    ghost Value = { List ℕ };

    ghost view = { λ f. f.places.items };

    ghost invariant = { IsKept };
}

impl Flags {
    /// No flag is set. Takes no memory.
    pub fn new(alloc: Global) -> Flags
        ensures clear { (i : ℕ) → is_set result i ≡ false }
        ensures room { room result ≡ 0 }
    {
        Flags {
            places: Vec::new(alloc),
            words: Vec::new(alloc),
            groups: Vec::new(alloc),
            blocks: Vec::new(alloc),
        }
    }

    /// The first number whose flag is not set. Takes constant time: it reads four words, and one more
    /// for each further 16,777,216 numbers that there is room for.
    pub fn first_clear(&self) -> usize
        ensures { IsFirstClear self.now result }
    {
        let block = first_open(&self.blocks);
        let group = first_clear_in(&self.blocks, block);
        let word = first_clear_in(&self.groups, group);
        let place = first_clear_in(&self.words, word);
        first_clear_in(&self.places, place)
    }

    /// Makes room for one more number, if there is none. The only error is want of memory; flags stay
    /// in any case.
    pub fn reserve(&mut self, number: usize) -> Result<(), AllocError>
        requires next { number ≤ room self.old }
        requires small { number < 2 ^ 63 }
        ensures flags { (i : ℕ) → is_set self.new i ≡ is_set self.old i }
        ensures ok { OnOk result (number < room self.new) }
        ensures room { room self.old ≤ room self.new }
    {
        let place = number / 64;
        let word = place / 64;
        let group = word / 64;
        extend(&mut self.blocks, group / 64)?;
        extend(&mut self.groups, group)?;
        extend(&mut self.words, word)?;
        extend(&mut self.places, place)
    }

    /// Sets or clears a flag. Takes no memory.
    pub fn set(&mut self, number: usize, flag: bool)
        requires { number < room self.old }
        ensures flags { (i : ℕ) → is_set self.new i ≡
            if nat_eq i number then flag else is_set self.old i }
        ensures room { room self.new ≡ room self.old }
    {
        let place = number / 64;
        let word = place / 64;
        let group = word / 64;
        let full = set_flag(&mut self.places, number, flag);
        let full = set_flag(&mut self.words, place, full);
        let full = set_flag(&mut self.groups, word, full);
        let _full = set_flag(&mut self.blocks, group, full);
    }
}
