ghost use Rattle.std.specs.Prelude.{◌≡◌, ◌<◌, ◌≤◌, ℕ, [], length, slice_index, Contains, OnOk};
ghost use Rattle.pz_match_lists.specs.Increasing.{Increasing};

use std::alloc::{AllocError, Global};
use std::marker::Model;

/// Increasing numbers, each once. Contracts see the list.
#[derive(Drop)]
pub struct Numbers {
    numbers: Vec<usize>,
}

impl Model for Numbers {
    ghost use Rattle.std.specs.Prelude.{List, ℕ};
    ghost use Rattle.pz_match_lists.specs.Increasing.{Increasing};

    ghost Value = { List ℕ };

    ghost view = { λ n. n.numbers.items };

    ghost invariant = { λ n. Increasing n.numbers.items };
}

impl Numbers {
    /// None yet. Takes no memory.
    pub fn new(alloc: Global) -> Numbers
        ensures { result ≡ [] }
    {
        Numbers {
            numbers: Vec::new(alloc),
        }
    }

    /// In their order.
    pub fn as_slice(&self) -> &[usize]
        ensures list { result.now ≡ self.now }
        ensures increasing { Increasing result.now }
    {
        self.numbers.as_slice()
    }

    /// None any more; the room is kept.
    pub fn clear(&mut self)
        ensures { self.new ≡ [] }
    {
        self.numbers.clear();
    }

    /// Puts a number at its place, if it is not there. The only error is want of memory, and then the
    /// numbers are those that were there.
    pub fn add(&mut self, number: usize) -> Result<(), AllocError>
        ensures has { OnOk result (Contains self.new number) }
        ensures keeps { (n : ℕ) → Contains self.old n → Contains self.new n }
    {
        match self.numbers.binary_search(&number) {
            Ok(_) => Ok(()),
            Err(place) => Ok(self.numbers.insert(place, number)?),
        }
    }

    /// Puts each of these numbers at its place. The only error is want of memory, and then those that
    /// were there are there still.
    pub fn add_all(&mut self, numbers: &[usize]) -> Result<(), AllocError>
        ensures has { OnOk result ((n : ℕ) → Contains numbers.now n → Contains self.new n) }
        ensures keeps { (n : ℕ) → Contains self.old n → Contains self.new n }
    {
        for number in numbers {
            self.add(*number)?;
        }
        Ok(())
    }
}

/// How many of these numbers are below one, where they increase.
pub fn below(numbers: &[usize], number: usize) -> usize
    requires { Increasing numbers.now }
    ensures within { result ≤ length numbers.now }
    ensures before { (k : ℕ) → k < result → slice_index numbers.now k < number }
    ensures behind { (k : ℕ) → result ≤ k → k < length numbers.now →
        number ≤ slice_index numbers.now k }
{
    match numbers.binary_search(&number) {
        Ok(place) | Err(place) => place,
    }
}
