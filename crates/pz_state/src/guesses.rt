//! Where a journal notes a spot, as a guess.

use crate::journal::Entry;
use crate::spots::{Spot, noted_spot};
use std::alloc::{AllocError, Global};

/// How many guesses there are for a spot.
pub const GUESSES: usize = 8;

/// For each spot a few guesses where the journal notes it. A guess may be wrong: whoever takes one
/// looks there. So it need not be taken away when the journal gets shorter.
#[derive(Debug, Drop)]
pub struct Guesses {
    // as many as a power of two, or none; the guesses for a spot stand in a row, and begin again
    // from the first behind the last
    table: Vec<u32>,
}

/// A number for each spot, which is another one for spots that stand in a row.
fn number_of(spot: Spot) -> usize {
    match spot {
        Spot::Variable { slot } => slot as usize,
        Spot::Local { frame, slot } => (frame as usize)
            .wrapping_mul(0x9E37_79B1)
            .wrapping_add(slot),
        Spot::Item { object, place } => (object as usize)
            .wrapping_mul(0x85EB_CA77)
            .wrapping_add(place as usize),
    }
}

impl Guesses {
    /// None. Takes no memory.
    pub fn new(alloc: Global) -> Guesses {
        Guesses {
            table: Vec::new(alloc),
        }
    }

    /// Where a guess stands in the table.
    fn index(&self, spot: Spot, guess: usize) -> usize {
        number_of(spot).wrapping_add(guess) & self.table.len().wrapping_sub(1)
    }

    /// One of the guesses for a spot: 0, if there is none.
    pub fn get(&self, spot: Spot, guess: usize) -> usize {
        let index = self.index(spot, guess);
        if index < self.table.len() {
            self.table[index] as usize
        } else {
            0
        }
    }

    /// The first guess for a spot that is none of the places between these, else the first.
    fn free(&self, spot: Spot, low: usize, high: usize) -> usize {
        for guess in 0..GUESSES {
            let place = self.get(spot, guess);
            if place <= low || place >= high {
                return guess;
            }
        }
        0
    }

    /// Guesses that a journal notes a spot at a place, instead of a guess that is none of the places
    /// between a lower one and this.
    pub fn put(&mut self, spot: Spot, low: usize, place: usize) {
        let guess = self.free(spot, low, place);
        let index = self.index(spot, guess);
        if index < self.table.len() {
            self.table[index] = u32::try_from(place).unwrap_or(0);
        }
    }

    /// Guesses for all spots that a journal notes.
    fn put_all(&mut self, entries: &[Entry]) {
        for (place, entry) in entries.iter().enumerate() {
            if let Some(spot) = noted_spot(entry) {
                self.put(spot, 0, place);
            }
        }
    }

    /// Makes room for guesses in a journal that gets longer. The only error is want of memory.
    pub fn reserve(&mut self, entries: &[Entry]) -> Result<(), AllocError> {
        let size = self.table.len();
        if entries.len() < size / 2 {
            return Ok(());
        }
        self.table = Vec::from_elem(*self.table.allocator(), 0, size.saturating_mul(2).max(16))?;
        self.put_all(entries);
        Ok(())
    }
}
