ghost use Rattle.std.specs.Prelude.{◌≡◌, ◌<◌, ◌≤◌, ◌+◌, ◌-◌, [], ◌++◌, length, replicate, sum, take, drop, slice_index, slice_set, OnOk, OnErr, MatchOption};

use std::alloc::{AllocError, Global};
use std::marker::Model;

/// How many numbers there are in a block.
const BLOCK: usize = 64;

/// Numbers with their sum. Contracts see the list of the numbers.
#[derive(Drop)]
pub struct Counts {
    numbers: Vec<u64>,
    /// The sum of each block, so that whole blocks are passed over.
    blocks: Vec<u64>,
    total: u64,
}

impl Model for Counts {
    ghost use Rattle.std.specs.Prelude.{List, ℕ};
    ghost use Rattle.pz_match_lists.specs.devices.Blocks.{AreSummed};

    ghost Value = { List ℕ };

    ghost view = { λ c. c.numbers.items };

    ghost invariant = { λ c. AreSummed c.numbers.items c.blocks.items c.total };
}

impl Counts {
    /// None yet. Takes no memory.
    pub fn new(alloc: Global) -> Counts
        ensures { result ≡ [] }
    {
        Counts {
            numbers: Vec::new(alloc),
            blocks: Vec::new(alloc),
            total: 0,
        }
    }

    /// How many numbers there are.
    pub fn len(&self) -> usize
        ensures { result ≡ length self.now }
    {
        self.numbers.len()
    }

    /// The sum of all.
    pub fn total(&self) -> u64
        ensures { result ≡ sum self.now }
    {
        self.total
    }

    /// The number at this place; 0 behind the end.
    pub fn at(&self, place: usize) -> u64
        ensures { result ≡ slice_index self.now place }
    {
        match self.numbers.get(place) {
            Some(number) => *number,
            None => 0,
        }
    }

    /// Has at least so many numbers: zeros are added. The only error is want of memory, and then
    /// nothing changes.
    pub fn reach(&mut self, len: usize) -> Result<(), AllocError>
        ensures ok { OnOk result (self.new ≡ self.old ++ replicate (len - length self.old) 0) }
        ensures err { OnErr result (self.new ≡ self.old) }
    {
        let blocks = self.blocks.len().max(len / BLOCK + 1);
        self.blocks.resize(blocks, 0)?;
        if self.numbers.len() < len {
            self.numbers.resize(len, 0)?;
        }
        Ok(())
    }

    /// Puts another number at this place. The only error is that the sum would be 2^64 or more, and
    /// then nothing changes.
    pub fn put(&mut self, place: usize, number: u64) -> Result<(), AllocError>
        requires { place < length self.old }
        ensures ok { OnOk result (self.new ≡ slice_set self.old place number) }
        ensures err { OnErr result (self.new ≡ self.old) }
    {
        let before = self.numbers[place];
        let Some(total) = (self.total - before).checked_add(number) else {
            return Err(AllocError);
        };
        let block = place / BLOCK;
        let others = self.blocks[block] - before;
        self.blocks[block] = others + number;
        self.numbers[place] = number;
        self.total = total;
        Ok(())
    }

    /// The place at which the sum of the numbers up to there passes this one, and how much of it the
    /// numbers before that place leave; none where it is not below the sum of all.
    pub fn find(&self, rest: u64) -> Option<(usize, u64)>
        ensures { MatchOption result (sum self.now ≤ rest)
            (λ x. (x.0 < length self.now) × (sum (take x.0 self.now) + x.1 ≡ rest)
            × (x.1 < slice_index self.now x.0)) }
    {
        match find_in(self.blocks.as_slice(), 0, rest) {
            None => None,
            Some((block, left)) => find_in(self.numbers.as_slice(), block * BLOCK, left),
        }
    }
}

/// The place, from this one on, at which the sum of the numbers from there passes this one, and how much
/// is left there.
fn find_in(numbers: &[u64], start: usize, number: u64) -> Option<(usize, u64)>
    ensures { MatchOption result (sum (drop start numbers.now) ≤ number)
        (λ x. (x.0 < length numbers.now)
        × (sum (take x.0 numbers.now) + x.1 ≡ sum (take start numbers.now) + number)
        × (x.1 < slice_index numbers.now x.0)) }
{
    let mut rest = number;
    for place in start..numbers.len() {
        if rest < numbers[place] {
            return Some((place, rest));
        }
        rest -= numbers[place];
    }
    None
}
