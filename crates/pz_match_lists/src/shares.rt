ghost use Rattle.std.specs.Prelude.{◌≡◌, ◌<◌, ◌&&◌, ℕ, [], nat_eq, if◌then◌else◌, length, OnOk, IfOk, IfErr};
ghost use Rattle.pz_match_lists.specs.Shares.{no_share, share_in, share_at};
ghost use Rattle.pz_match_lists.specs.devices.Parts.{IsPartAt, IsGapFor};

use std::alloc::{AllocError, Global};
use std::marker::Model;

/// What a block of processes has of a group.
#[derive(Clone, Copy)]
pub struct Share {
    pub sends: u64,
    /// Receives without a condition.
    pub free: u64,
    /// Pairs of these that would be of one process.
    pub own: u64,
}

/// A share with the number of its block.
#[derive(Clone, Copy)]
pub struct Part {
    pub block: usize,
    pub share: Share,
}

const NO_SHARE: Share = Share {
    sends: 0,
    free: 0,
    own: 0,
};

/// The shares of a group, in the order of their blocks.
#[derive(Drop)]
struct Parts {
    parts: Vec<Part>,
}

impl Model for Parts {
    ghost use Rattle.std.specs.Prelude.{List};
    ghost use Rattle.pz_match_lists.specs.declared.shares.Part.{Part};
    ghost use Rattle.pz_match_lists.specs.devices.Parts.{AreOrdered};

    ghost Value = { List Part };

    ghost view = { λ p. p.parts.items };

    ghost invariant = { λ p. AreOrdered p.parts.items };
}

impl Parts {
    fn new(alloc: Global) -> Parts
        ensures { result ≡ [] }
    {
        Parts {
            parts: Vec::new(alloc),
        }
    }

    /// The share of a block, which has nothing unless something was put there.
    fn at(&self, block: usize) -> Share
        ensures { result ≡ share_in self.now block }
    {
        match self.search(block) {
            Ok(place) => self.parts[place].share,
            Err(_) => NO_SHARE,
        }
    }

    /// A block has another share. The only error is want of memory, and then nothing changes.
    fn put(&mut self, block: usize, share: Share) -> Result<(), AllocError>
        ensures { OnOk result ((b : ℕ) → share_in self.new b ≡
            (if nat_eq block b then share else share_in self.old b)) }
    {
        match self.search(block) {
            Ok(place) => {
                self.parts[place] = Part { block, share };
                Ok(())
            }
            Err(place) => Ok(self.parts.insert(place, Part { block, share })?),
        }
    }

    /// Where the share of a block is, or where it would go.
    fn search(&self, block: usize) -> Result<usize, usize>
        ensures found { IfOk result (IsPartAt self.now block) }
        ensures absent { IfErr result (IsGapFor self.now block) }
    {
        self.parts.binary_search_by_key(&block, |part| part.block)
    }
}

/// Shares by the numbers of their groups and blocks. Contracts see the parts of each group.
#[derive(Drop)]
pub struct Shares {
    groups: Vec<Parts>,
}

impl Model for Shares {
    ghost use Rattle.std.specs.Prelude.{List};
    ghost use Rattle.pz_match_lists.specs.declared.shares.Part.{Part};

    ghost Value = { List (List Part) };

    ghost view = { λ s. s.groups.items };
}

impl Shares {
    /// None yet. Takes no memory.
    pub fn new(alloc: Global) -> Shares
        ensures { result ≡ [] }
    {
        Shares {
            groups: Vec::new(alloc),
        }
    }

    /// The share of a block in a group; nothing unless something was put there.
    pub fn at(&self, group: usize, block: usize) -> Share
        ensures { result ≡ share_at self.now group block }
    {
        match self.groups.get(group) {
            Some(parts) => parts.at(block),
            None => NO_SHARE,
        }
    }

    /// A block has another share in a group. The only error is want of memory.
    pub fn put(&mut self, group: usize, block: usize, share: Share) -> Result<(), AllocError>
        ensures { OnOk result ((g b : ℕ) → share_at self.new g b ≡
            (if nat_eq group g && nat_eq block b then share else share_at self.old g b)) }
    {
        self.reach(group)?;
        self.groups[group].put(block, share)
    }

    /// There is a group with this number: further ones have nothing. The only error is want of memory.
    fn reach(&mut self, group: usize) -> Result<(), AllocError>
        ensures there { OnOk result (group < length self.new) }
        ensures same { (g b : ℕ) → share_at self.new g b ≡ share_at self.old g b }
    {
        let Some(len) = group.checked_add(1) else {
            return Err(AllocError);
        };
        let alloc = *self.groups.allocator();
        for _ in self.groups.len()..len {
            self.groups.push(Parts::new(alloc))?;
        }
        Ok(())
    }
}
