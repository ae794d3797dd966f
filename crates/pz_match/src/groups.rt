use crate::finding::find;
use crate::skipping::taken_from;
use pz_match_lists::{Counts, Lists, Shares};
use pz_offer::Verdict;
use pz_syntax::Name;
use std::alloc::{AllocError, Global};
use std::marker::Model;

/// Pairs of one sort.
#[derive(Clone, Copy)]
pub(crate) enum Sort {
    /// Those that are taken.
    Taken,
    /// Those whose condition has a trouble.
    Troubled,
}

impl Sort {
    ghost use Rattle.std.specs.Prelude.{◌≡◌};
    ghost use Rattle.pz_match.specs.devices.Seeking.{wants};

    /// Whether a pair with this verdict is of the sort.
    pub(crate) fn has(self, verdict: Verdict) -> bool
        ensures { result ≡ wants self verdict }
    {
        match (self, verdict) {
            (Sort::Taken, Verdict::Yes) | (Sort::Troubled, Verdict::Trouble(_)) => true,
            _ => false,
        }
    }
}

/// How much a group has.
#[derive(Clone, Copy, PartialEq, Eq)]
pub(crate) struct Tally {
    pub(crate) sends: u64,
    /// Receives without a condition.
    pub(crate) free: u64,
    /// Pairs of these that would be of one process.
    pub(crate) own: u64,
    /// Receives with a condition.
    pub(crate) asking: u64,
    /// Pairs with these that are taken.
    pub(crate) yes: u64,
    /// Pairs with these whose condition has a trouble.
    pub(crate) troubles: u64,
}

pub(crate) const NOTHING: Tally = Tally {
    sends: 0,
    free: 0,
    own: 0,
    asking: 0,
    yes: 0,
    troubles: 0,
};

impl Tally {
    ghost use Rattle.std.specs.Prelude.{◌≡◌, IfSome};
    ghost use Rattle.pz_match.specs.devices.Tallies.{plus, taken_in};

    /// Both together, if no number is 2^64 or more.
    pub(crate) fn plus(self, more: Tally) -> Option<Tally>
        ensures { IfSome result (λ both. both ≡ plus self more) }
    {
        Some(Tally {
            sends: self.sends.checked_add(more.sends)?,
            free: self.free.checked_add(more.free)?,
            own: self.own.checked_add(more.own)?,
            asking: self.asking.checked_add(more.asking)?,
            yes: self.yes.checked_add(more.yes)?,
            troubles: self.troubles.checked_add(more.troubles)?,
        })
    }

    /// What is left without a part.
    pub(crate) fn minus(self, part: Tally) -> Option<Tally>
        ensures { IfSome result (λ left. self ≡ plus part left) }
    {
        Some(Tally {
            sends: self.sends.checked_sub(part.sends)?,
            free: self.free.checked_sub(part.free)?,
            own: self.own.checked_sub(part.own)?,
            asking: self.asking.checked_sub(part.asking)?,
            yes: self.yes.checked_sub(part.yes)?,
            troubles: self.troubles.checked_sub(part.troubles)?,
        })
    }

    /// How many pairs are taken, if they are fewer than 2^64.
    pub(crate) fn taken(self) -> Option<u64>
        ensures { IfSome result (λ n. n ≡ taken_in self) }
    {
        self.sends
            .checked_mul(self.free)?
            .saturating_sub(self.own)
            .checked_add(self.yes)
    }
}

/// The offers of one message with one number of values on one wire.
#[derive(Drop)]
pub(crate) struct Group {
    pub(crate) wire: u32,
    pub(crate) message: Name,
    pub(crate) count: usize,
    pub(crate) tally: Tally,
}

/// All groups by their numbers, and the taken pairs of each wire.
#[derive(Drop)]
pub(crate) struct Groups {
    groups: Vec<Group>,
    /// The numbers of the groups of each wire.
    numbers: Lists,
    counts: Counts,
    troubles: u64,
}

impl Model for Groups {
    ghost use Rattle.std.specs.Prelude.{length};
    ghost use Rattle.pz_match.specs.devices.Tallies.{GroupsView, GroupsKept};

    ghost Value = { GroupsView };

    ghost view = { λ g. record { groups = g.groups.items; wires = length g.counts } };

    ghost invariant = { λ g. GroupsKept g.groups.items g.numbers g.counts g.troubles };
}

impl Groups {
    ghost use Rattle.std.specs.Prelude.{◌≡◌, ◌<◌, ◌≤◌, ◌+◌, ℕ, [], length, sum_by, All, OnOk, IfOk, IfSome, MatchOption};
    ghost use Rattle.pz_match.specs.devices.Sharing.{IsTakenFrom};
    ghost use Rattle.pz_match.specs.devices.Lists.{upto};
    ghost use Rattle.pz_match.specs.devices.Tallies.{HasKey, Distinct, Follows, SameTallies, tally_at, with_tally, on_wire};

    /// None yet. Takes no memory.
    pub(crate) fn new(alloc: Global) -> Groups
        ensures { result ≡ record { groups = []; wires = 0 } }
    {
        Groups {
            groups: Vec::new(alloc),
            numbers: Lists::new(alloc),
            counts: Counts::new(alloc),
            troubles: 0,
        }
    }

    /// A law: no two groups have the same marks, and all are on wires.
    pub(crate) fn are_distinct(&self)
        ensures distinct { Distinct self.now.groups }
        ensures within { All (λ x. x.wire < self.now.wires) self.now.groups }
    {
        let _groups = &self.groups;
    }

    /// The number of the group with these marks, which is made if it is not there. The only error is
    /// want of memory.
    pub(crate) fn number(
        &mut self,
        wire: u32,
        message: &Name,
        count: usize,
    ) -> Result<usize, AllocError>
        ensures found { IfOk result (λ g. HasKey self.new.groups g wire message.now count) }
        ensures follows { OnOk result (Follows self.old self.new) }
        ensures tallies { OnOk result (SameTallies self.old self.new) }
    {
        let numbers = self.numbers.list(wire as usize);
        match find(self.groups.as_slice(), numbers, wire, message, count) {
            Some(number) => Ok(number),
            None => self.add(wire, message, count),
        }
    }

    /// Another group, with marks that none has. The only error is want of memory.
    fn add(&mut self, wire: u32, message: &Name, count: usize) -> Result<usize, AllocError>
        requires { (g : ℕ) → ¬ HasKey self.old.groups g wire message.now count }
        ensures found { IfOk result (λ g. HasKey self.new.groups g wire message.now count) }
        ensures follows { OnOk result (Follows self.old self.new) }
        ensures tallies { OnOk result (SameTallies self.old self.new) }
    {
        let message = message.copy()?;
        self.counts.reach(wire as usize + 1)?;
        let number = self.groups.as_slice().len();
        self.numbers.add(wire, number)?;
        self.groups.push(Group {
            wire,
            message,
            count,
            tally: NOTHING,
        })?;
        Ok(number)
    }

    /// What the group with this number has; nothing where there is none.
    pub(crate) fn tally(&self, number: usize) -> Tally
        ensures { result ≡ tally_at self.now.groups number }
    {
        match self.groups.get(number) {
            Some(group) => group.tally,
            None => NOTHING,
        }
    }

    /// The group with this number has other offers now. The only error is want of memory, also where a
    /// number would be 2^64 or more.
    pub(crate) fn change(&mut self, number: usize, tally: Tally) -> Result<(), AllocError>
        requires { number < length self.old.groups }
        ensures groups { OnOk result (self.new.groups ≡ with_tally self.old.groups number tally) }
        ensures wires { OnOk result (self.new.wires ≡ self.old.wires) }
    {
        let wire = self.groups[number].wire as usize;
        let Some(before) = self.groups[number].tally.taken() else {
            return Err(AllocError);
        };
        let Some(after) = tally.taken() else {
            return Err(AllocError);
        };
        let Some(others) = self.counts.at(wire).checked_sub(before) else {
            return Err(AllocError);
        };
        let Some(taken) = others.checked_add(after) else {
            return Err(AllocError);
        };
        let Some(untroubled) = self
            .troubles
            .checked_sub(self.groups[number].tally.troubles)
        else {
            return Err(AllocError);
        };
        let Some(troubles) = untroubled.checked_add(tally.troubles) else {
            return Err(AllocError);
        };
        self.counts.put(wire, taken)?;
        self.groups[number].tally = tally;
        self.troubles = troubles;
        Ok(())
    }

    /// How many wires may have pairs.
    pub(crate) fn wires(&self) -> usize
        ensures { result ≡ self.now.wires }
    {
        self.counts.len()
    }

    /// How many pairs have a trouble.
    pub(crate) fn troubles(&self) -> u64
        ensures { result ≡ sum_by (λ x. x.tally.troubles) self.now.groups }
    {
        self.troubles
    }

    /// How many pairs are taken.
    pub(crate) fn total(&self) -> u64
        ensures { result ≡ sum_by (on_wire self.now.groups) (upto self.now.wires) }
    {
        self.counts.total()
    }

    /// The wire of the taken pair with this number, and its number on that wire.
    pub(crate) fn wire_of(&self, pair: u64) -> Option<(usize, u64)>
        ensures { MatchOption result (sum_by (on_wire self.now.groups) (upto self.now.wires) ≤ pair)
            (λ x. (x.0 < self.now.wires) × (sum_by (on_wire self.now.groups) (upto x.0) + x.1 ≡
            pair) × (x.1 < on_wire self.now.groups x.0)) }
    {
        self.counts.find(pair)
    }

    /// How many pairs are taken of the sends of a block on a wire; none where receives with conditions
    /// take any on the wire, or where the number is 2^64 or more.
    pub(crate) fn taken_from(&self, shares: &Shares, wire: usize, block: usize) -> Option<u64>
        ensures { IfSome result (IsTakenFrom self.now.groups shares.now wire block) }
    {
        let numbers = self.numbers.list(wire);
        taken_from(self.groups.as_slice(), numbers, shares, wire, block)
    }
}
