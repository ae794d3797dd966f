ghost use Rattle.std.specs.Prelude.{◌≡◌, ◌<◌, ◌≤◌, length, replicate, slice_set, IfOk, OnOk, OnErr, MatchOption};
ghost use Rattle.pz_sim_totals.specs.Sums.{none, all, AreNumbers, IsAction};

use crate::Total;
use crate::levels::{find_in, grow, set_in};
use std::alloc::{AllocError, Global};
use std::marker::Model;

/// Which process an internal action of all is of, and its number there.
#[derive(Clone, Copy, Debug, PartialEq, Eq)]
pub struct Found {
    /// The number of the process in the list, from 0.
    pub process: usize,
    /// The number of the action among those of that process, from 0.
    pub number: u64,
}

/// What each process of a list can do in short. Contracts see the list. To replace one of n totals,
/// and to find an action, takes as many steps as n has binary digits; the sum is kept.
#[derive(Drop)]
pub struct Totals {
    /// The totals, behind them the sums of neighbours, of these again, and so on up to one.
    cells: Vec<Total>,
    len: usize,
}

impl Model for Totals {
    ghost use Rattle.std.specs.Prelude.{List, take};
    ghost use Rattle.pz_sim_totals.specs.declared.total.Total.{Total};
    ghost use Rattle.pz_sim_totals.specs.devices.Levels.{AreLevels};

    ghost Value = { List Total };

    ghost view = { λ t. take t.len t.cells.items };

    ghost invariant = { λ t. AreLevels t.len t.cells.items };
}

impl Totals {
    /// So many processes, none of which can do anything. The only error is want of memory.
    pub fn new(alloc: Global, processes: u32) -> Result<Totals, AllocError>
        ensures { IfOk result (λ totals. totals ≡ replicate processes none) }
    {
        let len = processes as usize;
        let mut cells = Vec::new(alloc);
        grow(&mut cells, len)?;
        Ok(Totals { cells, len })
    }

    /// Puts another total in place of one. It takes no memory. The only error is that a sum of all
    /// would be 2^64 or more, and then nothing changes.
    pub fn set(&mut self, process: usize, total: Total) -> Result<(), AllocError>
        requires { process < length self.old }
        ensures ok { OnOk result (self.new ≡ slice_set self.old process total) }
        ensures err { OnErr result (self.new ≡ self.old) }
        ensures only { OnErr result (AreNumbers (all (slice_set self.old process total)) → ⊥) }
    {
        set_in(self.cells.as_mut_slice(), self.len, process, total)
    }

    /// What all processes can do together: sums, the least moment, the first trouble.
    pub fn all(&self) -> Total
        ensures { result ≡ all self.now }
    {
        match self.cells.last() {
            Some(sum) => *sum,
            None => Total::none(),
        }
    }

    /// The process of an internal action of all, and its number there; none where there are not so
    /// many. Actions are numbered from 0, process by process.
    pub fn find(&self, action: u64) -> Option<Found>
        ensures { MatchOption result ((all self.now).summary.internal ≤ action)
            (IsAction self.now action) }
    {
        if self.all().summary.internal <= action {
            return None;
        }
        Some(find_in(self.cells.as_slice(), self.len, action))
    }
}
