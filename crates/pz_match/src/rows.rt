ghost use Rattle.std.specs.Prelude.{◌≡◌, [], ◌∷◌, ◌++◌, filter, not, nat_eq, OnOk, OnErr};

use pz_offer::Verdict;
use std::alloc::{AllocError, Global};
use std::marker::Model;

/// What a conditional receive of this process said to a send.
#[derive(Clone, Copy)]
pub(crate) struct Row {
    pub(crate) process: u32,
    pub(crate) verdict: Verdict,
}

/// What receives said to a send. Contracts see the list.
#[derive(Drop)]
pub(crate) struct Rows {
    rows: Vec<Row>,
}

impl Model for Rows {
    ghost use Rattle.std.specs.Prelude.{List};
    ghost use Rattle.pz_match.specs.declared.rows.Row.{Row};

    ghost Value = { List Row };

    ghost view = { λ r. r.rows.items };
}

impl Rows {
    /// None yet. Takes no memory.
    pub(crate) fn new(alloc: Global) -> Rows
        ensures { result ≡ [] }
    {
        Rows {
            rows: Vec::new(alloc),
        }
    }

    /// In their order.
    pub(crate) fn as_slice(&self) -> &[Row]
        ensures { result.now ≡ self.now }
    {
        self.rows.as_slice()
    }

    /// Leaves out what receives of this process said.
    pub(crate) fn forget(&mut self, process: u32)
        ensures { self.new ≡ filter (λ r. not (nat_eq r.process process)) self.old }
    {
        self.rows.retain(|row| row.process != process);
    }

    /// One more. The only error is want of memory, and then nothing changes.
    pub(crate) fn push(&mut self, row: Row) -> Result<(), AllocError>
        ensures ok { OnOk result (self.new ≡ self.old ++ row ∷ []) }
        ensures err { OnErr result (self.new ≡ self.old) }
    {
        self.rows.push(row)?;
        Ok(())
    }
}

/// Lists of rows that have none, whose room is kept for use again.
#[derive(Drop)]
pub(crate) struct Spare {
    lists: Vec<Rows>,
}

impl Model for Spare {
    ghost use Rattle.std.specs.Prelude.{◌≡◌, List, [], All};
    ghost use Rattle.pz_match.specs.declared.rows.Row.{Row};

    ghost Value = { List (List Row) };

    ghost view = { λ s. s.lists.items };

    ghost invariant = { λ s. All (λ rows. rows ≡ []) s.lists.items };
}

impl Spare {
    /// None yet. Takes no memory.
    pub(crate) fn new(alloc: Global) -> Spare
        ensures { result ≡ [] }
    {
        Spare {
            lists: Vec::new(alloc),
        }
    }

    /// A list without rows, with room if there is one that has any.
    pub(crate) fn take(&mut self) -> Rows
        ensures { result ≡ [] }
    {
        let alloc = *self.lists.allocator();
        match self.lists.pop() {
            Some(rows) => rows,
            None => Rows::new(alloc),
        }
    }

    /// Keeps the room of a list, if it has any. The only error is want of memory.
    pub(crate) fn keep(&mut self, rows: Rows) -> Result<(), AllocError> {
        if rows.rows.capacity() == 0 {
            return Ok(());
        }
        let mut rows = rows;
        rows.rows.clear();
        self.lists.push(rows)?;
        Ok(())
    }
}
