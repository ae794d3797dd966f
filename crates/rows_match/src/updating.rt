//! Updates of a table.

ghost use Rattle.std.specs.Prelude.{◌≡◌, ◌<◌, false, length, OnOk};

use crate::asker::Asker;
use pz_match::Pairs;
use rows_match_plain::{Wish, receives, sends};
use std::alloc::{AllocError, Global};
use std::sync::ledger::Ledger;

/// The process offers these and nothing else.
pub fn update<L: Ledger>(
    alloc: Global,
    table: &mut Pairs,
    process: u32,
    wishes: &[Wish],
    asker: &mut Asker<L>,
) -> Result<(), AllocError>
    requires process { process < length table.old.senders }
    requires there { table.old.lost ≡ false }
    ensures size { OnOk result (length table.new.senders ≡ length table.old.senders) }
    ensures there { OnOk result (table.new.lost ≡ false) }
{
    let sends = sends(alloc, wishes)?;
    let receives = receives(alloc, wishes)?;
    table.update(process, sends, receives, asker)
}
