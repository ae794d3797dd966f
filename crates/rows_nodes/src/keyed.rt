ghost use Rattle.std.specs.Prelude.{◌≡◌, ◌+◌, ◌<◌, Some, None, IfOk};

use pz_nodes::{Nodes, Steps};
use std::alloc::{AllocError, Global};
use std::sync::ledger::{Blank, Ledger};

/// A node is put in, read, taken out, and read again: four steps.
fn put_read_take<L: Ledger>(
    nodes: &mut Nodes<u32>,
    steps: &mut Steps<L>,
) -> (Option<u32>, Option<u32>, Option<u32>)
    requires { 0 < nodes.old.spare }
    ensures shows { result ≡ (Some 7, Some 7, None) }
    ensures ticks { steps.new ≡ steps.old + 4 }
{
    let key = nodes.insert(7, steps);
    let read = nodes.get(key, steps).copied();
    let taken = nodes.remove(key, steps);
    let after = nodes.get(key, steps).copied();
    (read, taken, after)
}

/// The same in a new map with room for one node.
pub fn put_and_take<L: Ledger>(
    alloc: Global,
    ledger: Blank,
) -> Result<(Option<u32>, Option<u32>, Option<u32>), AllocError>
    requires name { ledger.name ≡ L.name }
    requires parts { ledger.parts ≡ L.parts }
    requires some { 0 < L.parts }
    ensures { IfOk result (λ shown. shown ≡ (Some 7, Some 7, None)) }
{
    let mut steps = Steps::<L>::new(ledger);
    let mut nodes = Nodes::new(alloc);
    nodes.reserve(1)?;
    Ok(put_read_take(&mut nodes, &mut steps))
}
