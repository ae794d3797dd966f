// The totals of classes, counted in an order in which each class comes after all that stand in it.

ghost use Rattle.std.specs.Prelude.{◌≡◌, length, IfOk};
ghost use Rattle.pz_check_size.specs.devices.Levels as levels;
ghost use Rattle.pz_check_size.specs.devices.Counting.{NoneHoldsItself, IsNumbering, ArePlaced, IsCountingOrder};

use crate::leading_back::edges_of;
use crate::nodes::Node;
use crate::totals::{Totals, total_of};
use pz_check_components::components;
use std::alloc::{AllocError, Global};

/// Each class at the place that is its number. The only error is want of memory.
fn by_number(alloc: Global, numbers: &[usize]) -> Result<Vec<usize>, AllocError>
    requires { IsNumbering numbers.now }
    ensures { IfOk result (λ classes. ArePlaced numbers.now classes.items (length numbers.now)) }
{
    let mut classes = vec![in alloc; 0; numbers.len()]?;
    for (class, number) in numbers.iter().enumerate() {
        classes[*number] = class;
    }
    Ok(classes)
}

/// The classes, each after all that stand in it: `components` gives no class a number that is less
/// than that of a class in it. The only error is want of memory.
fn counting_order(alloc: Global, nodes: &[Node]) -> Result<Vec<usize>, AllocError>
    requires { NoneHoldsItself nodes.now }
    ensures { IfOk result (λ order. IsCountingOrder nodes.now order.items) }
{
    let edges = edges_of(alloc, nodes)?;
    let numbers = components(alloc, edges.as_slice())?;
    by_number(alloc, numbers.as_slice())
}

/// Counts what stands in each class, in this order.
fn count_all(nodes: &[Node], order: &[usize], totals: &mut Vec<Totals>)
    requires order { IsCountingOrder nodes.now order.now }
    requires sized { length totals.old.items ≡ length nodes.now }
    ensures { totals.new.items ≡ levels.level nodes.now (length nodes.now) }
{
    for class in order {
        totals[*class] = total_of(nodes, *class, totals.as_slice());
    }
}

/// The totals of each class, down to as many levels as there are classes. The only error is want of
/// memory.
pub(crate) fn all_totals(alloc: Global, nodes: &[Node]) -> Result<Vec<Totals>, AllocError>
    requires { NoneHoldsItself nodes.now }
    ensures { IfOk result (λ ts. ts.items ≡ levels.level nodes.now (length nodes.now)) }
{
    let order = counting_order(alloc, nodes)?;
    let mut totals = vec![in alloc; Totals::nothing(); nodes.len()]?;
    count_all(nodes, order.as_slice(), &mut totals);
    Ok(totals)
}
