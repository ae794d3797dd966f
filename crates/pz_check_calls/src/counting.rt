// How many statements methods open as. Totals grow from nothing, method by method, until none grows
// any more.

ghost use Rattle.std.specs.Prelude.{◌≡◌, ◌<◌, ◌≤◌, ◌+◌, ℕ, length, min, nat_lt, false, ◌||◌, ◌↔◌, IsTrue, IfOk};
ghost use Rattle.std.specs.List.{sum_by};
ghost use Rattle.pz_check_calls.specs.Calls as spec;
ghost use Rattle.pz_check_calls.specs.Calls.{AreTotals, IsLarge};
ghost use Rattle.pz_check_calls.specs.devices.Raising as device;
ghost use Rattle.pz_check_calls.specs.devices.Raising.{IsReached, Raises};

use crate::rounds::edges_of;
use crate::{Call, Method};
use pz_check_components::components;
use std::alloc::{AllocError, Global};

/// One more than the most statements that may open out of a method. A total that reaches it stands
/// still there.
pub const MANY: u32 = 1_000_001;

/// The total of the method; 0 where there is no such method.
fn total_in(totals: &[u32], method: usize) -> u32
    ensures { result ≡ spec.total_in totals.now method }
{
    match totals.get(method) {
        Some(total) => *total,
        None => 0,
    }
}

/// So many statements with those as which these calls open, each call counted.
fn total_with(statements: u32, calls: &[Call], totals: &[u32]) -> u32
    ensures { result ≡ min (statements + sum_by (λ x. spec.total_in totals.now x.method) calls.now)
        1000001 }
{
    let mut total = statements.min(MANY);
    for call in calls {
        total = total
            .saturating_add(total_in(totals, call.method as usize))
            .min(MANY);
    }
    total
}

/// Raises the total of the method to what its statements and calls come to by these totals. Whether
/// it grew.
fn raise(methods: &[Method], totals: &mut Vec<u32>, method: usize) -> bool
    requires sized { length totals.old.items ≡ length methods.now }
    requires within { method < length methods.now }
    ensures grew { result ≡ nat_lt (spec.total_in totals.old.items method)
        (device.next methods.now totals.old.items method) }
    ensures raised { totals.new.items ≡ device.raised methods.now totals.old.items method }
{
    let found = &methods[method];
    let total = total_with(found.statements, found.begun.as_slice(), totals.as_slice());
    if total <= totals[method] {
        return false;
    }
    totals[method] = total;
    true
}

/// Raises the total of the method, if there is such a method.
fn raise_one(methods: &[Method], totals: &mut Vec<u32>, method: usize)
    requires { length totals.old.items ≡ length methods.now }
    ensures sized { length totals.new.items ≡ length methods.now }
    ensures reached { IsReached methods.now totals.old.items →
        IsReached methods.now totals.new.items }
{
    if method >= methods.len() {
        return;
    }
    let _ = raise(methods, totals, method);
}

/// Raises the totals of these methods in this order.
fn raise_in_order(methods: &[Method], order: &[usize], totals: &mut Vec<u32>)
    requires { length totals.old.items ≡ length methods.now }
    ensures sized { length totals.new.items ≡ length methods.now }
    ensures reached { IsReached methods.now totals.old.items →
        IsReached methods.now totals.new.items }
{
    for method in order {
        raise_one(methods, totals, *method);
    }
}

fn either(first: bool, second: bool) -> bool
    ensures { result ≡ (first || second) }
{
    first || second
}

/// Raises the totals of all methods, each once. Whether one grew.
fn raise_all(methods: &[Method], totals: &mut Vec<u32>) -> bool
    requires { length totals.old.items ≡ length methods.now }
    ensures { Raises methods.now totals.old.items totals.new.items result (length methods.now) }
{
    let mut grew = false;
    for method in 0..methods.len() {
        grew = either(raise(methods, totals, method), grew);
    }
    grew
}

/// The methods by the numbers of their components: where none begins with itself, each after those
/// with which it begins. It makes one round of raising enough; no clause rests on it. The only error
/// is want of memory.
fn order_of(alloc: Global, methods: &[Method]) -> Result<Vec<usize>, AllocError> {
    let edges = edges_of(alloc, methods)?;
    let numbers = components(alloc, edges.as_slice())?;
    let mut order = vec![in alloc; 0; numbers.len()]?;
    for (method, number) in numbers.iter().enumerate() {
        if *number < order.len() {
            order[*number] = method;
        }
    }
    Ok(order)
}

/// Whether the method is too large with all that opens out of it: more than 1,000,000 statements.
pub fn is_large(methods: &[Method], totals: &[u32], method: usize) -> bool
    requires totals { AreTotals methods.now totals.now }
    requires within { method < length methods.now }
    ensures { IsTrue result ↔ IsLarge methods.now method }
{
    let found = &methods[method];
    total_with(found.statements, found.calls.as_slice(), totals) >= MANY
}

/// How many statements each method opens as. The only error is want of memory.
pub fn totals(alloc: Global, methods: &[Method]) -> Result<Vec<u32>, AllocError>
    ensures { IfOk result (λ ts. AreTotals methods.now ts.items) }
{
    let order = order_of(alloc, methods)?;
    let mut totals = vec![in alloc; 0; methods.len()]?;
    raise_in_order(methods, order.as_slice(), &mut totals);
    while raise_all(methods, &mut totals) {}
    Ok(totals)
}
