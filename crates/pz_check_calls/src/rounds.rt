// The calls that lead back to the method that begins with them: those whose method has the number
// of the one that they stand in, where two methods have one number just if each leads to the other.

ghost use Rattle.std.specs.Prelude.{◌≡◌, None, IfOk};
ghost use Rattle.pz_check_violations.specs.Least as least;
ghost use Rattle.pz_check_violations.specs.Least.{LeastOf};
ghost use Rattle.pz_check_components.specs.Graph.{number_of};
ghost use Rattle.pz_check_calls.specs.Calls as spec;
ghost use Rattle.pz_check_calls.specs.Calls.{IsRound};
ghost use Rattle.pz_check_calls.specs.devices.LeadingBack as device;

use crate::{Call, Method};
use pz_check_components::components;
use pz_check_violations::{Violation, lesser};
use pz_syntax::pz_items::Items;
use std::alloc::{AllocError, Global};

const BEGINS_WITH_ITSELF: u8 = 23;

/// The numbers of the called methods. The only error is want of memory.
fn targets_of(alloc: Global, calls: &[Call]) -> Result<Items<u32>, AllocError>
    ensures { IfOk result (λ ks. ks ≡ spec.targets_of calls.now) }
{
    let mut targets = Items::new(alloc);
    for call in calls {
        targets.push(call.method)?;
    }
    Ok(targets)
}

/// For each method the numbers of those with which it begins. The only error is want of memory.
pub(crate) fn edges_of(alloc: Global, methods: &[Method]) -> Result<Items<Items<u32>>, AllocError>
    ensures { IfOk result (λ es. es ≡ spec.edges methods.now) }
{
    let mut edges = Items::new(alloc);
    for method in methods {
        edges.push(targets_of(alloc, method.begun.as_slice())?)?;
    }
    Ok(edges)
}

/// Whether the method has this number.
fn is_numbered(numbers: &[usize], number: usize, method: usize) -> bool
    ensures { result ≡ device.is_numbered numbers.now number method }
{
    match numbers.get(method) {
        Some(its_number) => *its_number == number,
        None => false,
    }
}

/// The number of the method.
fn number_at(numbers: &[usize], method: usize) -> usize
    ensures { result ≡ number_of numbers.now method }
{
    match numbers.get(method) {
        Some(number) => *number,
        None => 0,
    }
}

/// The least of what was found before and the rule at each of these calls whose method has the
/// number.
#[tactic(auto, using(pz_check_violations::proofs::Leasts::least_from_append))]
fn least_in(
    calls: &[Call],
    numbers: &[usize],
    number: usize,
    before: Option<Violation>,
) -> Option<Violation>
    ensures { result ≡ least.least_from before (device.back_in numbers.now number calls.now) }
{
    let mut least = before;
    for call in calls {
        if is_numbered(numbers, number, call.method as usize) {
            least = lesser(
                least,
                Violation {
                    rule: BEGINS_WITH_ITSELF,
                    pos: call.pos,
                },
            );
        }
    }
    least
}

/// The same in all methods.
#[tactic(auto, using(pz_check_violations::proofs::Leasts::least_from_append))]
fn least_among(methods: &[Method], numbers: &[usize]) -> Option<Violation>
    ensures { result ≡ least.least_from None (device.back_among numbers.now 0 methods.now) }
{
    let mut least = None;
    for (number, method) in methods.iter().enumerate() {
        least = least_in(
            method.begun.as_slice(),
            numbers,
            number_at(numbers, number),
            least,
        );
    }
    least
}

/// The least call that leads back to the method that begins with it, at the place of its name. The
/// only error is want of memory.
pub fn least_round(alloc: Global, methods: &[Method]) -> Result<Option<Violation>, AllocError>
    ensures { IfOk result (LeastOf (IsRound methods.now)) }
{
    let edges = edges_of(alloc, methods)?;
    let numbers = components(alloc, edges.as_slice())?;
    Ok(least_among(methods, numbers.as_slice()))
}
