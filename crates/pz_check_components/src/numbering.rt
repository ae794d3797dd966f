// The number of each vertex's component.

ghost use Rattle.std.specs.Prelude.{◌≡◌, map, IfOk};
ghost use Rattle.pz_check_components.specs.Graph.{AreComponents};
ghost use Rattle.pz_check_components.specs.devices.Walking as spec;

use crate::walk::{State, Walk};
use pz_items::Items;
use std::alloc::{AllocError, Global};

/// The number of the component, where it is known.
fn number_of(state: State) -> usize
    ensures { result ≡ spec.number state }
{
    match state {
        State::Done(number) => number,
        State::Unseen | State::Open(_) => 0,
    }
}

/// The numbers of the components of all vertices. The only error is want of memory.
fn numbers_of(alloc: Global, states: &[State]) -> Result<Vec<usize>, AllocError>
    ensures { IfOk result (λ numbers. numbers.items ≡ map spec.number states.now) }
{
    let mut numbers = Vec::new(alloc);
    for state in states {
        numbers.push(number_of(*state))?;
    }
    Ok(numbers)
}

/// The number of each vertex's component: two vertices have the same number just where each is
/// reached from the other. For each vertex stands where its edges lead; an edge that leads to no
/// vertex counts for nothing. The only error is want of memory.
pub fn components(alloc: Global, edges: &[Items<u32>]) -> Result<Vec<usize>, AllocError>
    ensures { IfOk result (λ numbers. AreComponents edges.now numbers.items) }
{
    let mut walk = Walk::new(alloc, edges)?;
    while !walk.is_at_end() {
        walk.step(edges)?;
    }
    numbers_of(alloc, walk.states.as_slice())
}
