// The instances by which a class leads back to itself: those whose class has the number of the one
// that they stand in, where two classes have one number just if each is reached from the other.

ghost use Rattle.std.specs.Prelude.{◌≡◌, None, IfOk};
ghost use Rattle.pz_check_violations.specs.Least as least;
ghost use Rattle.pz_check_violations.specs.Least.{LeastOf};
ghost use Rattle.pz_check_components.specs.Graph.{number_of};
ghost use Rattle.pz_check_size.specs.devices.LeadingBack as spec;
ghost use Rattle.pz_check_size.specs.devices.LeadingBack.{LeadsBack};

use crate::nodes::{Held, Node};
use pz_check_components::components;
use pz_check_violations::{Violation, lesser};
use pz_classes::pz_items::Items;
use std::alloc::{AllocError, Global};

const HOLDS_ITSELF: u8 = 15;

/// The numbers of these instances' classes. The only error is want of memory.
fn classes_of(alloc: Global, held: &[Held]) -> Result<Items<u32>, AllocError>
    ensures { IfOk result (λ cs. cs ≡ spec.classes_of held.now) }
{
    let mut classes = Items::new(alloc);
    for instance in held {
        classes.push(instance.class)?;
    }
    Ok(classes)
}

/// For each class the numbers of the classes of its instances. The only error is want of memory.
pub(crate) fn edges_of(alloc: Global, nodes: &[Node]) -> Result<Items<Items<u32>>, AllocError>
    ensures { IfOk result (λ es. es ≡ spec.edges nodes.now) }
{
    let mut edges = Items::new(alloc);
    for node in nodes {
        edges.push(classes_of(alloc, node.held.as_slice())?)?;
    }
    Ok(edges)
}

/// Whether the class has this number.
fn is_numbered(numbers: &[usize], number: usize, class: usize) -> bool
    ensures { result ≡ spec.is_numbered numbers.now number class }
{
    match numbers.get(class) {
        Some(its_number) => *its_number == number,
        None => false,
    }
}

/// The number of the class.
fn number_at(numbers: &[usize], class: usize) -> usize
    ensures { result ≡ number_of numbers.now class }
{
    match numbers.get(class) {
        Some(number) => *number,
        None => 0,
    }
}

/// The least of what was found before and the rule at each of these instances whose class has the
/// number.
#[tactic(auto, using(pz_check_violations::proofs::Leasts::least_from_append))]
fn least_in(
    held: &[Held],
    numbers: &[usize],
    number: usize,
    before: Option<Violation>,
) -> Option<Violation>
    ensures { result ≡ least.least_from before (spec.back_in numbers.now number held.now) }
{
    let mut least = before;
    for instance in held {
        if is_numbered(numbers, number, instance.class as usize) {
            least = lesser(
                least,
                Violation {
                    rule: HOLDS_ITSELF,
                    pos: instance.pos,
                },
            );
        }
    }
    least
}

/// The same in this class, where it is a cluster class and has the number.
#[tactic(auto, using(pz_check_violations::proofs::Leasts::least_from_append))]
fn least_back(
    node: &Node,
    numbers: &[usize],
    number: usize,
    before: Option<Violation>,
) -> Option<Violation>
    ensures { result ≡ least.least_from before (spec.back_from numbers.now number node.now) }
{
    if node.is_cluster {
        least_in(node.held.as_slice(), numbers, number, before)
    } else {
        before
    }
}

/// The same in all classes.
#[tactic(auto, using(pz_check_violations::proofs::Leasts::least_from_append))]
fn least_among(nodes: &[Node], numbers: &[usize]) -> Option<Violation>
    ensures { result ≡ least.least_from None (spec.back_among numbers.now 0 nodes.now) }
{
    let mut least = None;
    for (class, node) in nodes.iter().enumerate() {
        least = least_back(node, numbers, number_at(numbers, class), least);
    }
    least
}

/// The least instance by which a cluster class leads back to itself. The only error is want of
/// memory.
pub(crate) fn least_leading_back(
    alloc: Global,
    nodes: &[Node],
) -> Result<Option<Violation>, AllocError>
    ensures { IfOk result (LeastOf (LeadsBack nodes.now)) }
{
    let edges = edges_of(alloc, nodes)?;
    let numbers = components(alloc, edges.as_slice())?;
    Ok(least_among(nodes, numbers.as_slice()))
}
