// Bounds that settle all classes at once. A bound is kept for each name of a plain method: where no
// method of that name, of whatever class, opens as more statements than its bound by the bounds of the
// names of its calls, then none does in any class, and none begins with itself.

ghost use Rattle.std.specs.Prelude.{◌≡◌, ◌+◌, ℕ, Some, min, slice_get, IsTrue};
ghost use Rattle.std.specs.List.{sum_by};
ghost use Rattle.pz_check_openings.specs.devices.Settling as spec;
ghost use Rattle.pz_check_openings.specs.devices.Settling.{Settles};
ghost use Rattle.pz_check_openings.specs.declared.outline.Outline.{Outline as Sketch};

use crate::outline::Outline;
use pz_check_calls::MANY;
use pz_classes::pz_classes_code::Numbering;
use pz_classes::pz_syntax::{Id, Name};

/// The bound of the name; 0 where it has none.
pub(crate) fn value_of(names: &Numbering, bounds: &[u32], name: &Name) -> u32
    ensures { result ≡ spec.value_of names.now bounds.now name.now }
{
    match names.get(name.as_str().as_bytes()) {
        Some(number) => match bounds.get(number as usize) {
            Some(bound) => *bound,
            None => 0,
        },
        None => 0,
    }
}

/// So many statements with the bounds of these calls, as far as `MANY`.
pub(crate) fn total_by(statements: u32, calls: &[Id], names: &Numbering, bounds: &[u32]) -> u32
    ensures { result ≡ min (statements +
        sum_by (λ x. spec.value_of names.now bounds.now x.name) calls.now) 1000001 }
{
    let mut total = statements.min(MANY);
    for call in calls {
        total = total
            .saturating_add(value_of(names, bounds, &call.name))
            .min(MANY);
    }
    total
}

/// Whether the method is plain: without inputs and without outputs.
pub(crate) fn is_plain(method: &Outline) -> bool
    ensures { result ≡ spec.is_plain method.now }
{
    method.inputs == 0 && method.outputs == 0
}

/// Whether the method keeps to the bounds: a plain one opens as no more than the bound of its name,
/// and no method is too large with all that opens out of it.
fn is_settled(method: &Outline, names: &Numbering, bounds: &[u32]) -> bool
    ensures { IsTrue result → Settles (spec.value_of names.now bounds.now) method.now }
{
    let spread = total_by(method.statements, method.calls.as_slice(), names, bounds);
    if spread >= MANY {
        return false;
    }
    if !is_plain(method) {
        return true;
    }
    let opened = total_by(method.statements, method.begun.as_slice(), names, bounds);
    opened < MANY && opened <= value_of(names, bounds, &method.name.name)
}

/// Whether the method, if it is one of a process, keeps to the bounds.
fn is_settled_if_any(method: &Option<Outline>, names: &Numbering, bounds: &[u32]) -> bool
    ensures { IsTrue result → (o : Sketch) → method.now ≡ Some o →
        Settles (spec.value_of names.now bounds.now) o }
{
    match method {
        Some(method) => is_settled(method, names, bounds),
        None => true,
    }
}

/// Whether all methods keep to the bounds.
pub(crate) fn are_settled(methods: &[Option<Outline>], names: &Numbering, bounds: &[u32]) -> bool
    ensures { IsTrue result → (k : ℕ) (o : Sketch) → slice_get methods.now k ≡ Some (Some o) →
        Settles (spec.value_of names.now bounds.now) o }
{
    for method in methods {
        if !is_settled_if_any(method, names, bounds) {
            return false;
        }
    }
    true
}
