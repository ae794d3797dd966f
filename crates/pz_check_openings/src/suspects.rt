// Which methods can begin with themselves in some class. Names have ranks. Where no method begins with
// a call of a higher rank than that of its own name, whoever begins with itself does so by calls of one
// rank. No clause rests on how the ranks were found.

ghost use Rattle.std.specs.Prelude.{◌≡◌, ℕ, Some, map, slice_get, IsTrue, IfOk};
ghost use Rattle.pz_check_openings.specs.devices.Settling.{value_of};
ghost use Rattle.pz_check_openings.specs.devices.Suspects as spec;
ghost use Rattle.pz_check_openings.specs.devices.Suspects.{AreSuspects};
ghost use Rattle.pz_check_openings.specs.declared.outline.Outline.{Outline as Sketch};

use crate::outline::Outline;
use crate::settled::{is_plain, value_of};
use pz_classes::pz_classes_code::Numbering;
use pz_classes::pz_items::Items;
use pz_classes::pz_syntax::Id;
use std::alloc::{AllocError, Global};

/// The highest rank of these calls; 0 where there are none.
fn highest(calls: &[Id], names: &Numbering, ranks: &[u32]) -> u32
    ensures { result ≡ spec.highest (value_of names.now ranks.now) calls.now }
{
    let mut highest = 0;
    for call in calls {
        highest = value_of(names, ranks, &call.name).max(highest);
    }
    highest
}

/// Whether the method, if it is plain, begins with no call of a higher rank than its own.
fn is_ordered(method: &Outline, names: &Numbering, ranks: &[u32]) -> bool
    ensures { result ≡ spec.is_ordered (value_of names.now ranks.now) method.now }
{
    !is_plain(method)
        || highest(method.begun.as_slice(), names, ranks)
            <= value_of(names, ranks, &method.name.name)
}

fn is_ordered_if_any(method: &Option<Outline>, names: &Numbering, ranks: &[u32]) -> bool
    ensures { IsTrue result → (o : Sketch) → method.now ≡ Some o →
        IsTrue (spec.is_ordered (value_of names.now ranks.now) o) }
{
    match method {
        Some(method) => is_ordered(method, names, ranks),
        None => true,
    }
}

/// The same of all methods.
fn are_ordered(methods: &[Option<Outline>], names: &Numbering, ranks: &[u32]) -> bool
    ensures { IsTrue result → (k : ℕ) (o : Sketch) → slice_get methods.now k ≡ Some (Some o) →
        IsTrue (spec.is_ordered (value_of names.now ranks.now) o) }
{
    for method in methods {
        if !is_ordered_if_any(method, names, ranks) {
            return false;
        }
    }
    true
}

/// Whether the method is plain and begins with a call of its own rank, or of a higher one.
pub(crate) fn is_suspect(method: &Outline, names: &Numbering, ranks: &[u32]) -> bool
    ensures { result ≡ spec.is_suspect (value_of names.now ranks.now) method.now }
{
    is_plain(method)
        && value_of(names, ranks, &method.name.name)
            <= highest(method.begun.as_slice(), names, ranks)
}

/// The method, if it is a suspect. The only error is want of memory.
fn kept(
    alloc: Global,
    method: &Option<Outline>,
    names: &Numbering,
    ranks: &[u32],
) -> Result<Option<Outline>, AllocError>
    ensures { IfOk result (λ o. o ≡ spec.kept (spec.is_suspect (value_of names.now ranks.now))
        method.now) }
{
    let Some(method) = method else {
        return Ok(None);
    };
    if !is_suspect(method, names, ranks) {
        return Ok(None);
    }
    Ok(Some(method.copy(alloc)?))
}

/// The suspects by these ranks. The only error is want of memory.
fn suspects_by(
    alloc: Global,
    methods: &[Option<Outline>],
    names: &Numbering,
    ranks: &[u32],
) -> Result<Items<Option<Outline>>, AllocError>
    ensures { IfOk result (λ those. those ≡
        map (spec.kept (spec.is_suspect (value_of names.now ranks.now))) methods.now) }
{
    let mut suspects = Items::new(alloc);
    for method in methods {
        suspects.push(kept(alloc, method, names, ranks)?)?;
    }
    Ok(suspects)
}

/// The suspects, each at the number of the method: plain methods that begin with a call of their own
/// rank. Ranks that are not in order are not used; then all names have the same. The only error is
/// want of memory.
pub(crate) fn suspects_of(
    alloc: Global,
    methods: &[Option<Outline>],
    names: &Numbering,
    ranks: &[u32],
) -> Result<Items<Option<Outline>>, AllocError>
    ensures { IfOk result (AreSuspects methods.now) }
{
    if are_ordered(methods, names, ranks) {
        return suspects_by(alloc, methods, names, ranks);
    }
    suspects_by(alloc, methods, names, &[])
}
