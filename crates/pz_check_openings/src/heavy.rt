// Which methods can be too large in some class, and which can open out of these. Names have bounds for
// how much their methods open as, and marks where they are reached. No clause rests on how these were
// found.

ghost use Rattle.std.specs.Prelude.{◌≡◌, ℕ, Some, map, slice_get, IsTrue, IfOk};
ghost use Rattle.pz_check_openings.specs.devices.Heavy as spec;
ghost use Rattle.pz_check_openings.specs.devices.Heavy.{AreHeavy};
ghost use Rattle.pz_check_openings.specs.devices.Settling.{value_of};
ghost use Rattle.pz_check_openings.specs.devices.Suspects as suspects;
ghost use Rattle.pz_check_openings.specs.declared.outline.Outline.{Outline as Sketch};

use crate::outline::Outline;
use crate::settled::{is_plain, total_by, value_of};
use pz_check_calls::MANY;
use pz_classes::pz_classes_code::Numbering;
use pz_classes::pz_items::Items;
use pz_classes::pz_syntax::{Id, Name};
use std::alloc::{AllocError, Global};

/// Whether by the bounds the method may be too large with all that opens out of it.
pub(crate) fn is_heavy(method: &Outline, names: &Numbering, bounds: &[u32]) -> bool
    ensures { result ≡ spec.is_heavy (value_of names.now bounds.now) method.now }
{
    total_by(method.statements, method.calls.as_slice(), names, bounds) >= MANY
}

/// Whether the method opens as no more than the bound of its name, as far as `MANY`.
fn is_covered(method: &Outline, names: &Numbering, bounds: &[u32]) -> bool
    ensures { result ≡ spec.is_covered (value_of names.now bounds.now) method.now }
{
    total_by(method.statements, method.begun.as_slice(), names, bounds)
        <= value_of(names, bounds, &method.name.name)
}

/// Whether the name has a mark.
fn is_reached(names: &Numbering, marks: &[u32], name: &Name) -> bool
    ensures { result ≡ spec.is_reached (value_of names.now marks.now) name.now }
{
    value_of(names, marks, name) > 0
}

/// Whether the names of these calls have marks.
fn are_reached(calls: &[Id], names: &Numbering, marks: &[u32]) -> bool
    ensures { result ≡ spec.are_reached (value_of names.now marks.now) calls.now }
{
    let mut all = true;
    for call in calls {
        all = is_reached(names, marks, &call.name) && all;
    }
    all
}

/// Whether the names of all calls have marks, if the method may be too large.
fn is_open(method: &Outline, names: &Numbering, bounds: &[u32], marks: &[u32]) -> bool
    ensures { result ≡ spec.is_open (value_of names.now bounds.now)
        (value_of names.now marks.now) method.now }
{
    !is_heavy(method, names, bounds) || are_reached(method.calls.as_slice(), names, marks)
}

/// Whether the names with which the method begins have marks, if its own has one.
fn leads_on(method: &Outline, names: &Numbering, marks: &[u32]) -> bool
    ensures { result ≡ spec.leads_on (value_of names.now marks.now) method.now }
{
    !is_reached(names, marks, &method.name.name)
        || are_reached(method.begun.as_slice(), names, marks)
}

/// Whether the bounds and marks hold at the method.
fn is_closed(method: &Outline, names: &Numbering, bounds: &[u32], marks: &[u32]) -> bool
    ensures { result ≡ spec.is_closed (value_of names.now bounds.now)
        (value_of names.now marks.now) method.now }
{
    is_open(method, names, bounds, marks)
        && (!is_plain(method)
            || is_covered(method, names, bounds) && leads_on(method, names, marks))
}

fn is_closed_if_any(
    method: &Option<Outline>,
    names: &Numbering,
    bounds: &[u32],
    marks: &[u32],
) -> bool
    ensures { IsTrue result → (o : Sketch) → method.now ≡ Some o →
        IsTrue (spec.is_closed (value_of names.now bounds.now)
        (value_of names.now marks.now) o) }
{
    match method {
        Some(method) => is_closed(method, names, bounds, marks),
        None => true,
    }
}

/// The same at all methods.
fn are_closed(methods: &[Option<Outline>], names: &Numbering, bounds: &[u32], marks: &[u32]) -> bool
    ensures { IsTrue result → (k : ℕ) (o : Sketch) → slice_get methods.now k ≡ Some (Some o) →
        IsTrue (spec.is_closed (value_of names.now bounds.now)
        (value_of names.now marks.now) o) }
{
    for method in methods {
        if !is_closed_if_any(method, names, bounds, marks) {
            return false;
        }
    }
    true
}

/// Whether the method may be too large, or can open out of one that may be.
fn is_kept(method: &Outline, names: &Numbering, bounds: &[u32], marks: &[u32]) -> bool
    ensures { result ≡ spec.is_kept (value_of names.now bounds.now)
        (value_of names.now marks.now) method.now }
{
    is_heavy(method, names, bounds)
        || is_plain(method) && is_reached(names, marks, &method.name.name)
}

/// The same, or nothing is sure.
fn is_kept_if(
    sure: bool,
    method: &Outline,
    names: &Numbering,
    bounds: &[u32],
    marks: &[u32],
) -> bool
    ensures { result ≡ spec.is_kept_if sure (value_of names.now bounds.now)
        (value_of names.now marks.now) method.now }
{
    !sure || is_kept(method, names, bounds, marks)
}

/// The method, if it may be too large, or can open out of one that may be, or if nothing is sure. The
/// only error is want of memory.
fn kept(
    alloc: Global,
    method: &Option<Outline>,
    names: &Numbering,
    bounds: &[u32],
    marks: &[u32],
    sure: bool,
) -> Result<Option<Outline>, AllocError>
    ensures { IfOk result (λ o. o ≡ suspects.kept (spec.is_kept_if sure
        (value_of names.now bounds.now) (value_of names.now marks.now)) method.now) }
{
    let Some(method) = method else {
        return Ok(None);
    };
    if !is_kept_if(sure, method, names, bounds, marks) {
        return Ok(None);
    }
    Ok(Some(method.copy(alloc)?))
}

/// The same of all methods. The only error is want of memory.
fn heavy_by(
    alloc: Global,
    methods: &[Option<Outline>],
    names: &Numbering,
    bounds: &[u32],
    marks: &[u32],
    sure: bool,
) -> Result<Items<Option<Outline>>, AllocError>
    ensures { IfOk result (λ those. those ≡ map (suspects.kept (spec.is_kept_if sure
        (value_of names.now bounds.now) (value_of names.now marks.now))) methods.now) }
{
    let mut heavy = Items::new(alloc);
    for method in methods {
        heavy.push(kept(alloc, method, names, bounds, marks, sure)?)?;
    }
    Ok(heavy)
}

/// The methods that may be too large by the bounds, and those that can open out of them, each at the
/// number of the method. Bounds and marks that do not hold are not used; then all methods are kept. The
/// only error is want of memory.
pub(crate) fn heavy_of(
    alloc: Global,
    methods: &[Option<Outline>],
    names: &Numbering,
    bounds: &[u32],
    marks: &[u32],
) -> Result<Items<Option<Outline>>, AllocError>
    ensures { IfOk result (AreHeavy methods.now) }
{
    let sure = are_closed(methods, names, bounds, marks);
    heavy_by(alloc, methods, names, bounds, marks, sure)
}
