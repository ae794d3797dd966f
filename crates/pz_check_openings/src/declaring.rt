// Which classes declare one of some methods.

ghost use Rattle.std.specs.Prelude.{◌≡◌, ◌≤◌, ◌<◌, ◌+◌, ℕ, Some, length, min, slice_get, IsTrue, IfOk};
ghost use Rattle.pz_classes.specs.pz_syntax.ClassView.{decl_view, model_view};
ghost use Rattle.pz_classes.specs.pz_classes_rules.Methods.{signatures};
ghost use Rattle.pz_check_openings.specs.devices.Suspects as spec;
ghost use Rattle.pz_check_openings.specs.devices.Suspects.{AreMarked};
ghost use Rattle.pz_check_openings.specs.declared.outline.Outline.{Outline as Sketch};

use crate::outline::Outline;
use pz_classes::pz_syntax::{Decl, Model};
use std::alloc::{AllocError, Global};

/// How many methods a class declares itself.
fn count_declared(decl: &Decl) -> usize
    ensures { result ≡ length (signatures (decl_view decl.now)) }
{
    match decl {
        Decl::Data(class) => match &class.methods {
            Some(methods) => methods.len(),
            None => 0,
        },
        Decl::Process(class) => match &class.methods {
            Some(methods) => methods.len(),
            None => 0,
        },
        Decl::Cluster(_) => 0,
        Decl::System(_) => 0,
    }
}

/// Whether one of the methods stands at this number.
fn has_at(methods: &[Option<Outline>], number: usize) -> bool
    ensures { (o : Sketch) → slice_get methods.now number ≡ Some (Some o) → IsTrue result }
{
    match methods.get(number) {
        Some(method) => method.is_some(),
        None => false,
    }
}

/// Whether one of the methods stands at a number from the first on, and before the next.
fn has_between(methods: &[Option<Outline>], first: usize, next: usize) -> bool
    ensures { (k : ℕ) (o : Sketch) → first ≤ k → k < next →
        slice_get methods.now k ≡ Some (Some o) → IsTrue result }
{
    for number in first..next {
        if has_at(methods, number) {
            return true;
        }
    }
    false
}

/// The number after those of so many methods, the first of which has this number; at most as many as
/// there are methods.
fn next_after(methods: &[Option<Outline>], first: usize, count: usize) -> usize
    ensures { result ≡ min (first + count) (length methods.now) }
{
    first.saturating_add(count).min(methods.len())
}

/// Whether the class of this number has a mark.
pub(crate) fn is_marked(marks: &[bool], class: u32) -> bool
    ensures { result ≡ spec.is_marked marks.now class }
{
    match marks.get(class as usize) {
        Some(mark) => *mark,
        None => false,
    }
}

/// For each class a mark, Array included: whether it declares one of these methods, which stand each
/// at its number. The only error is want of memory.
pub(crate) fn declaring(
    alloc: Global,
    model: &Model,
    methods: &[Option<Outline>],
) -> Result<Vec<bool>, AllocError>
    ensures { IfOk result (λ marks. AreMarked (model_view model.now) methods.now marks.items) }
{
    let mut marks = Vec::new(alloc);
    marks.push(false)?;
    let mut first = 0;
    for decl in model.decls.as_slice() {
        let next = next_after(methods, first, count_declared(decl));
        marks.push(has_between(methods, first, next))?;
        first = next;
    }
    Ok(marks)
}
