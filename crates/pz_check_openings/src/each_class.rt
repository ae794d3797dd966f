// The rules class by class.

ghost use Rattle.std.specs.Prelude.{◌≡◌, ◌<◌, ◌+◌, length, IfOk};
ghost use Rattle.pz_classes.specs.pz_check_violations.Least.{LeastOf};
ghost use Rattle.pz_check_calls.specs.Calls.{AreTotals};
ghost use Rattle.pz_classes.specs.CheckedView.{checked_model, checked_classes};
ghost use Rattle.pz_classes.specs.pz_classes_rules.ClassNames.{class_id};
ghost use Rattle.pz_classes.specs.Tables.{HasClass};
ghost use Rattle.pz_check_openings.specs.devices.InClass as spec;
ghost use Rattle.pz_check_openings.specs.devices.InClass.{Among, RoundIn, LargeAt, LargeIn};
ghost use Rattle.pz_check_openings.specs.devices.Suspects.{Marked};

use crate::declaring::is_marked;
use crate::in_class::methods_in;
use crate::lookup::{called, count, is_process};
use crate::outline::Outline;
use pz_check_calls::{Method, is_large, least_round, totals};
use pz_classes::Checked;
use pz_classes::pz_check_violations::{Violation, sooner};
use pz_classes::pz_value::ClassId;
use std::alloc::{AllocError, Global};

const TOO_LARGE: u8 = 24;

/// The least call by which a method of the class of this number begins with itself, where the class
/// has a mark. The only error is want of memory.
fn round_in(
    alloc: Global,
    checked: &Checked,
    outlines: &[Option<Outline>],
    marks: &[bool],
    class: u32,
) -> Result<Option<Violation>, AllocError>
    requires { HasClass (checked_classes checked.now) (class_id class) }
    ensures { IfOk result (LeastOf (Marked marks.now
        (RoundIn (checked_model checked.now) outlines.now) class)) }
{
    if !is_marked(marks, class) {
        return Ok(None);
    }
    if !is_process(checked, class) {
        return Ok(None);
    }
    let methods = methods_in(alloc, checked, ClassId(class), outlines)?;
    least_round(alloc, methods.as_slice())
}

/// The same in any class.
pub(crate) fn round_in_any(
    alloc: Global,
    checked: &Checked,
    outlines: &[Option<Outline>],
    marks: &[bool],
) -> Result<Option<Violation>, AllocError>
    ensures { IfOk result (LeastOf (Among
        (Marked marks.now (RoundIn (checked_model checked.now) outlines.now))
        (length (checked_model checked.now).decls + 1))) }
{
    let mut least = None;
    for class in 0..count(checked) {
        let found = round_in(alloc, checked, outlines, marks, class)?;
        least = sooner(least, found);
    }
    Ok(least)
}

/// Whether the class has this method, which has the number.
fn has_method(checked: &Checked, class: ClassId, number: usize, method: &Outline) -> bool
    requires { HasClass (checked_classes checked.now) class }
    ensures { result ≡ spec.is_found (checked_model checked.now) class.0 number method.now }
{
    match called(
        checked,
        class,
        &method.name.name,
        method.inputs,
        method.outputs,
    ) {
        Some(found) => found.0 as usize == number,
        None => false,
    }
}

/// The rule at the method of this number, where it is one of the class and too large.
fn large_at(
    checked: &Checked,
    outlines: &[Option<Outline>],
    class: ClassId,
    methods: &[Method],
    totals: &[u32],
    number: usize,
) -> Option<Violation>
    requires belongs { HasClass (checked_classes checked.now) class }
    requires methods { methods.now ≡ spec.methods_in
        (checked_model checked.now) class.0 outlines.now }
    requires totals { AreTotals methods.now totals.now }
    requires within { number < length outlines.now }
    ensures { LeastOf (LargeAt (checked_model checked.now) outlines.now class.0 number) result }
{
    let Some(method) = &outlines[number] else {
        return None;
    };
    if !has_method(checked, class, number, method) {
        return None;
    }
    if !is_large(methods, totals, number) {
        return None;
    }
    Some(Violation {
        rule: TOO_LARGE,
        pos: method.name.pos,
    })
}

/// The same at any method.
fn large_at_any(
    checked: &Checked,
    outlines: &[Option<Outline>],
    class: ClassId,
    methods: &[Method],
    totals: &[u32],
) -> Option<Violation>
    requires belongs { HasClass (checked_classes checked.now) class }
    requires methods { methods.now ≡ spec.methods_in
        (checked_model checked.now) class.0 outlines.now }
    requires totals { AreTotals methods.now totals.now }
    ensures { LeastOf (Among (LargeAt (checked_model checked.now) outlines.now class.0)
        (length outlines.now)) result }
{
    let mut least = None;
    for number in 0..outlines.len() {
        let found = large_at(checked, outlines, class, methods, totals, number);
        least = sooner(least, found);
    }
    least
}

/// The same in the class of this number, where that is a process class and has a mark. The only error
/// is want of memory.
fn large_in(
    alloc: Global,
    checked: &Checked,
    outlines: &[Option<Outline>],
    marks: &[bool],
    class: u32,
) -> Result<Option<Violation>, AllocError>
    requires { HasClass (checked_classes checked.now) (class_id class) }
    ensures { IfOk result (LeastOf (Marked marks.now
        (LargeIn (checked_model checked.now) outlines.now) class)) }
{
    if !is_marked(marks, class) {
        return Ok(None);
    }
    if !is_process(checked, class) {
        return Ok(None);
    }
    let class = ClassId(class);
    let methods = methods_in(alloc, checked, class, outlines)?;
    let totals = totals(alloc, methods.as_slice())?;
    Ok(large_at_any(
        checked,
        outlines,
        class,
        methods.as_slice(),
        totals.as_slice(),
    ))
}

/// The same in any class.
pub(crate) fn large_in_any(
    alloc: Global,
    checked: &Checked,
    outlines: &[Option<Outline>],
    marks: &[bool],
) -> Result<Option<Violation>, AllocError>
    ensures { IfOk result (LeastOf (Among
        (Marked marks.now (LargeIn (checked_model checked.now) outlines.now))
        (length (checked_model checked.now).decls + 1))) }
{
    let mut least = None;
    for class in 0..count(checked) {
        let found = large_in(alloc, checked, outlines, marks, class)?;
        least = sooner(least, found);
    }
    Ok(least)
}
