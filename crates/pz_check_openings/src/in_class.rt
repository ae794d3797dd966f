// The methods as they call each other in one class.

ghost use Rattle.std.specs.Prelude.{◌≡◌, ◌++◌, IfOk, OnOk};
ghost use Rattle.pz_classes.specs.CheckedView.{checked_model, checked_classes};
ghost use Rattle.pz_classes.specs.Tables.{HasClass};
ghost use Rattle.pz_check_openings.specs.devices.InClass as spec;

use crate::lookup::called;
use crate::outline::Outline;
use pz_check_calls::{Call, Method};
use pz_classes::Checked;
use pz_classes::pz_items::Items;
use pz_classes::pz_syntax::Id;
use pz_classes::pz_value::ClassId;
use std::alloc::{AllocError, Global};

/// Adds the call, where the class has its method. The only error is want of memory.
fn push_call(
    checked: &Checked,
    class: ClassId,
    call: &Id,
    calls: &mut Items<Call>,
) -> Result<(), AllocError>
    requires { HasClass (checked_classes checked.now) class }
    ensures { OnOk result (calls.new ≡ calls.old ++
        spec.call_in (checked_model checked.now) class.0 call.now) }
{
    match called(checked, class, &call.name, 0, 0) {
        Some(method) => calls.push(Call {
            method: method.0,
            pos: call.pos,
        }),
        None => Ok(()),
    }
}

/// These calls, with the methods that they mean in the class. The only error is want of memory.
fn calls_in(
    alloc: Global,
    checked: &Checked,
    class: ClassId,
    calls: &[Id],
) -> Result<Items<Call>, AllocError>
    requires { HasClass (checked_classes checked.now) class }
    ensures { IfOk result (λ found. found ≡
        spec.calls_in (checked_model checked.now) class.0 calls.now) }
{
    let mut found = Items::new(alloc);
    for call in calls {
        push_call(checked, class, call, &mut found)?;
    }
    Ok(found)
}

/// The method as it calls others in the class. The only error is want of memory.
fn method_in(
    alloc: Global,
    checked: &Checked,
    class: ClassId,
    outline: &Option<Outline>,
) -> Result<Method, AllocError>
    requires { HasClass (checked_classes checked.now) class }
    ensures { IfOk result (λ found. found ≡
        spec.method_in (checked_model checked.now) class.0 outline.now) }
{
    match outline {
        Some(outline) => {
            let begun = calls_in(alloc, checked, class, outline.begun.as_slice())?;
            let calls = calls_in(alloc, checked, class, outline.calls.as_slice())?;
            Ok(Method {
                statements: outline.statements,
                begun,
                calls,
            })
        }
        None => Ok(Method {
            statements: 0,
            begun: Items::new(alloc),
            calls: Items::new(alloc),
        }),
    }
}

/// All methods of the model as they call each other in the class. The only error is want of memory.
pub(crate) fn methods_in(
    alloc: Global,
    checked: &Checked,
    class: ClassId,
    outlines: &[Option<Outline>],
) -> Result<Items<Method>, AllocError>
    requires { HasClass (checked_classes checked.now) class }
    ensures { IfOk result (λ found. found ≡
        spec.methods_in (checked_model checked.now) class.0 outlines.now) }
{
    let mut found = Items::new(alloc);
    for outline in outlines {
        found.push(method_in(alloc, checked, class, outline)?)?;
    }
    Ok(found)
}
