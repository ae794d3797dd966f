// The calls with which processes start. The only error is want of memory.

ghost use Rattle.std.specs.Prelude.{◌≡◌, [], ℕ, List, IfOk};
ghost use Rattle.std.specs.Option.{option_map, option_copied, option_and_then};
ghost use Rattle.pz_classes_code.specs.pz_syntax.Classes.{ModelTree};
ghost use Rattle.pz_classes_code.specs.pz_syntax.ClassView.{model_view, start_view};
ghost use Rattle.pz_classes_code.specs.pz_syntax.Statements.{call};
ghost use Rattle.pz_classes_code.specs.StepView as step;
ghost use Rattle.pz_classes_code.specs.Resolution.{resolved_all};
ghost use Rattle.pz_classes_rules.specs.Numbers.{declaration as declared};
ghost use Rattle.pz_classes_rules.specs.Ancestors.{ancestors};
ghost use Rattle.pz_classes.specs.devices.Inherited.{HasMembers};
ghost use Rattle.pz_classes_rules.specs.Starts.{own_start, own_call};
ghost use Rattle.pz_classes.specs.devices.Surrounding.{scope_around, Numbers};

use crate::declarations::declaration;
use crate::front::Front;
use crate::surroundings::Surroundings;
use crate::{Code, Step, StepForm};
use pz_classes_code::pz_items::{Items, Shared};
use pz_classes_code::pz_syntax::{Decl, Id, Model, Start};
use pz_classes_code::{Numbering, Scope, resolve_list};
use std::alloc::{AllocError, Global};

/// The `init` that the class of this number itself declares.
fn declared_start(model: &Model, class: u32) -> Option<&Start>
    ensures { option_map start_view (option_copied result) ≡ option_and_then own_start
        (declared (model_view model.now) class) }
{
    match declaration(model, class)? {
        Decl::Process(declared) => declared.start.as_ref(),
        _ => None,
    }
}

/// The call that an `init` names, without results.
fn start_call(
    alloc: Global,
    around: &Surroundings<'_>,
    classes: &Numbering,
    start: &Start,
) -> Result<Step, AllocError>
    ensures { IfOk result (λ s. step.view s ≡ call start.now.method.pos start.now.method
        (resolved_all (scope_around around.now classes.now []) (start_view start.now).args) []) }
{
    let none = Numbering::new(alloc);
    let scope = Scope {
        locals: &none,
        shared: around.shared,
        ports: around.ports,
        classes,
    };
    let args = resolve_list(alloc, &scope, start.args.as_slice())?;
    let form = call_form(alloc, &start.method, args)?;
    Ok(Step {
        pos: start.method.pos,
        form: Shared::new(alloc, form)?,
    })
}

/// A call of this method with these arguments and without results. The only error is want of memory.
fn call_form(alloc: Global, method: &Id, args: Items<Code>) -> Result<StepForm, AllocError>
    ensures { IfOk result (λ form. form ≡ StepForm.Call method.now args []) }
{
    let args = Shared::new(alloc, args)?;
    let method = Shared::new(alloc, method.copy()?)?;
    let results = Shared::new(alloc, Items::new(alloc))?;
    Ok(StepForm::Call {
        method,
        args,
        results,
    })
}

/// The call of the `init` that the class of this number itself declares, if it has one.
pub(crate) fn start_at(
    alloc: Global,
    model: &Model,
    classes: &Numbering,
    members: &Front,
    class: u32,
) -> Result<Option<Step>, AllocError>
    requires numbered { Numbers (model_view model.now) classes.now }
    requires inherited { HasMembers (model_view model.now)
        (ancestors (model_view model.now) class) members.now }
    ensures { IfOk result (λ s. option_map step.view s ≡ own_call (model_view model.now) class) }
{
    match declared_start(model, class) {
        None => Ok(None),
        Some(start) => {
            let around = members.around_process();
            Ok(Some(start_call(alloc, &around, classes, start)?))
        }
    }
}
