// Names, methods and messages that are declared twice: the rule C4.

ghost use Rattle.std.specs.Prelude.{◌≡◌, ◌<◌, ◌^◌, length, map, IfOk};
ghost use Rattle.std.specs.List.{flat_map};
ghost use Rattle.pz_classes.specs.pz_syntax.ClassView.{decl_view, model_view};
ghost use Rattle.pz_classes.specs.pz_syntax.ModelText.{HasFewMarks, decl_text};
ghost use Rattle.pz_classes_mentions.specs.Declarations.{parts};
ghost use Rattle.pz_check_violations.specs.Least.{LeastOf, least_from};
ghost use Rattle.pz_classes.specs.pz_classes_rules.RepeatRules.{BreaksC4};
ghost use Rattle.pz_classes.specs.devices.Rows.{AreClasses};
ghost use Rattle.pz_check_duplicates.specs.devices.RepeatList.{of_parts, of_own};

use crate::inherited::Inherited;
use crate::messages::least_message;
use crate::methods::least_method;
use crate::names::{least_instance, least_variable};
use crate::walk::least_inherited;
use pz_check_violations::Violation;
use pz_classes::pz_syntax::{Decl, Model};
use pz_classes::{Classes, instances_of};
use pz_classes_mentions::parts_of;
use std::alloc::{AllocError, Global};

/// The least of what was found before and the local names that repeat one of the same method.
fn least_local(
    alloc: Global,
    decl: &Decl,
    before: Option<Violation>,
) -> Result<Option<Violation>, AllocError>
    ensures { IfOk result (λ least. least ≡ least_from before
        (of_parts (parts (decl_view decl.now)))) }
{
    let parts = parts_of(alloc, decl)?;
    let mut least = before;
    for part in parts.as_slice() {
        least = least_variable(alloc, part.locals(), least)?;
    }
    Ok(least)
}

/// The least of what was found before and what the class itself declares twice.
#[tactic(auto, using(pz_check_violations::proofs::Leasts::least_from_append))]
fn least_own(
    alloc: Global,
    decl: &Decl,
    before: Option<Violation>,
) -> Result<Option<Violation>, AllocError>
    requires { length (decl_text (decl_view decl.now)) < 2 ^ 32 }
    ensures { IfOk result (λ least. least ≡ least_from before (of_own (decl_view decl.now))) }
{
    let local = least_local(alloc, decl, before)?;
    let instance = least_instance(alloc, instances_of(decl), local)?;
    let method = least_method(alloc, decl, instance)?;
    least_message(alloc, decl, method)
}

/// The least of what was found before and what any class itself declares twice.
fn least_of_each(
    alloc: Global,
    decls: &[Decl],
    before: Option<Violation>,
) -> Result<Option<Violation>, AllocError>
    requires { HasFewMarks (record { decls = map decl_view decls.now }) }
    ensures { IfOk result (λ least. least ≡ least_from before
        (flat_map (λ d. of_own (decl_view d)) decls.now)) }
{
    let mut least = before;
    for decl in decls {
        least = least_own(alloc, decl, least)?;
    }
    Ok(least)
}

/// The least place where a name, a method or a message is declared again, if there is one. The only
/// error is want of memory.
pub fn least_repeat(
    alloc: Global,
    model: &Model,
    classes: &Classes,
) -> Result<Option<Violation>, AllocError>
    requires few { HasFewMarks (model_view model.now) }
    requires classes { AreClasses (model_view model.now) classes.now }
    ensures { IfOk result (LeastOf (BreaksC4 (model_view model.now))) }
{
    let visits = classes.preorder();
    let field = least_inherited(alloc, model, visits, Inherited::Fields, None)?;
    let variable = least_inherited(alloc, model, visits, Inherited::Variables, field)?;
    let port = least_inherited(alloc, model, visits, Inherited::Ports, variable)?;
    least_of_each(alloc, model.decls.as_slice(), port)
}
