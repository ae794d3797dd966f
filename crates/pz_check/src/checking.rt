// All rules together.

ghost use Rattle.std.specs.Prelude.{◌≡◌, IfOk, IfErr};
ghost use Rattle.pz_classes.specs.pz_syntax.ClassView.{model_view};
ghost use Rattle.pz_classes.specs.pz_syntax.ModelText.{HasFewMarks};
ghost use Rattle.pz_classes.specs.pz_check_violations.declared.violation.Violation.{Violation as Found};
ghost use Rattle.pz_classes.specs.pz_check_violations.Order.{IsLeast};
ghost use Rattle.pz_classes.specs.pz_check_violations.Least.{LeastOf};
ghost use Rattle.pz_classes.specs.devices.Rows.{AreClasses};
ghost use Rattle.pz_classes.specs.pz_classes_rules.Violations.{Violates};
ghost use Rattle.pz_classes.specs.pz_classes_rules.Soundness.{Breaks};
ghost use Rattle.pz_classes.specs.CheckedView.{checked_model, checked_classes};
ghost use Rattle.pz_check.specs.Together.{OnRefused};

use crate::CheckError;
use crate::size::least_of_size;
use pz_check_duplicates::{least_double_end, least_repeat};
use pz_check_instances::{least_ill_given, least_missing_end};
use pz_check_names::least_misuse;
use pz_classes::pz_check_violations::{Violation, sooner};
use pz_classes::pz_syntax::Model;
use pz_classes::{Checked, Classes};
use std::alloc::{AllocError, Global};
use std::mem::drop;

/// The least violation of the rules C4 to C22, if there is one. The only error is want of memory.
fn least_violation(
    alloc: Global,
    model: &Model,
    classes: &Classes,
) -> Result<Option<Violation>, AllocError>
    requires few { HasFewMarks (model_view model.now) }
    requires classes { AreClasses (model_view model.now) classes.now }
    ensures { IfOk result (LeastOf (Breaks (model_view model.now))) }
{
    let words = least_misuse(alloc, model, classes)?;
    let repeats = least_repeat(alloc, model, classes)?;
    let given = least_ill_given(alloc, model, classes)?;
    let ends = least_missing_end(alloc, model, classes)?;
    let doubled = least_double_end(alloc, model)?;
    let sized = least_of_size(alloc, model, classes)?;
    let named = sooner(words, repeats);
    let connected = sooner(sooner(given, ends), doubled);
    Ok(sooner(sooner(named, connected), sized))
}

/// The model as a sound one, or the least violation of the rules C4 to C22, by place and then by
/// rule. The model and its classes are given up at an error.
pub fn check(alloc: Global, model: Model, classes: Classes) -> Result<Checked, CheckError>
    requires few { HasFewMarks (model_view model) }
    requires tabled { AreClasses (model_view model) classes }
    requires built { (v : Found) → Violates (model_view model) v → ⊥ }
    ensures model { IfOk result (λ checked. checked_model checked ≡ model_view model) }
    ensures classes { IfOk result (λ checked. checked_classes checked ≡ classes) }
    ensures sound { IfOk result (λ checked. (v : Found) → Breaks (model_view model) v → ⊥) }
    ensures refused { IfErr result (OnRefused (IsLeast (Breaks (model_view model)))) }
{
    match least_violation(alloc, &model, &classes) {
        Ok(None) => Ok(Checked::new(model, classes)),
        Ok(Some(violation)) => {
            drop(model);
            drop(classes);
            Err(CheckError::Refused(violation))
        }
        Err(error) => {
            drop(model);
            drop(classes);
            Err(CheckError::from(error))
        }
    }
}
