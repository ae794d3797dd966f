//! From a model to a checked one.

ghost use Rattle.pz_classes_code.specs.pz_syntax.ClassView.{model_view};
ghost use Rattle.pz_classes_code.specs.pz_syntax.ModelText.{HasFewMarks};

use pz_bind::pz_classes::{BuildError, Checked, Classes, Violation};
use pz_check::{CheckError, check};
use pz_classes_code::pz_syntax::Model;
use std::alloc::Global;
use std::io;

/// Why there are no classes, as the checker says it.
pub fn refusal_of(error: BuildError) -> CheckError {
    match error {
        BuildError::NoMemory => CheckError::NoMemory,
        BuildError::Refused(violation) => CheckError::Refused(violation),
    }
}

/// The checked model, or why there is none.
pub fn check_model(alloc: Global, model: Model) -> Result<Checked, CheckError>
    requires { HasFewMarks (model_view model) }
{
    match Classes::build(alloc, &model) {
        Ok(classes) => check(alloc, model, classes),
        Err(error) => {
            std::mem::drop(model);
            Err(refusal_of(error))
        }
    }
}

/// Why there is no checked model: the rule and the place.
pub fn show_error(rt: &HostRuntime, error: CheckError) -> io::Result<()> {
    match error {
        CheckError::NoMemory => print!(rt; "no memory"),
        CheckError::Refused(Violation { rule, pos }) => {
            print!(rt; "C{rule} {}:{}", pos.line, pos.column)
        }
    }
}
