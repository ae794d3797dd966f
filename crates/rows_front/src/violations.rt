//! What the checker finds.

ghost use Rattle.pz_classes_code.specs.pz_syntax.ClassView.{model_view};
ghost use Rattle.pz_classes_code.specs.pz_syntax.ModelText.{HasFewMarks};

use crate::checking::{check_model, show_error};
use pz_check::{CheckError, check_opening};
use pz_classes_code::pz_syntax::Model;
use std::alloc::Global;
use std::io;

/// What the checker says of a model, without the rules of opening.
fn violation(alloc: Global, model: Model) -> Result<(), CheckError>
    requires { HasFewMarks (model_view model) }
{
    match check_model(alloc, model) {
        Ok(_) => Ok(()),
        Err(error) => Err(error),
    }
}

/// The same with the rules of opening.
fn violation_of_opening(alloc: Global, model: Model) -> Result<(), CheckError>
    requires { HasFewMarks (model_view model) }
{
    match check_model(alloc, model) {
        Ok(checked) => check_opening(alloc, &checked),
        Err(error) => Err(error),
    }
}

fn show_verdict(rt: &HostRuntime, verdict: Result<(), CheckError>, line: &str) -> io::Result<()> {
    match verdict {
        Ok(()) => print!(rt; "sound")?,
        Err(error) => show_error(rt, error)?,
    }
    println!(rt; ": {line}")
}

/// What the checker says of the model of a line, without the rules of opening.
pub fn show_violation(rt: &HostRuntime, model: Model, line: &str) -> io::Result<()>
    requires { HasFewMarks (model_view model) }
{
    show_verdict(rt, violation(rt.alloc(), model), line)
}

/// The same with the rules of opening.
pub fn show_opening(rt: &HostRuntime, model: Model, line: &str) -> io::Result<()>
    requires { HasFewMarks (model_view model) }
{
    show_verdict(rt, violation_of_opening(rt.alloc(), model), line)
}
