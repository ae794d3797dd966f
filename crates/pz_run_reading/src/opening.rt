// Reading a model that opens: one that violates neither C23 nor C24.

ghost use Rattle.std.specs.Prelude.{◌≡◌, ◌≤◌, ◌-◌, ◌<◌, ◌^◌, IfOk, OnOk, IfErr, length};
ghost use Rattle.pz_bind_rules.specs.pz_syntax.Classes.{ModelTree};
ghost use Rattle.pz_bind_rules.specs.pz_syntax.ModelText.{text as text_of};
ghost use Rattle.pz_bind.specs.pz_classes.CheckedView.{checked_model};
ghost use Rattle.pz_classes_openings.specs.OpeningRules.{Opens};
ghost use Rattle.pz_run_reading.specs.Openings.{IsOpenModelOf, IsRefusedToOpen, IsOpeningRefusal};
ghost use Rattle.pz_run_reading.specs.Answers.{OnRefused, ReadsAs};

use crate::read_error::ReadModelError;
use crate::reading::read_model;
use pz_bind::pz_classes::Checked;
use pz_check::check_opening;
use std::alloc::Global;
use std::mem::drop;

/// Whether a model that violates none of C1 to C22 opens. The error is want of memory, or the least
/// violation of C23; where that has none, of C24.
pub fn open_model(alloc: Global, checked: &Checked) -> Result<(), ReadModelError>
    ensures opens { OnOk result (Opens (checked_model checked.now)) }
    ensures refused { IfErr result (OnRefused (IsOpeningRefusal (checked_model checked.now))) }
{
    match check_opening(alloc, checked) {
        Ok(()) => Ok(()),
        Err(error) => Err(ReadModelError::from(error)),
    }
}

/// The model of a text, which opens. The errors are those of `read_model` and, where it finds none, of
/// `open_model`.
pub fn read_open_model(alloc: Global, text: &[u8]) -> Result<Checked, ReadModelError>
    requires { length text.now < 2 ^ 32 - 1 }
    ensures found { IfOk result (λ checked. IsOpenModelOf text.now (checked_model checked)) }
    // It has at most as many marks as the text has bytes.
    ensures small { IfOk result (λ checked. length (text_of (checked_model checked)) ≤
        length text.now) }
    // The text of a model that opens is refused for want of memory alone.
    ensures only { (m : ModelTree) → IsOpenModelOf text.now m → ReadsAs m result }
    ensures refused { IfErr result (OnRefused (IsRefusedToOpen text.now)) }
{
    let checked = read_model(alloc, text)?;
    match open_model(alloc, &checked) {
        Ok(()) => Ok(checked),
        Err(error) => {
            drop(checked);
            Err(error)
        }
    }
}
