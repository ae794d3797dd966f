// The rules of opening, which are asked of a model that is sound.

ghost use Rattle.std.specs.Prelude.{OnOk, IfErr};
ghost use Rattle.pz_classes.specs.CheckedView.{checked_model};
ghost use Rattle.pz_classes_openings.specs.OpeningRules.{Opens, IsOpeningViolation};
ghost use Rattle.pz_check.specs.Together.{OnRefused};

use crate::CheckError;
use pz_check_openings::least_opening;
use pz_classes::Checked;
use std::alloc::Global;

/// Whether opening ends in this model and is never too large: no method of a process class begins
/// with itself, directly or through others, and none is larger than 1,000,000 statements with all
/// that opens out of it. Else it is refused with the least violation of C23 by place; where that has
/// none, of C24.
pub fn check_opening(alloc: Global, checked: &Checked) -> Result<(), CheckError>
    ensures opens { OnOk result (Opens (checked_model checked.now)) }
    ensures refused { IfErr result (OnRefused (IsOpeningViolation (checked_model checked.now))) }
{
    match least_opening(alloc, checked)? {
        None => Ok(()),
        Some(violation) => Err(CheckError::Refused(violation)),
    }
}
