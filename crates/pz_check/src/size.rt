// The rules on the system and on what stands in it: C15, C20 and, where they hold, C19.

ghost use Rattle.std.specs.Prelude.{IfOk};
ghost use Rattle.pz_classes.specs.pz_syntax.ClassView.{model_view};
ghost use Rattle.pz_classes.specs.pz_check_violations.Least.{LeastOf};
ghost use Rattle.pz_classes.specs.pz_classes_rules.InstanceRules.{BreaksC15};
ghost use Rattle.pz_classes.specs.pz_classes_rules.SizeRules.{BreaksC19, BreaksC20};
ghost use Rattle.pz_classes.specs.devices.Rows.{AreClasses};
ghost use Rattle.pz_check.specs.Together.{BreaksSize};

use pz_check_duplicates::least_system;
use pz_check_names::has_unsized_words;
use pz_check_size::{least_holding, oversized};
use pz_classes::Classes;
use pz_classes::pz_check_violations::{Violation, sooner};
use pz_classes::pz_syntax::Model;
use std::alloc::{AllocError, Global};

/// The violation of C19, if there is one. The other two are the least violations of C15 and C20: a
/// model with one of them has no size.
fn least_oversize(
    alloc: Global,
    model: &Model,
    classes: &Classes,
    holding: Option<Violation>,
    system: Option<Violation>,
) -> Result<Option<Violation>, AllocError>
    requires tabled { AreClasses (model_view model.now) classes.now }
    requires holding { LeastOf (BreaksC15 (model_view model.now)) holding }
    requires system { LeastOf (BreaksC20 (model_view model.now)) system }
    ensures { IfOk result (LeastOf (BreaksC19 (model_view model.now))) }
{
    if holding.is_some() {
        return Ok(None);
    }
    if system.is_some() {
        return Ok(None);
    }
    if has_unsized_words(alloc, model, classes)? {
        return Ok(None);
    }
    oversized(alloc, model, classes)
}

/// The least violation of C15, C19 and C20, if there is one. The only error is want of memory.
pub(crate) fn least_of_size(
    alloc: Global,
    model: &Model,
    classes: &Classes,
) -> Result<Option<Violation>, AllocError>
    requires { AreClasses (model_view model.now) classes.now }
    ensures { IfOk result (LeastOf (BreaksSize (model_view model.now))) }
{
    let holding = least_holding(alloc, model, classes)?;
    let system = least_system(alloc, model)?;
    let oversize = least_oversize(alloc, model, classes, holding, system)?;
    Ok(sooner(sooner(holding, system), oversize))
}
