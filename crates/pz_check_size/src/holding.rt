// The rule C15: no cluster class holds itself.

ghost use Rattle.std.specs.Prelude.{IfOk};
ghost use Rattle.pz_classes.specs.pz_syntax.ClassView.{model_view};
ghost use Rattle.pz_check_violations.specs.Least.{LeastOf};
ghost use Rattle.pz_classes.specs.pz_classes_rules.InstanceRules.{BreaksC15};
ghost use Rattle.pz_classes.specs.devices.Rows.{AreClasses};

use crate::leading_back::least_leading_back;
use crate::nodes::nodes_of;
use pz_check_violations::Violation;
use pz_classes::Classes;
use pz_classes::pz_syntax::Model;
use std::alloc::{AllocError, Global};

/// The least instance by which a cluster class holds itself, directly or through others, at the
/// name of the instance's class. The only error is want of memory.
pub fn least_holding(
    alloc: Global,
    model: &Model,
    classes: &Classes,
) -> Result<Option<Violation>, AllocError>
    requires { AreClasses (model_view model.now) classes.now }
    ensures { IfOk result (LeastOf (BreaksC15 (model_view model.now))) }
{
    let nodes = nodes_of(alloc, model, classes)?;
    least_leading_back(alloc, nodes.as_slice())
}
