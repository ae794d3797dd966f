ghost use Rattle.std.specs.Prelude.{◌≡◌, IfOk, true};
ghost use Rattle.pz_bind.specs.pz_classes.CheckedView.{checked_model};
ghost use Rattle.pz_bind.specs.devices.Nets.{IsNet};

use pz_ast::copy_model;
use pz_bind::Net;
use pz_bind::pz_classes::{BuildError, Checked, Classes};
use std::alloc::{AllocError, Global};

/// The same model, checked: it is sound as well, and its classes are built again. Takes a time that is
/// linear in the text of the model. The only error is want of memory.
pub fn copy_checked(alloc: Global, checked: &Checked) -> Result<Checked, AllocError>
    ensures { IfOk result (λ copy. checked_model copy ≡ checked_model checked.now) }
{
    let model = copy_model(alloc, checked.model())?;
    match Classes::build(alloc, &model) {
        Ok(classes) => Ok(Checked::new(model, classes)),
        Err(BuildError::NoMemory) => Err(AllocError),
        // A sound model is not refused.
        Err(BuildError::Refused(_)) => unreachable!(),
    }
}

/// A net of the same model. Takes a time that is linear in what stands in the system. The only error is
/// want of memory.
pub fn copy_net(alloc: Global, checked: &Checked) -> Result<Net, AllocError>
    ensures { IfOk result (IsNet (checked_model checked.now)) }
{
    Net::flatten(alloc, checked)
}
