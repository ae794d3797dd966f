ghost use Rattle.pz_bind.specs.pz_classes.CheckedView.{checked_model};
ghost use Rattle.pz_bind.specs.devices.Nets.{IsNet};

use crate::size::Size;
use pz_bind::Net;
use pz_bind::pz_classes::Checked;

/// A model that violates no rule, and its net: the processes of its system, each cluster expanded, and
/// the wires between them.
pub(crate) struct FlatModel {
    pub checked: Checked,
    pub net: Net,
    ghost of_model: { ∥ IsNet (checked_model checked) net ∥₁ },
}

// Written out, so that it is proved once, here, and not in each function that drops one.
impl Drop for FlatModel {
    fn drop(self) {
        let FlatModel { checked, net } = self;
        std::mem::drop(checked);
        std::mem::drop(net);
    }
}

impl FlatModel {
    ghost use Rattle.pz_run_reading.specs.Sizes.{HasSize};

    /// How many processes and wires there are. Takes no memory.
    pub(crate) fn size(&self) -> Size
        ensures { HasSize (checked_model self.now.checked) result.processes result.wires }
    {
        Size {
            processes: self.net.processes(),
            wires: self.net.wires(),
        }
    }
}
