ghost use Rattle.std.specs.Prelude.{◌≡◌, IfOk};
ghost use Rattle.pz_bind.specs.pz_classes.CheckedView.{checked_model};
ghost use Rattle.pz_classes_openings.specs.OpeningRules.{Opens};
ghost use Rattle.pz_bind.specs.devices.Nets.{IsNet};
ghost use Rattle.pz_rules.specs.declared.limits.Edition.TheVariants.{Two};
ghost use Rattle.pz_term_processes.specs.Standing.{setting_of};
ghost use Rattle.pz_term_simulator.specs.Simulations.{Starts};

use pz_bind::Net;
use pz_bind::pz_classes::Checked;
use pz_term_simulator::{Limits, Simulator};
use std::alloc::{AllocError, Global};

/// A simulator that can be started.
pub trait Engine: Simulator {
    /// The simulator of a model before its first step, whose net this is. The only error is want of
    /// memory.
    ///
    /// In edition Two no method of the model begins with itself, and none opens as too much (C23, C24).
    fn start(alloc: Global, checked: Checked, net: Net, limits: Limits) -> Result<Self, AllocError>
        requires of_model { ∥ IsNet (checked_model checked) net ∥₁ }
        requires opens { limits.edition ≡ Two → Opens (checked_model checked) }
        ensures { IfOk result (λ engine. Starts (setting_of (checked_model checked) limits)
            (Self.simulation engine)) };
}
