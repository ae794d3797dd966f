// The start of a run.
ghost use Rattle.std.specs.Prelude.{◌≡◌, IfOk};
ghost use Rattle.pz_bind.specs.pz_classes.CheckedView.{checked_model};
ghost use Rattle.pz_run_output.specs.pz_classes_openings.OpeningRules.{Opens};
ghost use Rattle.pz_run_output.specs.pz_trace.pz_rules.declared.limits.Edition.TheVariants.{Two};
ghost use Rattle.pz_sim.specs.pz_term_simulator.Simulations.{Starts};
ghost use Rattle.pz_sim.specs.Sims.{simulation_of};
ghost use Rattle.pz_run_output.specs.Plays.{setting_with};

use pz_bind::Net;
use pz_bind::pz_classes::Checked;
use pz_run_output::{Form, limits_of};
use pz_sim::Sim;
use std::alloc::{AllocError, Global};
use std::mem::drop;

/// The simulator of the model at its start, for runs of this form, with so many units for each evaluation
/// where that tells none. The only error is want of memory.
///
/// A form of the second edition is for a model that opens.
pub(crate) fn start(
    alloc: Global,
    checked: Checked,
    form: Form,
    units: u64,
) -> Result<Sim, AllocError>
    requires { (setting_with (checked_model checked) form units).limits.edition ≡ Two →
        Opens (checked_model checked) }
    ensures { IfOk result (λ sim. Starts (setting_with (checked_model checked) form units)
        (simulation_of sim)) }
{
    let limits = limits_of(form, units);
    match Net::flatten(alloc, &checked) {
        Ok(net) => Sim::start(alloc, checked, net, limits),
        Err(error) => {
            drop(checked);
            Err(error)
        }
    }
}
