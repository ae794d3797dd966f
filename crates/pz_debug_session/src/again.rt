// A run that is played once more.

ghost use Rattle.std.specs.Prelude.{◌≡◌, ◌<◌, ◌^◌, length, IfOk};
ghost use Rattle.pz_classes_openings.specs.OpeningRules.{Opens};
ghost use Rattle.pz_rules.specs.declared.limits.Edition.TheVariants.{Two};
ghost use Rattle.pz_term_simulator.specs.Simulations.{Simulation, Starts, setting_in, model_in, limits_in};
ghost use Rattle.pz_debug_session.specs.Steps.{StandsAfter, StandsLow};

use crate::engine::Engine;
use crate::laws::rules_are_known;
use crate::step::Step;
use crate::taking::take_all;
use pz_debug_copies::{copy_checked, copy_net};
use std::alloc::{AllocError, Global};
use std::mem::drop;

/// A simulator of the same model by the same limits, before its first step. The only error is want of
/// memory.
fn start_again<E: Engine>(alloc: Global, engine: &E) -> Result<E, AllocError>
    requires { (limits_in (E.simulation engine.now)).edition ≡ Two →
        Opens (model_in (E.simulation engine.now)) }
    ensures { IfOk result (λ again. Starts (setting_in (E.simulation engine.now))
        (E.simulation again)) }
{
    let checked = copy_checked(alloc, engine.checked())?;
    let net = match copy_net(alloc, &checked) {
        Ok(net) => net,
        Err(error) => {
            drop(checked);
            return Err(error);
        }
    };
    E::start(alloc, checked, net, engine.limits())
}

/// Another simulator of the same model by the same limits, that has taken these steps from the start
/// on, which lead somewhere. The only error is want of memory.
pub(crate) fn play_again<E: Engine + Drop>(
    alloc: Global,
    engine: &E,
    steps: &[Step],
) -> Result<E, AllocError>
    requires opens { (limits_in (E.simulation engine.now)).edition ≡ Two →
        Opens (model_in (E.simulation engine.now)) }
    requires leads { (to : Simulation) × StandsAfter (setting_in (E.simulation engine.now))
        steps.now to }
    requires few { length steps.now < 2 ^ 63 }
    ensures { IfOk result (λ again. StandsLow (setting_in (E.simulation engine.now)) steps.now
        (E.simulation again)) }
{
    rules_are_known();
    let mut again = start_again(alloc, engine)?;
    take_all(&mut again, steps)?;
    Ok(again)
}
