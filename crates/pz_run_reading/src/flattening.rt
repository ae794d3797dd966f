// The model of a text that opens, with the processes and wires of its system.

ghost use Rattle.std.specs.Prelude.{◌≡◌, ◌-◌, ◌<◌, ◌^◌, IfOk, IfErr, length};
ghost use Rattle.pz_bind_rules.specs.pz_syntax.Classes.{ModelTree};
ghost use Rattle.pz_bind.specs.pz_classes.CheckedView.{checked_model};
ghost use Rattle.pz_run_reading.specs.Openings.{IsOpenModelOf, IsRefusedToOpen};
ghost use Rattle.pz_run_reading.specs.Sizes.{IsAccepted};
ghost use Rattle.pz_run_reading.specs.Answers.{OnRefused, FlattensAs};

use crate::flat_model::FlatModel;
use crate::opening::read_open_model;
use crate::read_error::ReadModelError;
use crate::size::Size;
use pz_bind::Net;
use std::alloc::Global;
use std::mem::drop;

/// The model of a text, which opens, with its net. The errors are those of `read_open_model`. Beyond the
/// reading the time is linear in what stands in the system and in the names in full.
fn read_net(alloc: Global, text: &[u8]) -> Result<FlatModel, ReadModelError>
    requires { length text.now < 2 ^ 32 - 1 }
    ensures found { IfOk result (λ flat. IsOpenModelOf text.now (checked_model flat.checked)) }
    // The text of a model that opens is refused for want of memory alone.
    ensures only { (m : ModelTree) → IsOpenModelOf text.now m → FlattensAs m result }
    ensures refused { IfErr result (OnRefused (IsRefusedToOpen text.now)) }
{
    let checked = read_open_model(alloc, text)?;
    match Net::flatten(alloc, &checked) {
        Ok(net) => Ok(FlatModel { checked, net }),
        Err(_) => {
            drop(checked);
            Err(ReadModelError::NoMemory)
        }
    }
}

/// The size of the system of the model of a text, which opens. The errors and the time are those of `read_net`.
pub fn measure(alloc: Global, text: &[u8]) -> Result<Size, ReadModelError>
    requires { length text.now < 2 ^ 32 - 1 }
    ensures found { IfOk result (λ size. IsAccepted text.now size.processes size.wires) }
    ensures only { (m : ModelTree) → IsOpenModelOf text.now m →
        IfErr result (λ e. e ≡ ReadModelError.NoMemory) }
    ensures refused { IfErr result (OnRefused (IsRefusedToOpen text.now)) }
{
    let flat = read_net(alloc, text)?;
    Ok(flat.size())
}
