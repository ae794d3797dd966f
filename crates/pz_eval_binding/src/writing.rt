//! Single variables get values.

ghost use Rattle.std.specs.Prelude.{◌≡◌, length, OnOk, OnErr};
ghost use Rattle.pz_copy.specs.pz_state.Marks.{changed};
ghost use Rattle.pz_copy.specs.pz_state.States.{set_variable, set_local};
ghost use Rattle.pz_copy.specs.pz_state.References.{RefersWithin};

use pz_classes_code::pz_value::Value;
use pz_copy::pz_state::{FrameId, State};
use std::alloc::AllocError;

/// Gives a variable of the process a value, if it is there.
pub fn write_variable(state: &mut State, slot: u32, value: Value) -> Result<(), AllocError>
    requires { RefersWithin (length state.old.held.objects) value }
    ensures ok { OnOk result (state.new ≡ changed state.old
        (set_variable state.old.held slot value)) }
    ensures err { OnErr result (state.new ≡ state.old) }
{
    if slot as usize >= state.variables() {
        return Ok(());
    }
    state.set_var(slot, value)
}

/// Gives a local of a frame a value, if it is there.
pub fn write_local(
    state: &mut State,
    frame: FrameId,
    slot: usize,
    value: Value,
) -> Result<(), AllocError>
    requires { RefersWithin (length state.old.held.objects) value }
    ensures ok { OnOk result (state.new ≡ changed state.old
        (set_local state.old.held frame.0 slot value)) }
    ensures err { OnErr result (state.new ≡ state.old) }
{
    if slot >= state.locals(frame).len() {
        return Ok(());
    }
    state.set_local(frame, slot, value)
}
