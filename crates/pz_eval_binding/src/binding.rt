//! Values that are bound to variables of a process. The only error is want of memory.

ghost use Rattle.std.specs.Prelude.{◌≡◌, length, All, OnOk};
ghost use Rattle.pz_copy.specs.pz_state.References.{RefersWithin};
ghost use Rattle.pz_copy.specs.pz_state.Marks.{changed};
ghost use Rattle.pz_eval_binding.specs.Binding.{set_slot, set_slots};

use crate::writing::{write_local, write_variable};
use pz_classes_code::Slot;
use pz_classes_code::pz_value::Value;
use pz_copy::pz_state::{FrameId, State};
use std::alloc::AllocError;
use std::mem;

/// Gives a variable of the process, or a local of the frame, a value, if it is there.
pub fn set_slot(
    state: &mut State,
    frame: FrameId,
    slot: Slot,
    value: Value,
) -> Result<(), AllocError>
    requires { RefersWithin (length state.old.held.objects) value }
    ensures ok { OnOk result (state.new ≡ changed state.old
        (set_slot frame.0 slot value state.old.held)) }
    ensures marks { state.new.marks ≡ state.old.marks }
{
    match slot {
        Slot::Local(number) => write_local(state, frame, number as usize, value),
        Slot::Shared(number) => write_variable(state, number, value),
        Slot::Unknown => Ok(()),
    }
}

/// Gives each variable the value at its place, from left to right.
pub fn set_slots(
    state: &mut State,
    frame: FrameId,
    slots: &[Slot],
    mut values: Vec<Value>,
) -> Result<(), AllocError>
    requires { All (RefersWithin (length state.old.held.objects)) values.items }
    ensures ok { OnOk result (state.new ≡ changed state.old
        (set_slots frame.0 slots.now values.items state.old.held)) }
    ensures marks { state.new.marks ≡ state.old.marks }
{
    for (place, slot) in slots.iter().enumerate() {
        if place >= values.len() {
            return Ok(());
        }
        let value = mem::replace(&mut values[place], Value::Nil);
        set_slot(state, frame, *slot, value)?;
    }
    Ok(())
}
