// The inputs and the locals of a frame. The only error is want of memory.

ghost use Rattle.std.specs.Prelude.{◌≡◌, length, take, drop, All, IfOk, OnOk};
ghost use Rattle.pz_rules.specs.pz_state.References.{RefersWithin};
ghost use Rattle.pz_rules.specs.pz_state.States.{locals};
ghost use Rattle.pz_rules.specs.pz_state.Marks.{changed};
ghost use Rattle.pz_eval_binding.specs.Binding.{set_slots, first_slots};

use pz_classes_code::pz_value::Value;
use pz_eval_binding::write_local;
use pz_rules::pz_state::{FrameId, State};
use std::alloc::{AllocError, Global};
use std::mem;

/// Gives the first locals of a frame these values, where there are so many.
pub fn set_inputs(
    state: &mut State,
    frame: FrameId,
    mut values: Vec<Value>,
) -> Result<(), AllocError>
    requires { All (RefersWithin (length state.old.held.objects)) values.items }
    ensures { OnOk result (state.new ≡ changed state.old
        (set_slots frame.0 (first_slots 0 values.items) values.items state.old.held)) }
{
    for place in 0..values.len() {
        let value = mem::replace(&mut values[place], Value::Nil);
        write_local(state, frame, place, value)?;
    }
    Ok(())
}

/// The locals of a frame behind the first so many, and no more than wanted.
pub fn copy_locals(
    alloc: Global,
    state: &State,
    frame: FrameId,
    first: usize,
    wanted: usize,
) -> Result<Vec<Value>, AllocError>
    ensures values { IfOk result (λ values. values.items ≡ take wanted
        (drop first (locals state.now.held frame.0))) }
    ensures within { IfOk result (λ values. All (RefersWithin (length state.now.held.objects))
        values.items) }
{
    let mut values = Vec::new(alloc);
    let there = state.locals(frame).len().saturating_sub(first);
    for count in 0..there.min(wanted) {
        values.push(state.local(frame, first + count).copy()?)?;
    }
    Ok(values)
}
