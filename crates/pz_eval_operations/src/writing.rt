//! Variables get values.

ghost use Rattle.std.specs.Prelude.{◌≡◌, length, slice_set, OnOk, OnErr, All};
ghost use Rattle.pz_state.specs.Marks.{changed};
ghost use Rattle.pz_state.specs.States.{set_item};
ghost use Rattle.pz_state.specs.References.{RefersWithin};
ghost use Rattle.pz_eval_rules.specs.Memories.{write};
ghost use Rattle.pz_eval_operations.specs.devices.Sites.{place_of, memory_at};

use crate::task::Site;
use pz_classes_code::Slot;
use pz_classes_code::pz_value::Value;
use pz_eval_binding::{write_local, write_variable};
use pz_state::State;
use std::alloc::AllocError;

/// Gives a field of an object a value, if it is there.
fn write_field(state: &mut State, r: u32, place: u32, value: Value) -> Result<(), AllocError>
    requires { RefersWithin (length state.old.held.objects) value }
    ensures ok { OnOk result (state.new ≡ changed state.old
        (set_item state.old.held r place value)) }
    ensures err { OnErr result (state.new ≡ state.old) }
{
    if r >= state.objects() {
        return Ok(());
    }
    if place as usize >= state.object(r).items().len() {
        return Ok(());
    }
    state.set_item(r, place, value)
}

/// Gives a local of a data method a value, if it is there.
fn write_own(locals: &mut Vec<Value>, slot: u32, value: Value)
    ensures { locals.new.items ≡ slice_set locals.old.items slot value }
{
    if (slot as usize) < locals.len() {
        locals[slot as usize] = value;
    }
}

/// Gives a variable a value where the code stands, if it is there. The only error is want of memory.
pub fn write(
    state: &mut State,
    site: Site,
    locals: &mut Vec<Value>,
    slot: Slot,
    value: Value,
) -> Result<(), AllocError>
    requires value { RefersWithin (length state.old.held.objects) value }
    requires locals { All (RefersWithin (length state.old.held.objects)) locals.old.items }
    ensures memory { OnOk result (memory_at site state.new.held locals.new.items ≡ write
        (place_of site) slot value (memory_at site state.old.held locals.old.items)) }
    ensures marks { state.new.marks ≡ state.old.marks }
    ensures count { length state.new.held.objects ≡ length state.old.held.objects }
    ensures within { All (RefersWithin (length state.new.held.objects)) locals.new.items }
{
    match (site, slot) {
        (Site::Process(frame), Slot::Local(i)) => write_local(state, frame, i as usize, value),
        (Site::Process(_), Slot::Shared(i)) => write_variable(state, i, value),
        (Site::Object(_), Slot::Local(i)) => {
            write_own(locals, i, value);
            Ok(())
        }
        (Site::Object(r), Slot::Shared(i)) => write_field(state, r, i, value),
        (_, Slot::Unknown) => Ok(()),
    }
}
