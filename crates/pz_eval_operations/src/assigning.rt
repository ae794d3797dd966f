//! Assignments that are done at once, with no task and no memory beyond that of the journal.

ghost use Rattle.std.specs.Prelude.{◌≡◌, length, option_map, IfOk, OnOk, IfSome};
ghost use Rattle.pz_classes_code.specs.CodeView.{view};
ghost use Rattle.pz_classes_code.specs.pz_value.declared.value.Value.TheVariants.{Int};
ghost use Rattle.pz_state.specs.References.{RefersWithin};
ghost use Rattle.pz_eval_rules.specs.Memories as memories;
ghost use Rattle.pz_eval_operations.specs.devices.Sites.{place_of, memory_of};
ghost use Rattle.pz_eval_operations.specs.devices.AtOnce.{Assigned};
ghost use Rattle.pz_eval_operations.specs.devices.Within.{ActivationWithin};

use crate::attempts::{at_once, number_at_once};
use crate::reading::copy;
use crate::task::Activation;
use crate::writing::write;
use pz_classes_code::pz_value::Value;
use pz_classes_code::{Code, CodeForm, Slot};
use pz_state::State;
use std::alloc::AllocError;

/// A variable gets a value, which is that of the assignment. The only error is want of memory.
fn assigned(
    state: &mut State,
    activation: &mut Activation<'_>,
    slot: Slot,
    value: Value,
) -> Result<Value, AllocError>
    requires value { RefersWithin (length state.old.held.objects) value }
    requires within { ActivationWithin (length state.old.held.objects) activation.old }
    ensures value { IfOk result (λ y. y ≡ value) }
    ensures memory { OnOk result (memory_of activation.new state.new.held ≡ memories.write
        (place_of activation.old.site) slot value (memory_of activation.old state.old.held)) }
    ensures marks { state.new.marks ≡ state.old.marks }
    ensures count { length state.new.held.objects ≡ length state.old.held.objects }
    ensures site { activation.new.site ≡ activation.old.site }
    ensures tasks { activation.new.tasks ≡ activation.old.tasks }
    ensures within { ActivationWithin (length state.new.held.objects) activation.new }
{
    let copy = copy(&value)?;
    write(state, activation.site, &mut activation.locals, slot, copy)?;
    Ok(value)
}

/// The value of an assignment that may stand so deep, if it is one and what is assigned is found at once;
/// the variable then has it, and its units are counted. The only error is want of memory.
pub fn assign_at_once(
    state: &mut State,
    units: &mut u64,
    activation: &mut Activation<'_>,
    depth: u32,
    code: &Code,
) -> Result<Option<Value>, AllocError>
    requires { ActivationWithin (length state.old.held.objects) activation.old }
    ensures assigned { IfOk result (Assigned depth (place_of activation.old.site) (view code.now)
        (memory_of activation.old state.old.held) units.old
        (memory_of activation.new state.new.held) units.new) }
    ensures value { IfOk result (λ found. IfSome found
        (RefersWithin (length state.new.held.objects))) }
    ensures marks { state.new.marks ≡ state.old.marks }
    ensures count { length state.new.held.objects ≡ length state.old.held.objects }
    ensures site { activation.new.site ≡ activation.old.site }
    ensures tasks { activation.new.tasks ≡ activation.old.tasks }
    ensures within { ActivationWithin (length state.new.held.objects) activation.new }
{
    let CodeForm::Assign(slot, value) = &code.form else {
        return Ok(None);
    };
    if depth == 0 {
        return Ok(None);
    }
    if *units == 0 {
        return Ok(None);
    }
    let mut left = *units - 1;
    let Some(value) = at_once(state, &mut left, activation, depth - 1, value.get()) else {
        return Ok(None);
    };
    *units = left;
    Ok(Some(assigned(state, activation, *slot, value)?))
}

/// The same, if what is assigned is a number that one operator gives of two.
pub fn assign_number(
    state: &mut State,
    units: &mut u64,
    activation: &mut Activation<'_>,
    depth: u32,
    code: &Code,
) -> Result<Option<i64>, AllocError>
    requires { ActivationWithin (length state.old.held.objects) activation.old }
    ensures assigned { IfOk result (λ n. Assigned depth (place_of activation.old.site)
        (view code.now) (memory_of activation.old state.old.held) units.old
        (memory_of activation.new state.new.held) units.new (option_map (λ z. Int z) n)) }
    ensures marks { state.new.marks ≡ state.old.marks }
    ensures count { length state.new.held.objects ≡ length state.old.held.objects }
    ensures site { activation.new.site ≡ activation.old.site }
    ensures tasks { activation.new.tasks ≡ activation.old.tasks }
    ensures within { ActivationWithin (length state.new.held.objects) activation.new }
{
    let CodeForm::Assign(slot, value) = &code.form else {
        return Ok(None);
    };
    if depth == 0 {
        return Ok(None);
    }
    if *units == 0 {
        return Ok(None);
    }
    let mut left = *units - 1;
    let Some(number) = number_at_once(state, &mut left, activation, depth - 1, value.get()) else {
        return Ok(None);
    };
    *units = left;
    write(
        state,
        activation.site,
        &mut activation.locals,
        *slot,
        Value::Int(number),
    )?;
    Ok(Some(number))
}
