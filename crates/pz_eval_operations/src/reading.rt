//! Constants, and what variables hold.

ghost use Rattle.std.specs.Prelude.{◌≡◌, length, unwrap_or, IfOk, IfSome, All};
ghost use Rattle.std.specs.Option.{option_copied};
ghost use Rattle.pz_classes_code.specs.pz_value.declared.value.Value.TheVariants.{Nil};
ghost use Rattle.pz_classes_code.specs.Literals as literals;
ghost use Rattle.pz_state.specs.States.{variable, local, item};
ghost use Rattle.pz_state.specs.References.{RefersWithin};
ghost use Rattle.pz_eval_rules.specs.Memories.{read};
ghost use Rattle.pz_eval_operations.specs.devices.Sites.{place_of, memory_at};

use crate::task::Site;
use pz_classes_code::Slot;
use pz_classes_code::pz_syntax::Literal;
use pz_classes_code::pz_value::Value;
use pz_state::{FrameId, State};
use std::alloc::{AllocError, Global};

/// The value of a constant, if it is no text.
pub(crate) fn plain_constant(literal: &Literal) -> Option<Value>
    ensures { IfSome result (λ value. value ≡ literals.constant literal.now) }
{
    match literal {
        Literal::Int(n) => Some(Value::Int(*n)),
        Literal::Float | Literal::Nil => Some(Value::Nil),
        Literal::Char(byte) => Some(Value::Char(*byte)),
        Literal::Str(_) => None,
        Literal::True => Some(Value::Bool(true)),
        Literal::False => Some(Value::Bool(false)),
    }
}

/// An equal value, if it is no text. Takes no memory.
pub(crate) fn plain_copy(value: &Value) -> Option<Value>
    ensures { IfSome result (λ copy. copy ≡ value.now) }
{
    match value {
        Value::Nil => Some(Value::Nil),
        Value::Bool(b) => Some(Value::Bool(*b)),
        Value::Int(n) => Some(Value::Int(*n)),
        Value::Char(c) => Some(Value::Char(*c)),
        Value::Str(_) => None,
        Value::Ref(r) => Some(Value::Ref(*r)),
    }
}

/// An equal value. The only error is want of memory.
pub fn copy(value: &Value) -> Result<Value, AllocError>
    ensures { IfOk result (λ copy. copy ≡ value.now) }
{
    match plain_copy(value) {
        Some(copy) => Ok(copy),
        None => value.copy(),
    }
}

/// A variable of the process, if it is there.
fn variable_in(state: &State, slot: u32) -> Option<&Value>
    ensures value { unwrap_or (option_copied result) Nil ≡ variable state.now.held slot }
    ensures within { IfSome result (λ value. RefersWithin
        (length state.now.held.objects) value.now) }
{
    if slot as usize >= state.variables() {
        return None;
    }
    Some(state.var(slot))
}

/// A local of a frame, if it is there.
fn local_in(state: &State, frame: FrameId, slot: u32) -> Option<&Value>
    ensures value { unwrap_or (option_copied result) Nil ≡ local state.now.held frame.0 slot }
    ensures within { IfSome result (λ value. RefersWithin
        (length state.now.held.objects) value.now) }
{
    state.locals(frame).get(slot as usize)
}

/// A field of an object, if it is there.
fn field_in(state: &State, r: u32, place: u32) -> Option<&Value>
    ensures value { unwrap_or (option_copied result) Nil ≡ item state.now.held r place }
    ensures within { IfSome result (λ value. RefersWithin
        (length state.now.held.objects) value.now) }
{
    if r >= state.objects() {
        return None;
    }
    state.object(r).items().get(place as usize)
}

/// What a variable holds where the code stands, if it is there.
pub(crate) fn held<'a>(
    state: &'a State,
    site: Site,
    locals: &'a [Value],
    slot: Slot,
) -> Option<&'a Value>
    ensures value { unwrap_or (option_copied result) Nil ≡ read (place_of site) slot
        (memory_at site state.now.held locals.now) }
    ensures within { All (RefersWithin (length state.now.held.objects)) locals.now →
        IfSome result (λ value. RefersWithin (length state.now.held.objects) value.now) }
{
    match (site, slot) {
        (Site::Process(frame), Slot::Local(i)) => local_in(state, frame, i),
        (Site::Process(_), Slot::Shared(i)) => variable_in(state, i),
        (Site::Object(_), Slot::Local(i)) => locals.get(i as usize),
        (Site::Object(r), Slot::Shared(i)) => field_in(state, r, i),
        (_, Slot::Unknown) => None,
    }
}

/// What a variable holds where the code stands; nil if there is none. The only error is want of
/// memory.
pub fn read(state: &State, site: Site, locals: &[Value], slot: Slot) -> Result<Value, AllocError>
    ensures within { All (RefersWithin (length state.now.held.objects)) locals.now →
        IfOk result (RefersWithin (length state.now.held.objects)) }
    ensures value { IfOk result (λ value. value ≡ read (place_of site) slot
        (memory_at site state.now.held locals.now)) }
{
    match held(state, site, locals, slot) {
        Some(value) => copy(value),
        None => Ok(Value::Nil),
    }
}
