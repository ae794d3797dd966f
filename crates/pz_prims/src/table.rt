ghost use Rattle.std.specs.Prelude.{◌≡◌, ◌↔◌, IfOk, OnOk, OnErr, All, length};
ghost use Rattle.pz_state.specs.Marks.{changed};
ghost use Rattle.pz_state.specs.References.{RefersWithin};
ghost use Rattle.pz_state.specs.States.{HasObject, object};
ghost use Rattle.pz_prims.specs.Table.{outcome, of_itself, by_sort, told, understood};
ghost use Rattle.pz_prims.specs.Promises.{UnlessValue, IsOther, AnswersWithin};
ghost use Rattle.pz_prims.specs.devices.Staying.{StaysWithin};

use crate::answer::{Answer, Prim};
use crate::{arrays, booleans, chars, every_value, integers, strings};
use pz_state::pz_value::Value;
use pz_state::{FaultKind, State};
use std::alloc::{AllocError, Global};

/// The class of Arrays.
const ARRAY: u32 = 0;

/// What a row gives.
fn told(answer: Answer) -> Prim
    ensures { result ≡ told answer }
{
    match answer {
        Ok(value) => Prim::Value(value),
        Err(fault) => Prim::Fault(fault),
    }
}

/// What a row gives. What no row has is not understood.
fn understood(answer: Option<Answer>) -> Prim
    ensures { result ≡ understood answer }
{
    match answer {
        Some(answer) => told(answer),
        None => Prim::Fault(FaultKind::NotUnderstood),
    }
}

/// What an object answers by its class.
fn object_answer(
    state: &mut State,
    r: u32,
    selector: &[u8],
    args: &[Value],
) -> Result<Prim, AllocError>
    requires there { HasObject state.old.held r }
    requires within { All (RefersWithin (length state.old.held.objects)) args.now }
    ensures answer { IfOk result (λ prim. prim ≡
        (of_itself state.old.held (Value.Ref r) selector.now args.now).answer) }
    ensures state { OnOk result (state.new ≡ changed state.old
        (of_itself state.old.held (Value.Ref r) selector.now args.now).state) }
    ensures err { OnErr result (state.new ≡ state.old) }
    ensures items { All (RefersWithin (length state.old.held.objects))
        (object state.old.held r).items }
{
    if state.object(r).class().0 != ARRAY {
        return Ok(Prim::Other);
    }
    let answer = arrays::answer(state, r, selector, args)?;
    Ok(understood(answer))
}

/// What the rows of its sort give of a value that is no reference.
fn row_answer(
    alloc: Global,
    receiver: &Value,
    selector: &[u8],
    args: &[Value],
) -> Result<Option<Answer>, AllocError>
    ensures { IfOk result (λ answer. answer ≡ by_sort receiver.now selector.now args.now) }
{
    match receiver {
        Value::Bool(a) => booleans::answer(alloc, *a, selector, args),
        Value::Int(a) => integers::answer(alloc, *a, selector, args),
        Value::Char(a) => chars::answer(alloc, *a, selector, args),
        Value::Str(a) => strings::answer(alloc, a, selector, args),
        Value::Nil | Value::Ref(_) => Ok(None),
    }
}

/// What a value that is no reference answers by its sort.
fn sort_answer(
    alloc: Global,
    receiver: &Value,
    selector: &[u8],
    args: &[Value],
) -> Result<Prim, AllocError>
    ensures { IfOk result (λ prim. prim ≡ understood (by_sort receiver.now selector.now args.now)) }
{
    let answer = row_answer(alloc, receiver, selector, args)?;
    Ok(understood(answer))
}

/// What a value answers beside what every value does.
fn own_answer(
    alloc: Global,
    state: &mut State,
    receiver: &Value,
    selector: &[u8],
    args: &[Value],
) -> Result<Prim, AllocError>
    requires receiver { RefersWithin (length state.old.held.objects) receiver.now }
    requires args { All (RefersWithin (length state.old.held.objects)) args.now }
    ensures answer { IfOk result (λ prim. prim ≡
        (of_itself state.old.held receiver.now selector.now args.now).answer) }
    ensures state { OnOk result (state.new ≡ changed state.old
        (of_itself state.old.held receiver.now selector.now args.now).state) }
    ensures err { OnErr result (state.new ≡ state.old) }
    ensures within { StaysWithin state.old.held (of_itself state.old.held receiver.now selector.now
        args.now) }
{
    match receiver {
        Value::Ref(r) => object_answer(state, *r, selector, args),
        _ => sort_answer(alloc, receiver, selector, args),
    }
}

/// What a value answers to a selector, by the table of primitive values. The only error is want of
/// memory, and then the state is as before.
pub fn prim(
    alloc: Global,
    state: &mut State,
    receiver: &Value,
    selector: &[u8],
    args: &[Value],
) -> Result<Prim, AllocError>
    requires receiver { RefersWithin (length state.old.held.objects) receiver.now }
    requires args { All (RefersWithin (length state.old.held.objects)) args.now }
    ensures answer { IfOk result (λ prim. prim ≡
        (outcome state.old.held receiver.now selector.now args.now).answer) }
    ensures state { OnOk result (state.new ≡ changed state.old
        (outcome state.old.held receiver.now selector.now args.now).state) }
    ensures err { OnErr result (state.new ≡ state.old) }

    // The state changes only where there is a value.
    ensures kept { IfOk result (UnlessValue (state.new ≡ state.old)) }
    ensures other { IfOk result (λ prim. (prim ≡ Prim.Other)
        ↔ IsOther state.old.held receiver.now selector.now args.now) }
    ensures count { length state.new.held.objects ≡ length state.old.held.objects }
    ensures within { IfOk result (AnswersWithin (length state.old.held.objects)) }
{
    match every_value::answer(receiver, selector, args) {
        Some(answer) => Ok(told(answer)),
        None => own_answer(alloc, state, receiver, selector, args),
    }
}
