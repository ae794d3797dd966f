ghost use Rattle.std.specs.Prelude.{◌≡◌, ◌∷◌, [], IfOk, OnOk, OnErr, All, length, Some, None, option_map};
ghost use Rattle.pz_state.specs.Marks.{changed};
ghost use Rattle.pz_state.specs.States.{HasObject};
ghost use Rattle.pz_state.specs.References.{RefersWithin};
ghost use Rattle.pz_prims.specs.Rows.{answered, beside};
ghost use Rattle.pz_prims.specs.Integers.{of_integer};
ghost use Rattle.pz_prims.specs.Arrays.{arrays, item_at, resize, put, value_of, state_after};
ghost use Rattle.pz_prims.specs.devices.Operators.{requests, request_row};

use crate::answer::Answer;
use crate::places::at_place;
use crate::spellings::find;
use pz_state::pz_value::Value;
use pz_state::{ARRAY_LIMIT, FaultKind, State};
use std::alloc::AllocError;

#[derive(Clone, Copy)]
enum Request {
    Resize,
    Get,
}

static REQUESTS: [(&str, Request); 2] = [("resize", Request::Resize), ("get", Request::Get)];

fn request_for(selector: &[u8]) -> Option<Request>
    ensures { result ≡ beside selector.now requests }
{
    find(&REQUESTS, selector)
}

/// Cuts the Array to a size, or fills it with nil.
fn resize(state: &mut State, r: u32, size: &Value) -> Result<Answer, AllocError>
    requires { HasObject state.old.held r }
    ensures answer { IfOk result (λ answer. answer ≡ value_of
        (of_integer (resize state.old.held r) size.now)) }
    ensures state { OnOk result (state.new ≡ changed state.old
        (state_after state.old.held (Some (of_integer (resize state.old.held r) size.now)))) }
    ensures err { OnErr result (state.new ≡ state.old) }
{
    let Value::Int(size) = size else {
        return Ok(Err(FaultKind::NotInteger));
    };
    let size = *size;
    if size < 0 || size > i64::from(ARRAY_LIMIT) {
        return Ok(Err(FaultKind::Index));
    }
    state.resize(r, size as u32)?;
    Ok(Ok(Value::Ref(r)))
}

fn get(state: &State, r: u32, place: &Value) -> Result<Answer, AllocError>
    requires { HasObject state.now.held r }
    ensures { IfOk result (λ answer. answer ≡ value_of
        (of_integer (item_at state.now.held r) place.now)) }
{
    let Value::Int(place) = place else {
        return Ok(Err(FaultKind::NotInteger));
    };
    match at_place(state.object(r).items(), *place) {
        Some(item) => Ok(Ok(item.copy()?)),
        None => Ok(Err(FaultKind::Index)),
    }
}

/// Gives the item at a place a value.
fn put(state: &mut State, r: u32, place: &Value, value: &Value) -> Result<Answer, AllocError>
    requires there { HasObject state.old.held r }
    requires within { RefersWithin (length state.old.held.objects) value.now }
    ensures answer { IfOk result (λ answer. answer ≡ value_of
        (of_integer (put state.old.held r value.now) place.now)) }
    ensures state { OnOk result (state.new ≡ changed state.old
        (state_after state.old.held (Some (of_integer
        (put state.old.held r value.now) place.now)))) }
    ensures err { OnErr result (state.new ≡ state.old) }
{
    let Value::Int(place) = place else {
        return Ok(Err(FaultKind::NotInteger));
    };
    let place = *place;
    if place < 1 || place > state.object(r).items().len() as i64 {
        return Ok(Err(FaultKind::Index));
    }
    let value = value.copy()?;
    state.set_item(r, (place - 1) as u32, value)?;
    Ok(Ok(Value::Ref(r)))
}

fn apply(
    request: Request,
    state: &mut State,
    r: u32,
    argument: &Value,
) -> Result<Answer, AllocError>
    requires { HasObject state.old.held r }
    ensures answer { IfOk result (λ answer. answer ≡ value_of
        (request_row state.old.held r request argument.now)) }
    ensures state { OnOk result (state.new ≡ changed state.old
        (state_after state.old.held (Some (request_row state.old.held r request argument.now)))) }
    ensures err { OnErr result (state.new ≡ state.old) }
{
    match request {
        Request::Resize => resize(state, r, argument),
        Request::Get => get(state, r, argument),
    }
}

/// What an Array answers to a selector without arguments.
#[tactic(auto, unfolding(crate::specs::Rows::answered, crate::specs::Arrays::arrays))]
fn alone(state: &State, r: u32, selector: &[u8]) -> Option<Answer>
    requires { HasObject state.now.held r }
    ensures answer { result ≡ option_map value_of
        (answered (arrays state.now.held r) selector.now []) }
    ensures state { state_after state.now.held (answered (arrays state.now.held r) selector.now [])
        ≡ state.now.held }
{
    if selector == b"size".as_slice() {
        return Some(Ok(Value::Int(state.object(r).items().len() as i64)));
    }
    None
}

/// What an Array answers to a selector with one argument.
#[tactic(auto, using(crate::proofs::Operators::by_request))]
fn with_one(
    state: &mut State,
    r: u32,
    selector: &[u8],
    argument: &Value,
) -> Result<Option<Answer>, AllocError>
    requires { HasObject state.old.held r }
    ensures answer { IfOk result (λ answer. answer ≡ option_map value_of
        (answered (arrays state.old.held r) selector.now (argument.now ∷ []))) }
    ensures state { OnOk result (state.new ≡ changed state.old
        (state_after state.old.held (answered (arrays state.old.held r) selector.now
        (argument.now ∷ [])))) }
    ensures err { OnErr result (state.new ≡ state.old) }
{
    match request_for(selector) {
        Some(request) => Ok(Some(apply(request, state, r, argument)?)),
        None => Ok(None),
    }
}

/// What an Array answers to a selector with two arguments.
#[tactic(auto, unfolding(crate::specs::Rows::answered, crate::specs::Arrays::arrays))]
fn with_two(
    state: &mut State,
    r: u32,
    selector: &[u8],
    place: &Value,
    value: &Value,
) -> Result<Option<Answer>, AllocError>
    requires there { HasObject state.old.held r }
    requires within { RefersWithin (length state.old.held.objects) value.now }
    ensures answer { IfOk result (λ answer. answer ≡ option_map value_of
        (answered (arrays state.old.held r) selector.now (place.now ∷ value.now ∷ []))) }
    ensures state { OnOk result (state.new ≡ changed state.old
        (state_after state.old.held (answered (arrays state.old.held r) selector.now
        (place.now ∷ value.now ∷ [])))) }
    ensures err { OnErr result (state.new ≡ state.old) }
{
    if selector == b"put".as_slice() {
        return Ok(Some(put(state, r, place, value)?));
    }
    Ok(None)
}

/// What an Array answers to a selector. The only error is want of memory, and then the state is as
/// before.
#[tactic(auto, unfolding(crate::specs::Rows::answered, crate::specs::Arrays::arrays))]
pub fn answer(
    state: &mut State,
    r: u32,
    selector: &[u8],
    args: &[Value],
) -> Result<Option<Answer>, AllocError>
    requires there { HasObject state.old.held r }
    requires within { All (RefersWithin (length state.old.held.objects)) args.now }
    ensures answer { IfOk result (λ answer. answer ≡ option_map value_of
        (answered (arrays state.old.held r) selector.now args.now)) }
    ensures state { OnOk result (state.new ≡ changed state.old
        (state_after state.old.held (answered (arrays state.old.held r) selector.now args.now))) }
    ensures err { OnErr result (state.new ≡ state.old) }
{
    match args {
        [] => Ok(alone(state, r, selector)),
        [argument] => with_one(state, r, selector, argument),
        [place, value] => with_two(state, r, selector, place, value),
        _ => Ok(None),
    }
}
