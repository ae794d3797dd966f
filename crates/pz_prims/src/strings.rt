ghost use Rattle.std.specs.Prelude.{◌≡◌, ◌∷◌, ◌++◌, [], IfOk};
ghost use Rattle.pz_prims.specs.Rows.{answered, beside};
ghost use Rattle.pz_prims.specs.Integers.{of_integer};
ghost use Rattle.pz_prims.specs.Strings.{strings, string, of_string, char_at};
ghost use Rattle.pz_prims.specs.devices.Operators.{operations, operation_row};

use crate::answer::Answer;
use crate::places::at_place;
use crate::spellings::find;
use pz_state::FaultKind;
use pz_state::pz_value::{Text, Value};
use std::alloc::{AllocError, Global};

/// The most bytes of a String.
pub const STRING_LIMIT: usize = 1_048_576;

#[derive(Clone, Copy)]
enum Operation {
    Join,
    Get,
}

static OPERATIONS: [(&str, Operation); 3] = [
    ("+", Operation::Join),
    ("concat", Operation::Join),
    ("get", Operation::Get),
];

fn operation_for(selector: &[u8]) -> Option<Operation>
    ensures { result ≡ beside selector.now operations }
{
    find(&OPERATIONS, selector)
}

/// The bytes of one text and then those of another, unless they are too many.
fn joined(alloc: Global, a: &[u8], b: &[u8]) -> Result<Answer, AllocError>
    ensures { IfOk result (λ answer. answer ≡ string (a.now ++ b.now)) }
{
    let len = a.len() + b.len();
    if len > STRING_LIMIT {
        return Ok(Err(FaultKind::StoreFull));
    }
    let mut bytes = Vec::with_capacity(alloc, len)?;
    bytes.extend_from_slice(a)?;
    bytes.extend_from_slice(b)?;
    Ok(Ok(Value::Str(Text::new(bytes))))
}

fn join(alloc: Global, a: &[u8], argument: &Value) -> Result<Answer, AllocError>
    ensures { IfOk result (λ answer. answer ≡ of_string (λ b. string (a.now ++ b)) argument.now) }
{
    match argument {
        Value::Str(b) => joined(alloc, a, b.as_bytes()),
        _ => Ok(Err(FaultKind::NotUnderstood)),
    }
}

fn get(a: &[u8], place: &Value) -> Answer
    ensures { result ≡ of_integer (char_at a.now) place.now }
{
    let Value::Int(place) = place else {
        return Err(FaultKind::NotInteger);
    };
    match at_place(a, *place) {
        Some(byte) => Ok(Value::Char(*byte)),
        None => Err(FaultKind::Index),
    }
}

fn apply(
    alloc: Global,
    operation: Operation,
    a: &Text,
    argument: &Value,
) -> Result<Answer, AllocError>
    ensures { IfOk result (λ answer. answer ≡ operation_row a.now operation argument.now) }
{
    match operation {
        Operation::Join => join(alloc, a.as_bytes(), argument),
        Operation::Get => Ok(get(a.as_bytes(), argument)),
    }
}

/// What a String answers to a selector without arguments.
#[tactic(auto, unfolding(crate::specs::Rows::answered, crate::specs::Strings::strings))]
fn alone(a: &Text, selector: &[u8]) -> Result<Option<Answer>, AllocError>
    ensures { IfOk result (λ answer. answer ≡ answered (strings a.now) selector.now []) }
{
    if selector == b"size".as_slice() {
        return Ok(Some(Ok(Value::Int(a.as_bytes().len() as i64))));
    }
    if selector == b"asString".as_slice() {
        let text = a.copy()?;
        return Ok(Some(Ok(Value::Str(text))));
    }
    Ok(None)
}

/// What a String answers to a selector with one argument.
#[tactic(auto, using(crate::proofs::Operators::by_operation))]
fn with_one(
    alloc: Global,
    a: &Text,
    selector: &[u8],
    argument: &Value,
) -> Result<Option<Answer>, AllocError>
    ensures { IfOk result (λ answer. answer ≡ answered (strings a.now) selector.now
        (argument.now ∷ [])) }
{
    match operation_for(selector) {
        Some(operation) => Ok(Some(apply(alloc, operation, a, argument)?)),
        None => Ok(None),
    }
}

/// What a String answers to a selector. The only error is want of memory.
#[tactic(auto, unfolding(crate::specs::Rows::answered, crate::specs::Strings::strings))]
pub fn answer(
    alloc: Global,
    a: &Text,
    selector: &[u8],
    args: &[Value],
) -> Result<Option<Answer>, AllocError>
    ensures { IfOk result (λ answer. answer ≡ answered (strings a.now) selector.now args.now) }
{
    match args {
        [] => alone(a, selector),
        [argument] => with_one(alloc, a, selector, argument),
        _ => Ok(None),
    }
}
