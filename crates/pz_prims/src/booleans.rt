ghost use Rattle.std.specs.Prelude.{◌≡◌, ◌∷◌, [], IfOk, if◌then◌else◌, codes};
ghost use Rattle.pz_prims.specs.Rows.{answered, beside};
ghost use Rattle.pz_prims.specs.Booleans.{booleans};
ghost use Rattle.pz_prims.specs.devices.Operators.{connectives, connective_row, connected};

use crate::answer::Answer;
use crate::spellings::find;
use pz_state::FaultKind;
use pz_state::pz_value::{Text, Value};
use std::alloc::{AllocError, Global};

#[derive(Clone, Copy)]
enum Connective {
    And,
    Or,
    Xor,
}

static CONNECTIVES: [(&str, Connective); 3] = [
    ("&", Connective::And),
    ("|", Connective::Or),
    ("xor", Connective::Xor),
];

fn connective_for(selector: &[u8]) -> Option<Connective>
    ensures { result ≡ beside selector.now connectives }
{
    find(&CONNECTIVES, selector)
}

fn connect(connective: Connective, a: bool, b: bool) -> bool
    ensures { result ≡ connected connective a b }
{
    match connective {
        Connective::And => a && b,
        Connective::Or => a || b,
        Connective::Xor => a != b,
    }
}

fn apply(connective: Connective, a: bool, argument: &Value) -> Answer
    ensures { result ≡ connective_row a connective argument.now }
{
    match argument {
        Value::Bool(b) => Ok(Value::Bool(connect(connective, a, *b))),
        _ => Err(FaultKind::NotBoolean),
    }
}

fn text_of(alloc: Global, a: bool) -> Result<Text, AllocError>
    ensures { IfOk result (λ text. text ≡ (if a then codes "true" else codes "false")) }
{
    let bytes = if a { "true" } else { "false" };
    Ok(Text::new(bytes.as_bytes().to_vec(alloc)?))
}

/// What a Boolean answers to a selector without arguments.
#[tactic(auto, unfolding(crate::specs::Rows::answered, crate::specs::Booleans::booleans))]
fn alone(alloc: Global, a: bool, selector: &[u8]) -> Result<Option<Answer>, AllocError>
    ensures { IfOk result (λ answer. answer ≡ answered (booleans a) selector.now []) }
{
    if selector == b"!".as_slice() || selector == b"not".as_slice() {
        return Ok(Some(Ok(Value::Bool(!a))));
    }
    if selector == b"asString".as_slice() {
        let text = text_of(alloc, a)?;
        return Ok(Some(Ok(Value::Str(text))));
    }
    Ok(None)
}

/// What a Boolean answers to a selector with one argument.
#[tactic(auto, using(crate::proofs::Operators::by_connective))]
fn with_one(a: bool, selector: &[u8], argument: &Value) -> Option<Answer>
    ensures { result ≡ answered (booleans a) selector.now (argument.now ∷ []) }
{
    match connective_for(selector) {
        Some(connective) => Some(apply(connective, a, argument)),
        None => None,
    }
}

/// What a Boolean answers to a selector. The only error is want of memory.
#[tactic(auto, unfolding(crate::specs::Rows::answered, crate::specs::Booleans::booleans))]
pub fn answer(
    alloc: Global,
    a: bool,
    selector: &[u8],
    args: &[Value],
) -> Result<Option<Answer>, AllocError>
    ensures { IfOk result (λ answer. answer ≡ answered (booleans a) selector.now args.now) }
{
    match args {
        [] => alone(alloc, a, selector),
        [argument] => Ok(with_one(a, selector, argument)),
        _ => Ok(None),
    }
}
