ghost use Rattle.std.specs.Prelude.{◌≡◌, ◌∷◌, [], Ok, Err, IfOk};
ghost use Rattle.std.specs.Option.{option_map_or};
ghost use Rattle.std.specs.Fmt.{signed_decimal};
ghost use Rattle.pz_prims.specs.Rows.{answered, beside};
ghost use Rattle.pz_prims.specs.Integers.{integers};
ghost use Rattle.pz_prims.specs.devices.Operators.{operators, operator_row, computed};

use crate::answer::Answer;
use crate::spellings::find;
use pz_state::FaultKind;
use pz_state::pz_value::{Text, Value};
use std::alloc::{AllocError, Global};

/// What an Integer computes with another one.
#[derive(Clone, Copy)]
enum Operator {
    Sum,
    Difference,
    Product,
    Quotient,
    Modulo,
    Less,
    LessEqual,
    Greater,
    GreaterEqual,
    Min,
    Max,
}

static OPERATORS: [(&str, Operator); 12] = [
    ("+", Operator::Sum),
    ("-", Operator::Difference),
    ("*", Operator::Product),
    ("/", Operator::Quotient),
    ("div", Operator::Quotient),
    ("modulo", Operator::Modulo),
    ("<", Operator::Less),
    ("<=", Operator::LessEqual),
    (">", Operator::Greater),
    (">=", Operator::GreaterEqual),
    ("min", Operator::Min),
    ("max", Operator::Max),
];

fn operator_for(selector: &[u8]) -> Option<Operator>
    ensures { result ≡ beside selector.now operators }
{
    find(&OPERATORS, selector)
}

/// The number, if 64 bits hold it.
fn number(n: Option<i64>) -> Answer
    ensures { result ≡ option_map_or (λ z. Ok (Value.Int z)) n (Err FaultKind.Overflow) }
{
    match n {
        Some(n) => Ok(Value::Int(n)),
        None => Err(FaultKind::Overflow),
    }
}

fn quotient(a: i64, b: i64) -> Answer
    ensures { result ≡ computed Operator.Quotient a b }
{
    match b {
        0 => Err(FaultKind::DivideByZero),
        _ => number(a.checked_div(b)),
    }
}

/// The remainder has the sign of the dividend. By -1 it is 0, also of the least Integer.
fn modulo(a: i64, b: i64) -> Answer
    ensures { result ≡ computed Operator.Modulo a b }
{
    if b == 0 {
        return Err(FaultKind::DivideByZero);
    }
    Ok(Value::Int(a.wrapping_rem(b)))
}

fn compute(operator: Operator, a: i64, b: i64) -> Answer
    ensures { result ≡ computed operator a b }
{
    match operator {
        Operator::Sum => number(a.checked_add(b)),
        Operator::Difference => number(a.checked_sub(b)),
        Operator::Product => number(a.checked_mul(b)),
        Operator::Quotient => quotient(a, b),
        Operator::Modulo => modulo(a, b),
        Operator::Less => Ok(Value::Bool(a < b)),
        Operator::LessEqual => Ok(Value::Bool(a <= b)),
        Operator::Greater => Ok(Value::Bool(a > b)),
        Operator::GreaterEqual => Ok(Value::Bool(a >= b)),
        Operator::Min => Ok(Value::Int(a.min(b))),
        Operator::Max => Ok(Value::Int(a.max(b))),
    }
}

fn apply(operator: Operator, a: i64, argument: &Value) -> Answer
    ensures { result ≡ operator_row a operator argument.now }
{
    match argument {
        Value::Int(b) => compute(operator, a, *b),
        _ => Err(FaultKind::NotInteger),
    }
}

/// The decimal digits, after a `-` where the number is negative.
fn text_of(alloc: Global, a: i64) -> Result<Text, AllocError>
    ensures { IfOk result (λ text. text ≡ signed_decimal a) }
{
    let text = format!(in alloc; "{a}")?;
    Ok(Text::new(text.into_bytes()))
}

/// What an Integer answers to a selector without arguments.
#[tactic(auto, unfolding(crate::specs::Rows::answered, crate::specs::Integers::integers))]
fn alone(alloc: Global, a: i64, selector: &[u8]) -> Result<Option<Answer>, AllocError>
    ensures { IfOk result (λ answer. answer ≡ answered (integers a) selector.now []) }
{
    if selector == b"-".as_slice() {
        return Ok(Some(number(a.checked_neg())));
    }
    if selector == b"abs".as_slice() {
        return Ok(Some(number(a.checked_abs())));
    }
    if selector == b"asString".as_slice() {
        let text = text_of(alloc, a)?;
        return Ok(Some(Ok(Value::Str(text))));
    }
    Ok(None)
}

/// What an Integer answers to a selector with one argument.
#[tactic(auto, using(crate::proofs::Operators::by_operator))]
fn with_one(a: i64, selector: &[u8], argument: &Value) -> Option<Answer>
    ensures { result ≡ answered (integers a) selector.now (argument.now ∷ []) }
{
    match operator_for(selector) {
        Some(operator) => Some(apply(operator, a, argument)),
        None => None,
    }
}

/// What an Integer answers to a selector. The only error is want of memory.
#[tactic(auto, unfolding(crate::specs::Rows::answered, crate::specs::Integers::integers))]
pub fn answer(
    alloc: Global,
    a: i64,
    selector: &[u8],
    args: &[Value],
) -> Result<Option<Answer>, AllocError>
    ensures { IfOk result (λ answer. answer ≡ answered (integers a) selector.now args.now) }
{
    match args {
        [] => alone(alloc, a, selector),
        [argument] => Ok(with_one(a, selector, argument)),
        _ => Ok(None),
    }
}
