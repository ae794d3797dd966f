ghost use Rattle.std.specs.Prelude.{◌≡◌, ◌∷◌, [], IfOk};
ghost use Rattle.pz_prims.specs.Rows.{answered, beside};
ghost use Rattle.pz_prims.specs.Chars.{chars};
ghost use Rattle.pz_prims.specs.devices.Operators.{comparisons, comparison_row, compared};

use crate::answer::Answer;
use crate::spellings::find;
use pz_state::FaultKind;
use pz_state::pz_value::{Text, Value};
use std::alloc::{AllocError, Global};

#[derive(Clone, Copy)]
enum Comparison {
    Less,
    LessEqual,
    Greater,
    GreaterEqual,
}

static COMPARISONS: [(&str, Comparison); 4] = [
    ("<", Comparison::Less),
    ("<=", Comparison::LessEqual),
    (">", Comparison::Greater),
    (">=", Comparison::GreaterEqual),
];

fn comparison_for(selector: &[u8]) -> Option<Comparison>
    ensures { result ≡ beside selector.now comparisons }
{
    find(&COMPARISONS, selector)
}

fn compare(comparison: Comparison, a: u8, b: u8) -> bool
    ensures { result ≡ compared comparison a b }
{
    match comparison {
        Comparison::Less => a < b,
        Comparison::LessEqual => a <= b,
        Comparison::Greater => a > b,
        Comparison::GreaterEqual => a >= b,
    }
}

fn apply(comparison: Comparison, a: u8, argument: &Value) -> Answer
    ensures { result ≡ comparison_row a comparison argument.now }
{
    match argument {
        Value::Char(b) => Ok(Value::Bool(compare(comparison, a, *b))),
        _ => Err(FaultKind::NotUnderstood),
    }
}

/// What a Char answers to a selector without arguments.
#[tactic(auto, unfolding(crate::specs::Rows::answered, crate::specs::Chars::chars))]
fn alone(alloc: Global, a: u8, selector: &[u8]) -> Result<Option<Answer>, AllocError>
    ensures { IfOk result (λ answer. answer ≡ answered (chars a) selector.now []) }
{
    if selector == b"asInteger".as_slice() {
        return Ok(Some(Ok(Value::Int(i64::from(a)))));
    }
    if selector == b"asString".as_slice() {
        let text = Text::new(vec![in alloc; a]?);
        return Ok(Some(Ok(Value::Str(text))));
    }
    Ok(None)
}

/// What a Char answers to a selector with one argument.
#[tactic(auto, using(crate::proofs::Operators::by_comparison))]
fn with_one(a: u8, selector: &[u8], argument: &Value) -> Option<Answer>
    ensures { result ≡ answered (chars a) selector.now (argument.now ∷ []) }
{
    match comparison_for(selector) {
        Some(comparison) => Some(apply(comparison, a, argument)),
        None => None,
    }
}

/// What a Char answers to a selector. The only error is want of memory.
#[tactic(auto, unfolding(crate::specs::Rows::answered, crate::specs::Chars::chars))]
pub fn answer(
    alloc: Global,
    a: u8,
    selector: &[u8],
    args: &[Value],
) -> Result<Option<Answer>, AllocError>
    ensures { IfOk result (λ answer. answer ≡ answered (chars a) selector.now args.now) }
{
    match args {
        [] => alone(alloc, a, selector),
        [argument] => Ok(with_one(a, selector, argument)),
        _ => Ok(None),
    }
}
