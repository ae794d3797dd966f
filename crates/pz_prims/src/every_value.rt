ghost use Rattle.std.specs.Prelude.{◌≡◌, ◌∷◌, []};
ghost use Rattle.pz_prims.specs.Rows.{answered, beside};
ghost use Rattle.pz_prims.specs.EveryValue.{every_value, same, is_nil};
ghost use Rattle.pz_prims.specs.devices.Operators.{equalities, equality_row};

use crate::answer::Answer;
use crate::spellings::find;
use pz_state::pz_value::Value;

#[derive(Clone, Copy)]
enum Equality {
    Same,
    Different,
}

static EQUALITIES: [(&str, Equality); 4] = [
    ("=", Equality::Same),
    ("==", Equality::Same),
    ("!=", Equality::Different),
    ("!==", Equality::Different),
];

fn equality_for(selector: &[u8]) -> Option<Equality>
    ensures { result ≡ beside selector.now equalities }
{
    find(&EQUALITIES, selector)
}

/// Whether two values are the same.
fn same(v: &Value, w: &Value) -> bool
    ensures { result ≡ same v.now w.now }
{
    match (v, w) {
        (Value::Nil, Value::Nil) => true,
        (Value::Bool(a), Value::Bool(b)) => *a == *b,
        (Value::Int(a), Value::Int(b)) => *a == *b,
        (Value::Char(a), Value::Char(b)) => *a == *b,
        (Value::Str(a), Value::Str(b)) => a.as_bytes() == b.as_bytes(),
        (Value::Ref(a), Value::Ref(b)) => *a == *b,
        _ => false,
    }
}

fn compare(equality: Equality, v: &Value, w: &Value) -> Answer
    ensures { result ≡ equality_row v.now equality w.now }
{
    let same = same(v, w);
    Ok(Value::Bool(match equality {
        Equality::Same => same,
        Equality::Different => !same,
    }))
}

/// What every value answers to a selector without arguments.
#[tactic(auto, unfolding(crate::specs::Rows::answered, crate::specs::EveryValue::every_value))]
fn alone(v: &Value, selector: &[u8]) -> Option<Answer>
    ensures { result ≡ answered (every_value v.now) selector.now [] }
{
    if selector == b"isNil".as_slice() {
        return Some(Ok(Value::Bool(matches!(v, Value::Nil))));
    }
    None
}

/// What every value answers to a selector with one argument.
#[tactic(auto, using(crate::proofs::Operators::by_equality))]
fn with_one(v: &Value, selector: &[u8], w: &Value) -> Option<Answer>
    ensures { result ≡ answered (every_value v.now) selector.now (w.now ∷ []) }
{
    match equality_for(selector) {
        Some(equality) => Some(compare(equality, v, w)),
        None => None,
    }
}

/// What every value answers to a selector.
#[tactic(auto, unfolding(crate::specs::Rows::answered, crate::specs::EveryValue::every_value))]
pub fn answer(v: &Value, selector: &[u8], args: &[Value]) -> Option<Answer>
    ensures { result ≡ answered (every_value v.now) selector.now args.now }
{
    match args {
        [] => alone(v, selector),
        [w] => with_one(v, selector, w),
        _ => None,
    }
}
