//! What the outcome of an evaluation means where a value of some sort is wanted.

ghost use Rattle.std.specs.Prelude.{◌≡◌, ◌<◌, ◌^◌, IfOk};
ghost use Rattle.pz_rules.specs.Evaluations as evaluations;
ghost use Rattle.pz_rules.specs.Meanings as meanings;

use pz_classes_code::pz_items::Items;
use pz_classes_code::pz_syntax::Pos;
use pz_classes_code::pz_value::Value;
use pz_eval::{Listed, Outcome};
use pz_rules::pz_offer::Trouble;
use pz_rules::pz_state::FaultKind;

/// The value, or what is wrong at its place. A spent allowance has the place of the statement.
pub fn value_or_trouble(process: u32, pos: Pos, outcome: Outcome) -> Result<Value, Trouble>
    ensures { result ≡ evaluations.value_or_trouble process pos outcome }
{
    match outcome {
        Outcome::Value(value) => Ok(value),
        Outcome::Fault(kind, place) => Err(Trouble::Fault {
            kind,
            process,
            pos: place,
        }),
        Outcome::Spent => Err(Trouble::Spent { process, pos }),
    }
}

/// The values, or what is wrong.
pub fn values_or_trouble(process: u32, pos: Pos, listed: Listed) -> Result<Items<Value>, Trouble>
    ensures { result ≡ evaluations.values_or_trouble process pos listed }
{
    match listed {
        Listed::Values(values) => Ok(values),
        Listed::Fault(kind, place) => Err(Trouble::Fault {
            kind,
            process,
            pos: place,
        }),
        Listed::Spent => Err(Trouble::Spent { process, pos }),
    }
}

/// A fault of the statement at this place.
fn fault(kind: FaultKind, process: u32, pos: Pos) -> Trouble
    ensures { result ≡ Trouble.Fault kind process pos }
{
    Trouble::Fault { kind, process, pos }
}

/// A test is true or false.
pub fn truth(process: u32, pos: Pos, value: Value) -> Result<bool, Trouble>
    ensures { result ≡ meanings.truth process pos value }
{
    match value {
        Value::Bool(truth) => Ok(truth),
        _ => Err(fault(FaultKind::NotBoolean, process, pos)),
    }
}

/// A delay takes 0 clock units or more, and as an Integer of the program has 64 bits, less than 2^63.
pub fn duration(process: u32, pos: Pos, value: Value) -> Result<u128, Trouble>
    ensures means { result ≡ meanings.duration process pos value }
    ensures short { IfOk result (λ time. time < 2 ^ 63) }
{
    match value {
        Value::Int(time) => match u64::try_from(time) {
            Ok(time) => Ok(u128::from(time)),
            Err(_) => Err(fault(FaultKind::NegativeDelay, process, pos)),
        },
        _ => Err(fault(FaultKind::NotInteger, process, pos)),
    }
}

/// A value that was found is true or false.
pub fn truth_of(process: u32, pos: Pos, found: Result<Value, Trouble>) -> Result<bool, Trouble>
    ensures { result ≡ meanings.and_then found (meanings.truth process pos) }
{
    truth(process, pos, found?)
}

/// What a test came to.
pub(crate) fn tested(process: u32, pos: Pos, outcome: Outcome) -> Result<bool, Trouble>
    ensures { result ≡ meanings.and_then (evaluations.value_or_trouble process pos outcome)
        (meanings.truth process pos) }
{
    truth(process, pos, value_or_trouble(process, pos, outcome)?)
}
