//! Operators between values, and before one.

ghost use Rattle.std.specs.Prelude.{◌≡◌, ◌<◌, ℕ, List, length, option_map, All, IfOk, OnOk, IfSome};
ghost use Rattle.pz_classes_code.specs.pz_syntax.declared.tokens.Pos.{Pos as Positions};
ghost use Rattle.pz_classes_code.specs.pz_value.declared.value.Value.TheVariants.{Bool as Boolean, Int};
ghost use Rattle.pz_classes_code.specs.pz_value.declared.value.Value.{Value};
ghost use Rattle.pz_state.specs.References.{RefersWithin};
ghost use Rattle.pz_prims.specs.Table.{outcome};
ghost use Rattle.pz_eval_rules.specs.Memories.{Memory};
ghost use Rattle.pz_eval_rules.specs.Answers.{gives};
ghost use Rattle.pz_eval_rules.specs.Steps.{told_outcome};
ghost use Rattle.pz_eval_rules.specs.Steps as steps;
ghost use Rattle.pz_eval_operations.specs.devices.Telling.{Tells, Counts};

use crate::stop::Stop;
use crate::units::tick;
use pz_classes_code::pz_syntax::{Pos, Symbol};
use pz_classes_code::pz_value::Value;
use pz_prims::{Prim, prim};
use pz_state::{FaultKind, State};
use std::alloc::Global;

/// An operator as a selector.
fn spelling(op: Symbol) -> &'static str
    ensures { result.now ≡ steps.spelling op }
{
    match op {
        Symbol::Plus => "+",
        Symbol::Minus => "-",
        Symbol::Star => "*",
        Symbol::Slash => "/",
        Symbol::Equal => "=",
        Symbol::Same => "==",
        Symbol::Unequal => "!=",
        Symbol::Distinct => "!==",
        Symbol::Less => "<",
        Symbol::LessEqual => "<=",
        Symbol::Greater => ">",
        Symbol::GreaterEqual => ">=",
        Symbol::Ampersand => "&",
        Symbol::Bar => "|",
        Symbol::Bang => "!",
        _ => "",
    }
}

/// What an operator at this place gives of a value and the other operands, of which there is one or
/// none.
pub fn apply(
    alloc: Global,
    state: &mut State,
    op: Symbol,
    at: Pos,
    left: &Value,
    others: &[Value],
) -> Result<Value, Stop>
    requires left { RefersWithin (length state.old.held.objects) left.now }
    requires others { All (RefersWithin (length state.old.held.objects)) others.now }
    ensures tells { (locals : List Value) → Tells result
        (told_outcome at (record { state = state.old.held; locals = locals })
        (outcome state.old.held left.now (steps.spelling op) others.now))
        (record { state = state.new.held; locals = locals }) }
    ensures marks { state.new.marks ≡ state.old.marks }
    ensures count { length state.new.held.objects ≡ length state.old.held.objects }
    ensures within { IfOk result (RefersWithin (length state.new.held.objects)) }
{
    match prim(alloc, state, left, spelling(op).as_bytes(), others)? {
        Prim::Value(value) => Ok(value),
        Prim::Fault(kind) => Err(Stop::Fault(kind, at)),
        Prim::Other => Err(Stop::Fault(FaultKind::NotUnderstood, at)),
    }
}

/// A number, if 64 bits hold it.
fn number(n: Option<i64>) -> Option<Value>
    ensures { result ≡ option_map (λ z. Int z) n }
{
    match n {
        Some(n) => Some(Value::Int(n)),
        None => None,
    }
}

/// What an operator between two numbers computes, if 64 bits hold it.
pub(crate) fn number_between(op: Symbol, a: i64, b: i64) -> Option<i64>
    ensures { IfSome result (λ n. (at : Positions) (m : Memory) →
        steps.applied op at (Int a) (Int b) m ≡ gives (Int n) m) }
{
    match op {
        Symbol::Plus => a.checked_add(b),
        Symbol::Minus => a.checked_sub(b),
        Symbol::Star => a.checked_mul(b),
        _ => None,
    }
}

/// Whether two numbers stand to one another as an operator asks.
pub(crate) fn truth_between(op: Symbol, a: i64, b: i64) -> Option<bool>
    ensures { IfSome result (λ x. (at : Positions) (m : Memory) →
        steps.applied op at (Int a) (Int b) m ≡ gives (Boolean x) m) }
{
    match op {
        Symbol::Equal => Some(a == b),
        Symbol::Unequal => Some(a != b),
        Symbol::Less => Some(a < b),
        Symbol::LessEqual => Some(a <= b),
        Symbol::Greater => Some(a > b),
        Symbol::GreaterEqual => Some(a >= b),
        _ => None,
    }
}

/// What an operator between two numbers gives, without the table of primitive values; None where that
/// has to say.
pub(crate) fn between_numbers(op: Symbol, a: i64, b: i64) -> Option<Value>
    ensures applied { IfSome result (λ y. (at : Positions) (m : Memory) →
        steps.applied op at (Int a) (Int b) m ≡ gives y m) }
    ensures within { (count : ℕ) → IfSome result (RefersWithin count) }
{
    match op {
        Symbol::Plus => number(a.checked_add(b)),
        Symbol::Minus => number(a.checked_sub(b)),
        Symbol::Star => number(a.checked_mul(b)),
        Symbol::Equal => Some(Value::Bool(a == b)),
        Symbol::Unequal => Some(Value::Bool(a != b)),
        Symbol::Less => Some(Value::Bool(a < b)),
        Symbol::LessEqual => Some(Value::Bool(a <= b)),
        Symbol::Greater => Some(Value::Bool(a > b)),
        Symbol::GreaterEqual => Some(Value::Bool(a >= b)),
        _ => None,
    }
}

/// The same of two Booleans.
fn between_booleans(op: Symbol, a: bool, b: bool) -> Option<Value>
    ensures applied { IfSome result (λ y. (at : Positions) (m : Memory) →
        steps.applied op at (Boolean a) (Boolean b) m ≡ gives y m) }
    ensures within { (count : ℕ) → IfSome result (RefersWithin count) }
{
    match op {
        Symbol::Ampersand => Some(Value::Bool(a && b)),
        Symbol::Bar => Some(Value::Bool(a || b)),
        _ => None,
    }
}

/// The same of values.
fn without_table(op: Symbol, left: &Value, right: &Value) -> Option<Value>
    ensures applied { IfSome result (λ y. (at : Positions) (m : Memory) →
        steps.applied op at left.now right.now m ≡ gives y m) }
    ensures within { (count : ℕ) → IfSome result (RefersWithin count) }
{
    match (left, right) {
        (Value::Int(a), Value::Int(b)) => between_numbers(op, *a, *b),
        (Value::Bool(a), Value::Bool(b)) => between_booleans(op, *a, *b),
        _ => None,
    }
}

/// What an operator between two values gives.
fn apply_between(
    alloc: Global,
    state: &mut State,
    op: Symbol,
    at: Pos,
    left: &Value,
    right: Value,
) -> Result<Value, Stop>
    requires left { RefersWithin (length state.old.held.objects) left.now }
    requires right { RefersWithin (length state.old.held.objects) right }
    ensures tells { (locals : List Value) → Tells result
        (steps.applied op at left.now right (record { state = state.old.held; locals = locals }))
        (record { state = state.new.held; locals = locals }) }
    ensures marks { state.new.marks ≡ state.old.marks }
    ensures count { length state.new.held.objects ≡ length state.old.held.objects }
    ensures within { IfOk result (RefersWithin (length state.new.held.objects)) }
{
    match without_table(op, left, &right) {
        Some(value) => Ok(value),
        None => apply(alloc, state, op, at, left, &[right]),
    }
}

/// What an operator between two values gives, which counts one unit.
pub fn apply_counted(
    alloc: Global,
    state: &mut State,
    units: &mut u64,
    op: Symbol,
    at: Pos,
    left: &Value,
    right: Value,
) -> Result<Value, Stop>
    requires left { RefersWithin (length state.old.held.objects) left.now }
    requires right { RefersWithin (length state.old.held.objects) right }
    ensures counts { (locals : List Value) → Counts result
        (steps.applied op at left.now right (record { state = state.old.held; locals = locals }))
        (record { state = state.new.held; locals = locals }) units.old units.new }
    ensures marks { state.new.marks ≡ state.old.marks }
    ensures count { length state.new.held.objects ≡ length state.old.held.objects }
    ensures within { IfOk result (RefersWithin (length state.new.held.objects)) }
    ensures counted { OnOk result (units.new < units.old) }
{
    match tick(units) {
        Ok(()) => apply_between(alloc, state, op, at, left, right),
        Err(stop) => Err(stop),
    }
}
