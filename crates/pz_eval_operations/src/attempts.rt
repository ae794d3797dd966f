//! Expressions that are evaluated at once, with no task and no memory: constants, variables and `self`,
//! and an operator between two numbers that are constants or variables.

ghost use Rattle.std.specs.Prelude.{◌≡◌, ◌<◌, ℕ, length, option_map, IfSome};
ghost use Rattle.pz_classes_code.specs.pz_syntax.declared.tokens.Pos.{Pos};
ghost use Rattle.pz_classes_code.specs.pz_syntax.Expressions.{chain};
ghost use Rattle.pz_classes_code.specs.CodeView.{view};
ghost use Rattle.pz_classes_code.specs.pz_value.declared.value.Value.{Value as Values};
ghost use Rattle.pz_classes_code.specs.pz_value.declared.value.Value.TheVariants.{Bool as Boolean, Int};
ghost use Rattle.pz_state.specs.References.{RefersWithin};
ghost use Rattle.pz_classes_code.specs.Literals as literals;
ghost use Rattle.pz_eval_rules.specs.Memories.{Memory};
ghost use Rattle.pz_eval_rules.specs.Memories as memories;
ghost use Rattle.pz_eval_rules.specs.Answers.{gives};
ghost use Rattle.pz_eval_rules.specs.Steps as steps;
ghost use Rattle.pz_eval_operations.specs.devices.Sites.{place_of, memory_of};
ghost use Rattle.pz_eval_operations.specs.devices.Views.{links_view};
ghost use Rattle.pz_eval_operations.specs.devices.AtOnce.{IsWorth, IsWorthThree, Attempt};
ghost use Rattle.pz_eval_operations.specs.devices.Within.{SiteWithin, ActivationWithin};

use crate::operating::{between_numbers, number_between, truth_between};
use crate::reading::{held, plain_constant, plain_copy};
use crate::task::{Activation, Site};
use pz_classes_code::pz_syntax::{Literal, Symbol};
use pz_classes_code::pz_value::Value;
use pz_classes_code::{Code, CodeForm, CodeLink, Slot};
use pz_state::State;

/// What a variable holds, if it is no text; nil if there is none.
fn plain_variable(state: &State, activation: &Activation<'_>, slot: Slot) -> Option<Value>
    ensures value { IfSome result (λ y. y ≡ memories.read (place_of activation.now.site) slot
        (memory_of activation.now state.now.held)) }
    ensures within { ActivationWithin (length state.now.held.objects) activation.now →
        IfSome result (RefersWithin (length state.now.held.objects)) }
{
    match held(state, activation.site, activation.locals.as_slice(), slot) {
        Some(value) => plain_copy(value),
        None => Some(Value::Nil),
    }
}

/// What `self` is: outside data methods it is nil.
pub fn self_at(site: Site) -> Value
    ensures value { result ≡ memories.self_at (place_of site) }
    ensures within { (count : ℕ) → SiteWithin count site → RefersWithin count result }
{
    match site {
        Site::Object(r) => Value::Ref(r),
        Site::Process(_) => Value::Nil,
    }
}

/// A constant, a variable or `self`, but for texts.
fn plain(state: &State, activation: &Activation<'_>, code: &Code) -> Option<Value>
    ensures worth { IfSome result (IsWorth (place_of activation.now.site)
        (memory_of activation.now state.now.held) (view code.now)) }
    ensures within { ActivationWithin (length state.now.held.objects) activation.now →
        IfSome result (RefersWithin (length state.now.held.objects)) }
{
    match &code.form {
        CodeForm::Lit(literal) => plain_constant(literal),
        CodeForm::Var(slot) => plain_variable(state, activation, *slot),
        CodeForm::Me => Some(self_at(activation.site)),
        _ => None,
    }
}

/// A constant that is a number.
fn number_of(literal: &Literal) -> Option<i64>
    ensures { IfSome result (λ n. literals.constant literal.now ≡ Int n) }
{
    match literal {
        Literal::Int(n) => Some(*n),
        _ => None,
    }
}

/// A number that a variable holds.
fn number_in(state: &State, activation: &Activation<'_>, slot: Slot) -> Option<i64>
    ensures { IfSome result (λ n. memories.read (place_of activation.now.site) slot
        (memory_of activation.now state.now.held) ≡ Int n) }
{
    match held(state, activation.site, activation.locals.as_slice(), slot)? {
        Value::Int(n) => Some(*n),
        _ => None,
    }
}

/// A number that is a constant or a variable.
fn number(state: &State, activation: &Activation<'_>, code: &Code) -> Option<i64>
    ensures { IfSome result (λ n. IsWorth (place_of activation.now.site)
        (memory_of activation.now state.now.held) (view code.now) (Int n)) }
{
    match &code.form {
        CodeForm::Lit(literal) => number_of(literal),
        CodeForm::Var(slot) => number_in(state, activation, *slot),
        _ => None,
    }
}

/// An operator, and the numbers that it alone stands between.
fn operands(
    state: &State,
    activation: &Activation<'_>,
    first: &Code,
    links: &[CodeLink],
) -> Option<(Symbol, i64, i64)>
    ensures { IfSome result (λ o. (y : Values) → ((at : Pos) (m : Memory) →
        steps.applied o.0 at (Int o.1) (Int o.2) m ≡ gives y m) → (at : Pos) →
        IsWorthThree (place_of activation.now.site) (memory_of activation.now state.now.held)
        (chain at (view first.now) (links_view links.now)) y) }
{
    let (link, rest) = links.split_first()?;
    if !rest.is_empty() {
        return None;
    }
    let left = number(state, activation, first)?;
    let right = number(state, activation, &link.operand)?;
    Some((link.op, left, right))
}

/// One operator between two numbers.
fn of_numbers(
    state: &State,
    activation: &Activation<'_>,
    first: &Code,
    links: &[CodeLink],
) -> Option<Value>
    ensures worth { IfSome result (λ y. (at : Pos) →
        IsWorthThree (place_of activation.now.site) (memory_of activation.now state.now.held)
        (chain at (view first.now) (links_view links.now)) y) }
    ensures within { (count : ℕ) → IfSome result (RefersWithin count) }
{
    let (op, left, right) = operands(state, activation, first, links)?;
    between_numbers(op, left, right)
}

/// One operator between two numbers that gives a number.
fn number_of_two(
    state: &State,
    activation: &Activation<'_>,
    first: &Code,
    links: &[CodeLink],
) -> Option<i64>
    ensures { IfSome result (λ n. (at : Pos) →
        IsWorthThree (place_of activation.now.site) (memory_of activation.now state.now.held)
        (chain at (view first.now) (links_view links.now)) (Int n)) }
{
    let (op, left, right) = operands(state, activation, first, links)?;
    number_between(op, left, right)
}

/// One operator between two numbers that gives a Boolean.
fn truth_of_two(
    state: &State,
    activation: &Activation<'_>,
    first: &Code,
    links: &[CodeLink],
) -> Option<bool>
    ensures { IfSome result (λ x. (at : Pos) →
        IsWorthThree (place_of activation.now.site) (memory_of activation.now state.now.held)
        (chain at (view first.now) (links_view links.now)) (Boolean x)) }
{
    let (op, left, right) = operands(state, activation, first, links)?;
    truth_between(op, left, right)
}

/// A constant, a variable or `self`, which counts one unit.
fn plain_at_once(
    state: &State,
    units: &mut u64,
    activation: &Activation<'_>,
    depth: u32,
    code: &Code,
) -> Option<Value>
    ensures finds { Attempt depth (place_of activation.now.site)
        (memory_of activation.now state.now.held) (view code.now) units.old units.new result }
    ensures within { ActivationWithin (length state.now.held.objects) activation.now →
        IfSome result (RefersWithin (length state.now.held.objects)) }
{
    if depth == 0 {
        return None;
    }
    if *units == 0 {
        return None;
    }
    let value = plain(state, activation, code)?;
    *units -= 1;
    Some(value)
}

/// An operator between two numbers, which counts a unit, as each of them does.
fn numbers_at_once(
    state: &State,
    units: &mut u64,
    activation: &Activation<'_>,
    depth: u32,
    first: &Code,
    links: &[CodeLink],
) -> Option<Value>
    ensures finds { (at : Pos) → Attempt depth (place_of activation.now.site)
        (memory_of activation.now state.now.held) (chain at (view first.now) (links_view links.now))
        units.old units.new result }
    ensures within { (count : ℕ) → IfSome result (RefersWithin count) }
{
    if depth < 2 {
        return None;
    }
    if *units < 3 {
        return None;
    }
    let value = of_numbers(state, activation, first, links)?;
    *units -= 3;
    Some(value)
}

/// The value of an expression that may stand so deep, if it is evaluated at once, with the units that
/// it counts.
pub fn at_once(
    state: &State,
    units: &mut u64,
    activation: &Activation<'_>,
    depth: u32,
    code: &Code,
) -> Option<Value>
    ensures finds { Attempt depth (place_of activation.now.site)
        (memory_of activation.now state.now.held) (view code.now) units.old units.new result }
    ensures within { ActivationWithin (length state.now.held.objects) activation.now →
        IfSome result (RefersWithin (length state.now.held.objects)) }
{
    match &code.form {
        CodeForm::Chain(first, links) => numbers_at_once(
            state,
            units,
            activation,
            depth,
            first.get(),
            links.as_slice(),
        ),
        CodeForm::Lit(_) | CodeForm::Var(_) | CodeForm::Me => {
            plain_at_once(state, units, activation, depth, code)
        }
        _ => None,
    }
}

/// The same, if it is one operator between two numbers that gives a number.
pub(crate) fn number_at_once(
    state: &State,
    units: &mut u64,
    activation: &Activation<'_>,
    depth: u32,
    code: &Code,
) -> Option<i64>
    ensures { Attempt depth (place_of activation.now.site)
        (memory_of activation.now state.now.held) (view code.now) units.old units.new
        (option_map (λ n. Int n) result) }
{
    let CodeForm::Chain(first, links) = &code.form else {
        return None;
    };
    if depth < 2 {
        return None;
    }
    if *units < 3 {
        return None;
    }
    let number = number_of_two(state, activation, first.get(), links.as_slice())?;
    *units -= 3;
    Some(number)
}

/// The same, if it is one operator between two numbers that gives a Boolean.
pub fn truth_at_once(
    state: &State,
    units: &mut u64,
    activation: &Activation<'_>,
    depth: u32,
    code: &Code,
) -> Option<bool>
    ensures { Attempt depth (place_of activation.now.site)
        (memory_of activation.now state.now.held) (view code.now) units.old units.new
        (option_map (λ x. Boolean x) result) }
{
    let CodeForm::Chain(first, links) = &code.form else {
        return None;
    };
    if depth < 2 {
        return None;
    }
    if *units < 3 {
        return None;
    }
    let truth = truth_of_two(state, activation, first.get(), links.as_slice())?;
    *units -= 3;
    Some(truth)
}
