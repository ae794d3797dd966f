//! What a test chooses.

ghost use Rattle.std.specs.Prelude.{◌≡◌, ◌+◌, ◌<◌, ◌≤◌, ℕ, length, IfOk, OnOk, All};
ghost use Rattle.pz_classes_code.specs.pz_syntax.Classes.{ModelTree};
ghost use Rattle.pz_classes_code.specs.CodeView.{view, list_view, part_view};
ghost use Rattle.pz_classes_code.specs.pz_syntax.declared.tokens.Pos.{Pos as Positions};
ghost use Rattle.pz_classes_code.specs.pz_value.declared.value.Value.{Value as Values};
ghost use Rattle.pz_classes_code.specs.pz_value.declared.value.Value.TheVariants.{Nil};
ghost use Rattle.pz_eval_operations.specs.pz_eval_rules.Steps.{truth, chosen};
ghost use Rattle.pz_eval_operations.specs.pz_eval_rules.Memories.{Memory, Location};
ghost use Rattle.pz_eval_operations.specs.pz_eval_rules.devices.Computed.{Computation, and_then, tick as ticked, tested, sequence, going, evaluated};
ghost use Rattle.pz_eval_operations.specs.pz_eval_rules.devices.Laws.{TurnsGoOn};
ghost use Rattle.pz_eval_operations.specs.devices.Sites.{place_of, memory_of};
ghost use Rattle.pz_eval_machine.specs.devices.Tasks.{turning, pending, meant, coming, then_tasks};
ghost use Rattle.pz_eval_machine.specs.devices.Steps.{Goes};
ghost use Rattle.pz_eval_machine.specs.devices.Turns.{Begins, Turned, Fewer};
ghost use Rattle.pz_eval_operations.specs.devices.Within.{TaskWithin, ActivationWithin};
ghost use Rattle.pz_eval_machine.specs.devices.Within.{ControlWithin};
ghost use Rattle.pz_eval_machine.specs.devices.Weights.{list_weight, part_weight, tasks_weight, load, NoMore};

use crate::continuing::{add_task, descend, go_on_list, run_list};
use crate::control::Control;
use pz_classes_code::Code;
use pz_classes_code::pz_items::Items;
use pz_classes_code::pz_syntax::Pos;
use pz_classes_code::pz_value::Value;
use pz_eval_operations::{Activation, Stop, Task, assign_number, at_once, tick, truth_at_once};
use pz_state::{FaultKind, State};
use std::alloc::AllocError;

/// The part of an `if` that is chosen.
fn chosen_part<'a>(test: bool, part: &'a [Code], other: &'a Option<Items<Code>>) -> &'a [Code]
    ensures { list_view result.now ≡ chosen test (list_view part.now) (part_view other.now) }
{
    if test {
        return part;
    }
    match other {
        None => &[],
        Some(codes) => codes.as_slice(),
    }
}

/// The part of an `if` that a value chooses is evaluated.
pub(crate) fn choose<'a>(
    tasks: &mut Vec<Task<'a>>,
    depth: u32,
    at: Pos,
    part: &'a [Code],
    other: &'a Option<Items<Code>>,
    value: Value,
) -> Result<Control<'a>, Stop>
    ensures goes { (model : ModelTree) (now : ℕ) (p : Location) (m : Memory) (r : ℕ) →
        Goes (λ c. meant model now p tasks.new.items c m r) result r
        (and_then (tested at (truth value) (λ b. sequence model now
        (evaluated model now depth) p Nil (chosen b (list_view part.now) (part_view other.now))) m
        r) (pending model now p tasks.old.items)) }
    ensures within { IfOk result (λ c. (count : ℕ) → All (TaskWithin count) tasks.old.items →
        All (TaskWithin count) tasks.new.items × ControlWithin count c) }
    ensures weighs { IfOk result (λ c. load c tasks.new.items ≤ list_weight
        (list_view part.now) + part_weight (part_view other.now) + tasks_weight tasks.old.items) }
{
    let Value::Bool(test) = value else {
        return Err(Stop::Fault(FaultKind::NotBoolean, at));
    };
    let codes = chosen_part(test, part, other);
    go_on_list(tasks, depth, Value::Nil, codes)
}

/// A `while` has a further turn, or not, as a value says.
pub(crate) fn turn_or_end<'a>(
    state: &mut State,
    units: &mut u64,
    activation: &mut Activation<'a>,
    depth: u32,
    at: Pos,
    test: &'a Code,
    body: &'a [Code],
    value: Value,
) -> Result<Control<'a>, Stop>
    requires { ActivationWithin (length state.old.held.objects) activation.old }
    ensures goes { (model : ModelTree) (now : ℕ) →
        Goes (coming model now activation.new state.new.held units.new) result units.new
        (then_tasks model now activation.old (tested at (truth value)
        (going model now (evaluated model now depth) (place_of activation.old.site)
        (list_view body.now) (turning model now depth (place_of activation.old.site) at
        (view test.now) (list_view body.now))) (memory_of activation.old state.old.held)
        units.old)) }
    ensures marks { state.new.marks ≡ state.old.marks }
    ensures count { length state.new.held.objects ≡ length state.old.held.objects }
    ensures site { activation.new.site ≡ activation.old.site }
    ensures within { IfOk result (λ c. ActivationWithin
        (length state.new.held.objects) activation.new
        × ControlWithin (length state.new.held.objects) c) }
    ensures weighs { IfOk result (λ c. NoMore units.old
        (list_weight (list_view body.now) + tasks_weight activation.old.tasks.items) units.new
        (load c activation.new.tasks.items)) }
{
    let Value::Bool(goes) = value else {
        return Err(Stop::Fault(FaultKind::NotBoolean, at));
    };
    if !goes {
        return Ok(Control::Give(Value::Nil));
    }
    let turn = Task::Turn {
        depth,
        at,
        test,
        body,
    };
    add_task(&mut activation.tasks, turn)?;
    run_list(state, units, activation, depth, Value::Nil, body)
}

/// The test of a `while` begins, which counts one unit.
fn begin_turn<'a>(
    state: &mut State,
    units: &mut u64,
    activation: &mut Activation<'a>,
    depth: u32,
    at: Pos,
    test: &'a Code,
    body: &'a [Code],
) -> Result<Control<'a>, Stop>
    requires { ActivationWithin (length state.old.held.objects) activation.old }
    ensures goes { (model : ModelTree) (now : ℕ) →
        Goes (coming model now activation.new state.new.held units.new) result units.new
        (then_tasks model now activation.old (ticked
        (λ m r. and_then (evaluated model now depth (place_of activation.old.site)
        (view test.now) m r) (λ y. tested at (truth y)
        (going model now (evaluated model now depth) (place_of activation.old.site)
        (list_view body.now) (turning model now depth (place_of activation.old.site) at
        (view test.now) (list_view body.now))))) (memory_of activation.old state.old.held)
        units.old)) }
    ensures marks { state.new.marks ≡ state.old.marks }
    ensures count { length state.new.held.objects ≡ length state.old.held.objects }
    ensures site { activation.new.site ≡ activation.old.site }
    ensures within { IfOk result (λ c. ActivationWithin
        (length state.new.held.objects) activation.new
        × ControlWithin (length state.new.held.objects) c) }
    ensures counted { OnOk result (units.new < units.old) }
{
    tick(units)?;
    match at_once(state, units, activation, depth, test) {
        Some(value) => turn_or_end(state, units, activation, depth, at, test, body, value),
        None => descend(
            &mut activation.tasks,
            depth,
            test,
            Task::Test {
                depth,
                at,
                test,
                body,
            },
        ),
    }
}

/// Whether a further turn of a `while` begins at once: then its test is done, and its units are counted.
fn turn_begins(
    state: &State,
    units: &mut u64,
    activation: &Activation<'_>,
    depth: u32,
    test: &Code,
) -> bool
    ensures { Begins depth (place_of activation.now.site) (memory_of activation.now state.now.held)
        (view test.now) units.old units.new result }
{
    if *units == 0 {
        return false;
    }
    let mut left = *units - 1;
    let Some(goes) = truth_at_once(state, &mut left, activation, depth, test) else {
        return false;
    };
    if !goes {
        return false;
    }
    *units = left;
    true
}

/// The assignments of numbers with which the body of a `while` begins are done; the others are answered.
/// The only error is want of memory.
fn assign_numbers<'a>(
    state: &mut State,
    units: &mut u64,
    activation: &mut Activation<'_>,
    depth: u32,
    codes: &'a [Code],
) -> Result<&'a [Code], AllocError>
    requires { ActivationWithin (length state.old.held.objects) activation.old }
    ensures goes { IfOk result (λ left. (model : ModelTree) (now : ℕ) (next : Computation Values) →
        and_then (sequence model now (evaluated model now depth) (place_of activation.old.site) Nil
        (list_view left.now) (memory_of activation.new state.new.held) units.new) (λ _. next) ≡
        and_then (sequence model now (evaluated model now depth) (place_of activation.old.site) Nil
        (list_view codes.now) (memory_of activation.old state.old.held) units.old) (λ _. next)) }
    ensures marks { state.new.marks ≡ state.old.marks }
    ensures count { length state.new.held.objects ≡ length state.old.held.objects }
    ensures site { activation.new.site ≡ activation.old.site }
    ensures tasks { activation.new.tasks ≡ activation.old.tasks }
    ensures within { ActivationWithin (length state.new.held.objects) activation.new }
    ensures units { OnOk result (units.new ≤ units.old) }
{
    let mut left = codes;
    'list: while let Some((first, rest)) = left.split_first() {
        match assign_number(state, units, activation, depth, first)? {
            Some(_) => left = rest,
            None => return Ok(left),
        }
    }
    Ok(left)
}

/// Turns of a `while` are done, as long as numbers alone are compared and assigned. What is answered is
/// left of the body of a turn; else the next turn is to begin. The only error is want of memory.
fn quick_turns<'a>(
    state: &mut State,
    units: &mut u64,
    activation: &mut Activation<'_>,
    depth: u32,
    test: &Code,
    body: &'a [Code],
) -> Result<Option<&'a [Code]>, AllocError>
    requires { ActivationWithin (length state.old.held.objects) activation.old }
    ensures goes { TurnsGoOn → IfOk result (λ left. (model : ModelTree) (now : ℕ) (at : Positions) →
        Turned model now depth (place_of activation.old.site) at (view test.now)
        (list_view body.now) (memory_of activation.old state.old.held) units.old
        (memory_of activation.new state.new.held) units.new left) }
    ensures marks { state.new.marks ≡ state.old.marks }
    ensures count { length state.new.held.objects ≡ length state.old.held.objects }
    ensures site { activation.new.site ≡ activation.old.site }
    ensures tasks { activation.new.tasks ≡ activation.old.tasks }
    ensures within { ActivationWithin (length state.new.held.objects) activation.new }
    ensures units { IfOk result (Fewer units.old units.new) }
{
    'turns: while turn_begins(state, units, activation, depth, test) {
        let left = assign_numbers(state, units, activation, depth, body)?;
        if !left.is_empty() {
            return Ok(Some(left));
        }
    }
    Ok(None)
}

/// A `while` goes on with its test, which counts one unit. Turns that are quick leave no task.
pub(crate) fn go_on_turns<'a>(
    state: &mut State,
    units: &mut u64,
    activation: &mut Activation<'a>,
    depth: u32,
    at: Pos,
    test: &'a Code,
    body: &'a [Code],
) -> Result<Control<'a>, Stop>
    requires { ActivationWithin (length state.old.held.objects) activation.old }
    ensures goes { (model : ModelTree) (now : ℕ) →
        Goes (coming model now activation.new state.new.held units.new) result units.new
        (then_tasks model now activation.old (turning model now depth
        (place_of activation.old.site) at (view test.now) (list_view body.now)
        (memory_of activation.old state.old.held) units.old)) }
    ensures marks { state.new.marks ≡ state.old.marks }
    ensures count { length state.new.held.objects ≡ length state.old.held.objects }
    ensures site { activation.new.site ≡ activation.old.site }
    ensures within { IfOk result (λ c. ActivationWithin
        (length state.new.held.objects) activation.new
        × ControlWithin (length state.new.held.objects) c) }
    ensures counted { OnOk result (units.new < units.old) }
{
    pz_eval_operations::pz_eval_rules::laws::turns_go_on();
    let found = quick_turns(state, units, activation, depth, test, body)?;
    match found {
        Some(left) => {
            let turn = Task::Turn {
                depth,
                at,
                test,
                body,
            };
            add_task(&mut activation.tasks, turn)?;
            run_list(state, units, activation, depth, Value::Nil, left)
        }
        None => begin_turn(state, units, activation, depth, at, test, body),
    }
}
