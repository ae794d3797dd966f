//! How tasks are resumed with a value.

ghost use Rattle.std.specs.Prelude.{◌≡◌, ◌+◌, ℕ, List, [], ◌∷◌, ◌++◌, length, IfOk};
ghost use Rattle.pz_classes_code.specs.pz_syntax.Classes.{ModelTree};
ghost use Rattle.pz_classes_code.specs.CodeView.{list_view};
ghost use Rattle.pz_classes_code.specs.pz_value.declared.value.Value.{Value as Values};
ghost use Rattle.pz_state.specs.References.{RefersWithin};
ghost use Rattle.pz_eval_operations.specs.pz_eval_rules.Memories.{Location};
ghost use Rattle.pz_eval_operations.specs.pz_eval_rules.Memories as memories;
ghost use Rattle.pz_eval_operations.specs.pz_eval_rules.Answers.{gives};
ghost use Rattle.pz_eval_operations.specs.pz_eval_rules.Steps as steps;
ghost use Rattle.pz_eval_operations.specs.pz_eval_rules.devices.Computed.{done, and_then, arguments, evaluated};
ghost use Rattle.pz_eval_operations.specs.declared.task.Task.{Task as Tasks};
ghost use Rattle.pz_eval_operations.specs.devices.Sites.{place_of, memory_of};
ghost use Rattle.pz_eval_operations.specs.devices.Views.{sendings_view};
ghost use Rattle.pz_eval_machine.specs.devices.Tasks.{sent, resumed, pending, meant, coming, then_tasks};
ghost use Rattle.pz_eval_machine.specs.devices.Steps.{Goes};
ghost use Rattle.pz_eval_operations.specs.devices.Within.{RequestWithin, TaskWithin, ActivationWithin};
ghost use Rattle.pz_eval_machine.specs.devices.Within.{ControlWithin};
ghost use Rattle.pz_eval_machine.specs.devices.Weights.{list_weight, task_weight, tasks_weight, control_weight, load, Falls, NoMore};

use crate::basis::Basis;
use crate::beginning::give;
use crate::choosing::{choose, go_on_turns, turn_or_end};
use crate::continuing::{add_argument, go_on_arguments, go_on_selectors, run_list};
use crate::control::Control;
use crate::operators::{go_on_operators, operate};
use pz_classes_code::pz_syntax::{Pos, Symbol};
use pz_classes_code::pz_value::Value;
use pz_classes_code::{Code, Slot};
use pz_eval_operations::{Activation, Request, Stop, Task, apply, copy, write};
use pz_state::State;
use std::alloc::Global;

/// An operator before a value is applied.
fn operate_alone<'a>(
    alloc: Global,
    state: &mut State,
    op: Symbol,
    at: Pos,
    operand: Value,
) -> Result<Control<'a>, Stop>
    requires { RefersWithin (length state.old.held.objects) operand }
    ensures goes { (model : ModelTree) (now : ℕ) (p : Location) (ks : List Tasks)
        (locals : List Values) (r : ℕ) → Goes (λ c. meant model now p ks c
        (record { state = state.new.held; locals = locals }) r) result r
        (and_then (done (steps.applied_alone op at operand
        (record { state = state.old.held; locals = locals })) r) (pending model now p ks)) }
    ensures marks { state.new.marks ≡ state.old.marks }
    ensures count { length state.new.held.objects ≡ length state.old.held.objects }
    ensures within { IfOk result (ControlWithin (length state.new.held.objects)) }
    ensures weighs { IfOk result (λ c. control_weight c ≡ 0) }
{
    give(apply(alloc, state, op, at, &operand, &[]))
}

/// A variable gets a value, which is that of the assignment.
pub(crate) fn assign<'a>(
    state: &mut State,
    activation: &mut Activation<'a>,
    slot: Slot,
    value: Value,
) -> Result<Control<'a>, Stop>
    requires value { RefersWithin (length state.old.held.objects) value }
    requires within { ActivationWithin (length state.old.held.objects) activation.old }
    ensures goes { (model : ModelTree) (now : ℕ) (r : ℕ) → Goes
        (coming model now activation.new state.new.held r) result r
        (then_tasks model now activation.old (done (gives value
        (memories.write (place_of activation.old.site) slot value
        (memory_of activation.old state.old.held))) r)) }
    ensures marks { state.new.marks ≡ state.old.marks }
    ensures count { length state.new.held.objects ≡ length state.old.held.objects }
    ensures site { activation.new.site ≡ activation.old.site }
    ensures within { IfOk result (λ c. ActivationWithin
        (length state.new.held.objects) activation.new
        × ControlWithin (length state.new.held.objects) c) }
    ensures weighs { IfOk result (λ c. load c activation.new.tasks.items ≡
        tasks_weight activation.old.tasks.items) }
{
    let copy = copy(&value)?;
    write(state, activation.site, &mut activation.locals, slot, copy)?;
    Ok(Control::Give(value))
}

/// A value is the next argument of a selector.
fn take_argument<'a>(
    state: &State,
    units: &mut u64,
    activation: &mut Activation<'a>,
    mut request: Box<Request<'a>>,
    rest: &'a [Code],
    value: Value,
) -> Result<Control<'a>, Stop>
    requires request { RequestWithin (length state.now.held.objects) request.value }
    requires value { RefersWithin (length state.now.held.objects) value }
    requires within { ActivationWithin (length state.now.held.objects) activation.old }
    ensures goes { (model : ModelTree) (now : ℕ) →
        Goes (coming model now activation.new state.now.held units.new) result units.new
        (then_tasks model now activation.old (and_then
        (arguments model now (evaluated model now request.entry.value.depth)
        (place_of activation.old.site) (request.entry.value.arguments.items ++ value ∷ [])
        (list_view rest.now) (memory_of activation.old state.now.held) units.old)
        (sent model now request.entry.value.depth (place_of activation.old.site)
        request.entry.value.receiver request.entry.value.selector.now
        (sendings_view request.entry.value.more.now)))) }
    ensures site { activation.new.site ≡ activation.old.site }
    ensures locals { activation.new.locals ≡ activation.old.locals }
    ensures within { IfOk result (λ c. ActivationWithin
        (length state.now.held.objects) activation.new
        × ControlWithin (length state.now.held.objects) c) }
    ensures weighs { IfOk result (λ c. NoMore units.old
        (list_weight (list_view rest.now) + tasks_weight activation.old.tasks.items) units.new
        (load c activation.new.tasks.items)) }
{
    add_argument(&mut request.arguments, value)?;
    go_on_arguments(state, units, activation, request, rest)
}

/// A task of the method that runs is resumed with a value.
pub(crate) fn resume<'a>(
    basis: Basis<'a>,
    state: &mut State,
    units: &mut u64,
    activation: &mut Activation<'a>,
    task: Task<'a>,
    value: Value,
) -> Result<Control<'a>, Stop>
    requires task { TaskWithin (length state.old.held.objects) task }
    requires value { RefersWithin (length state.old.held.objects) value }
    requires within { ActivationWithin (length state.old.held.objects) activation.old }
    ensures goes { (model : ModelTree) (now : ℕ) → Goes
        (coming model now activation.new state.new.held units.new) result units.new
        (then_tasks model now activation.old (resumed model now
        (place_of activation.old.site) task.entry value
        (memory_of activation.old state.old.held) units.old)) }
    ensures marks { state.new.marks ≡ state.old.marks }
    ensures count { length state.new.held.objects ≡ length state.old.held.objects }
    ensures site { activation.new.site ≡ activation.old.site }
    ensures within { IfOk result (λ c. ActivationWithin
        (length state.new.held.objects) activation.new
        × ControlWithin (length state.new.held.objects) c) }
    ensures falls { IfOk result (λ c. Falls units.old
        (task_weight task.entry + tasks_weight activation.old.tasks.items) units.new
        (load c activation.new.tasks.items)) }
{
    let alloc = basis.alloc;
    match task {
        Task::Sequence { depth, rest } => { run_list(state, units, activation, depth, value, rest) }
        Task::Operators { depth, links } => {
            go_on_operators(alloc, state, units, activation, depth, value, links)
        }
        Task::Operand {
            depth,
            left,
            link,
            rest,
        } => operate(
            alloc,
            state,
            units,
            &mut activation.tasks,
            depth,
            left,
            link,
            value,
            rest,
        ),
        Task::Selectors { depth, sendings } => {
            go_on_selectors(alloc, state, units, activation, depth, value, sendings)
        }
        Task::Argument { request, rest } => {
            take_argument(state, units, activation, request, rest, value)
        }
        Task::Unary { op, at } => operate_alone(alloc, state, op, at, value),
        Task::Assign { slot } => assign(state, activation, slot, value),
        Task::Return => Ok(Control::Leave(value)),
        Task::If {
            depth,
            at,
            part,
            other,
        } => choose(&mut activation.tasks, depth, at, part, other, value),
        Task::Test {
            depth,
            at,
            test,
            body,
        } => turn_or_end(state, units, activation, depth, at, test, body, value),
        Task::Turn {
            depth,
            at,
            test,
            body,
        } => go_on_turns(state, units, activation, depth, at, test, body),
    }
}
