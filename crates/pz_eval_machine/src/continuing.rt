//! How lists, arguments and selectors go on. Each call adds the task that is to follow and says what is
//! done next; what can be evaluated at once is evaluated on the way.

ghost use Rattle.std.specs.Prelude.{◌≡◌, ◌+◌, ◌<◌, ◌≤◌, ℕ, [], ◌∷◌, ◌++◌, length, IfOk, OnOk, All};
ghost use Rattle.pz_classes_code.specs.pz_syntax.Classes.{ModelTree};
ghost use Rattle.pz_classes_code.specs.CodeView.{view, list_view, part_view};
ghost use Rattle.pz_state.specs.References.{RefersWithin};
ghost use Rattle.pz_eval_operations.specs.pz_eval_rules.Memories.{Memory, Location};
ghost use Rattle.pz_eval_operations.specs.pz_eval_rules.Evaluation.{arguments_of};
ghost use Rattle.pz_eval_operations.specs.pz_eval_rules.devices.Computed.{and_then, tick as ticked, sequence, arguments, selectors, evaluated};
ghost use Rattle.pz_eval_operations.specs.devices.Sites.{place_of, memory_of};
ghost use Rattle.pz_eval_operations.specs.devices.Views.{sendings_view};
ghost use Rattle.pz_eval_machine.specs.devices.Tasks.{sent, resumed, pending, meant, coming, then_tasks};
ghost use Rattle.pz_eval_machine.specs.devices.Steps.{Goes};
ghost use Rattle.pz_eval_operations.specs.devices.Within.{RequestWithin, TaskWithin, ActivationWithin};
ghost use Rattle.pz_eval_machine.specs.devices.Within.{ControlWithin};
ghost use Rattle.pz_eval_machine.specs.devices.Weights.{weight, list_weight, sendings_weight, task_weight, tasks_weight, load, NoMore};

use crate::control::Control;
use pz_classes_code::pz_items::Items;
use pz_classes_code::pz_value::Value;
use pz_classes_code::{Code, CodeSending};
use pz_eval_operations::{Activation, Request, Stop, Task, assign_at_once, at_once, tick};
use pz_state::State;
use std::alloc::{AllocError, Global};

/// A task is left to do, before those that are. The only error is want of memory.
pub(crate) fn add_task<'a>(tasks: &mut Vec<Task<'a>>, task: Task<'a>) -> Result<(), AllocError>
    ensures { OnOk result (tasks.new.items ≡ tasks.old.items ++ task.entry ∷ []) }
{
    tasks.reserve(1)?;
    tasks.push_reserved(task);
    Ok(())
}

/// Evaluates an expression, and then does this task with its value.
pub(crate) fn descend<'a>(
    tasks: &mut Vec<Task<'a>>,
    depth: u32,
    code: &'a Code,
    task: Task<'a>,
) -> Result<Control<'a>, Stop>
    ensures goes { (model : ModelTree) (now : ℕ) (p : Location) (m : Memory) (r : ℕ) →
        Goes (λ c. meant model now p tasks.new.items c m r) result r
        (and_then (and_then (evaluated model now depth p (view code.now) m r)
        (resumed model now p task.entry)) (pending model now p tasks.old.items)) }
    ensures within { IfOk result (λ c. (count : ℕ) → TaskWithin count task.entry →
        All (TaskWithin count) tasks.old.items → All (TaskWithin count) tasks.new.items
        × ControlWithin count c) }
    ensures weighs { IfOk result (λ c. load c tasks.new.items ≡ weight (view code.now) +
        (task_weight task.entry + tasks_weight tasks.old.items)) }
{
    add_task(tasks, task)?;
    Ok(Control::Evaluate { depth, code })
}

/// The same with one unit.
pub(crate) fn descend_counted<'a>(
    units: &mut u64,
    tasks: &mut Vec<Task<'a>>,
    depth: u32,
    code: &'a Code,
    task: Task<'a>,
) -> Result<Control<'a>, Stop>
    ensures goes { (model : ModelTree) (now : ℕ) (p : Location) (m : Memory) →
        Goes (λ c. meant model now p tasks.new.items c m units.new) result units.new
        (and_then (ticked (λ m1 r1. and_then (evaluated model now depth p (view code.now) m1 r1)
        (resumed model now p task.entry)) m units.old) (pending model now p tasks.old.items)) }
    ensures within { IfOk result (λ c. (count : ℕ) → TaskWithin count task.entry →
        All (TaskWithin count) tasks.old.items → All (TaskWithin count) tasks.new.items
        × ControlWithin count c) }
    ensures counted { OnOk result (units.new < units.old) }
{
    tick(units)?;
    descend(tasks, depth, code, task)
}

/// A list goes on after this value. Its last expression leaves no task.
pub(crate) fn go_on_list<'a>(
    tasks: &mut Vec<Task<'a>>,
    depth: u32,
    value: Value,
    codes: &'a [Code],
) -> Result<Control<'a>, Stop>
    ensures goes { (model : ModelTree) (now : ℕ) (p : Location) (m : Memory) (r : ℕ) →
        Goes (λ c. meant model now p tasks.new.items c m r) result r
        (and_then (sequence model now (evaluated model now depth) p value (list_view codes.now) m r)
        (pending model now p tasks.old.items)) }
    ensures within { IfOk result (λ c. (count : ℕ) → RefersWithin count value →
        All (TaskWithin count) tasks.old.items → All (TaskWithin count) tasks.new.items
        × ControlWithin count c) }
    ensures weighs { IfOk result (λ c. load c tasks.new.items ≤ list_weight
        (list_view codes.now) + tasks_weight tasks.old.items) }
{
    let Some((first, rest)) = codes.split_first() else {
        return Ok(Control::Give(value));
    };
    if rest.is_empty() {
        return Ok(Control::Evaluate { depth, code: first });
    }
    descend(tasks, depth, first, Task::Sequence { depth, rest })
}

/// A list goes on after this value. Assignments that are done at once leave no task.
pub(crate) fn run_list<'a>(
    state: &mut State,
    units: &mut u64,
    activation: &mut Activation<'a>,
    depth: u32,
    value: Value,
    codes: &'a [Code],
) -> Result<Control<'a>, Stop>
    requires value { RefersWithin (length state.old.held.objects) value }
    requires within { ActivationWithin (length state.old.held.objects) activation.old }
    ensures goes { (model : ModelTree) (now : ℕ) →
        Goes (coming model now activation.new state.new.held units.new) result units.new
        (then_tasks model now activation.old (sequence model now (evaluated model now depth)
        (place_of activation.old.site) value (list_view codes.now)
        (memory_of activation.old state.old.held) units.old)) }
    ensures marks { state.new.marks ≡ state.old.marks }
    ensures count { length state.new.held.objects ≡ length state.old.held.objects }
    ensures site { activation.new.site ≡ activation.old.site }
    ensures within { IfOk result (λ c. ActivationWithin
        (length state.new.held.objects) activation.new
        × ControlWithin (length state.new.held.objects) c) }
    ensures weighs { IfOk result (λ c. NoMore units.old
        (list_weight (list_view codes.now) + tasks_weight activation.old.tasks.items) units.new
        (load c activation.new.tasks.items)) }
{
    let mut last = value;
    let mut left = codes;
    'list: while let Some((first, rest)) = left.split_first() {
        match assign_at_once(state, units, activation, depth, first)? {
            Some(value) => {
                last = value;
                left = rest;
            }
            None => return go_on_list(&mut activation.tasks, depth, last, left),
        }
    }
    Ok(Control::Give(last))
}

/// A value is the next argument. The only error is want of memory.
pub(crate) fn add_argument(arguments: &mut Vec<Value>, value: Value) -> Result<(), AllocError>
    ensures { OnOk result (arguments.new.items ≡ arguments.old.items ++ value ∷ []) }
{
    arguments.reserve(1)?;
    arguments.push_reserved(value);
    Ok(())
}

/// The arguments of a selector go on; where none is left, the selector is sent.
pub(crate) fn go_on_arguments<'a>(
    state: &State,
    units: &mut u64,
    activation: &mut Activation<'a>,
    request: Box<Request<'a>>,
    codes: &'a [Code],
) -> Result<Control<'a>, Stop>
    requires request { RequestWithin (length state.now.held.objects) request.value }
    requires within { ActivationWithin (length state.now.held.objects) activation.old }
    ensures goes { (model : ModelTree) (now : ℕ) →
        Goes (coming model now activation.new state.now.held units.new) result units.new
        (then_tasks model now activation.old (and_then
        (arguments model now (evaluated model now request.entry.value.depth)
        (place_of activation.old.site) request.entry.value.arguments.items (list_view codes.now)
        (memory_of activation.old state.now.held) units.old)
        (sent model now request.entry.value.depth (place_of activation.old.site)
        request.entry.value.receiver request.entry.value.selector.now
        (sendings_view request.entry.value.more.now)))) }
    ensures site { activation.new.site ≡ activation.old.site }
    ensures locals { activation.new.locals ≡ activation.old.locals }
    ensures within { IfOk result (λ c. ActivationWithin
        (length state.now.held.objects) activation.new
        × ControlWithin (length state.now.held.objects) c) }
    ensures weighs { IfOk result (λ c. NoMore units.old
        (list_weight (list_view codes.now) + tasks_weight activation.old.tasks.items) units.new
        (load c activation.new.tasks.items)) }
{
    let mut request = request;
    let mut left = codes;
    'arguments: while let Some((first, rest)) = left.split_first() {
        match at_once(state, units, activation, request.depth, first) {
            Some(value) => {
                add_argument(&mut request.arguments, value)?;
                left = rest;
            }
            None => return descend(
                &mut activation.tasks,
                request.depth,
                first,
                Task::Argument { request, rest },
            ),
        }
    }
    Ok(Control::Send(request))
}

/// The arguments that are written; none without brackets.
fn arguments_of(args: &Option<Items<Code>>) -> &[Code]
    ensures { list_view result.now ≡ arguments_of (part_view args.now) }
{
    match args {
        None => &[],
        Some(codes) => codes.as_slice(),
    }
}

/// Selectors go on after their receiver.
pub(crate) fn go_on_selectors<'a>(
    alloc: Global,
    state: &State,
    units: &mut u64,
    activation: &mut Activation<'a>,
    depth: u32,
    receiver: Value,
    sendings: &'a [CodeSending],
) -> Result<Control<'a>, Stop>
    requires receiver { RefersWithin (length state.now.held.objects) receiver }
    requires within { ActivationWithin (length state.now.held.objects) activation.old }
    ensures goes { (model : ModelTree) (now : ℕ) →
        Goes (coming model now activation.new state.now.held units.new) result units.new
        (then_tasks model now activation.old (selectors model now (evaluated model now depth)
        (place_of activation.old.site) receiver (sendings_view sendings.now)
        (memory_of activation.old state.now.held) units.old)) }
    ensures site { activation.new.site ≡ activation.old.site }
    ensures locals { activation.new.locals ≡ activation.old.locals }
    ensures within { IfOk result (λ c. ActivationWithin
        (length state.now.held.objects) activation.new
        × ControlWithin (length state.now.held.objects) c) }
    ensures weighs { IfOk result (λ c. NoMore units.old
        (sendings_weight (sendings_view sendings.now) + tasks_weight activation.old.tasks.items)
        units.new (load c activation.new.tasks.items)) }
{
    let Some((sending, more)) = sendings.split_first() else {
        return Ok(Control::Give(receiver));
    };
    let request = Request {
        depth,
        receiver,
        selector: &sending.selector,
        arguments: Vec::new(alloc),
        more,
    };
    let request = Box::new(alloc, request)?;
    go_on_arguments(
        state,
        units,
        activation,
        request,
        arguments_of(&sending.args),
    )
}
