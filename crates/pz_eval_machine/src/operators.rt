//! How operators go on.

ghost use Rattle.std.specs.Prelude.{◌≡◌, ◌+◌, ◌<◌, ℕ, List, length, IfOk, OnOk, All};
ghost use Rattle.pz_classes_code.specs.pz_syntax.Classes.{ModelTree};
ghost use Rattle.pz_classes_code.specs.pz_value.declared.value.Value.{Value as Values};
ghost use Rattle.pz_state.specs.References.{RefersWithin};
ghost use Rattle.pz_eval_operations.specs.pz_eval_rules.Memories.{Memory, Location};
ghost use Rattle.pz_eval_operations.specs.pz_eval_rules.Steps.{applied};
ghost use Rattle.pz_eval_operations.specs.pz_eval_rules.devices.Computed.{and_then, follow, tick as ticked, operators, evaluated};
ghost use Rattle.pz_eval_operations.specs.devices.Sites.{place_of, memory_of};
ghost use Rattle.pz_eval_operations.specs.devices.Views.{links_view};
ghost use Rattle.pz_eval_machine.specs.devices.Tasks.{pending, meant, coming, then_tasks};
ghost use Rattle.pz_eval_machine.specs.devices.Steps.{Goes};
ghost use Rattle.pz_eval_operations.specs.devices.Within.{TaskWithin, ActivationWithin};
ghost use Rattle.pz_eval_machine.specs.devices.Within.{ControlWithin};
ghost use Rattle.pz_eval_machine.specs.devices.Weights.{links_weight, tasks_weight, load, NoMore};

use crate::continuing::{add_task, descend};
use crate::control::Control;
use pz_classes_code::CodeLink;
use pz_classes_code::pz_value::Value;
use pz_eval_operations::{Activation, Stop, Task, apply_counted, at_once};
use pz_state::State;
use std::alloc::Global;

/// The operators behind one that gave this value are left to do.
fn more_operators<'a>(
    tasks: &mut Vec<Task<'a>>,
    depth: u32,
    value: Value,
    links: &'a [CodeLink],
) -> Result<Control<'a>, Stop>
    ensures goes { (model : ModelTree) (now : ℕ) (p : Location) (m : Memory) (r : ℕ) →
        Goes (λ c. meant model now p tasks.new.items c m r) result r
        (and_then (operators model now (evaluated model now depth) p value
        (links_view links.now) m r) (pending model now p tasks.old.items)) }
    ensures within { IfOk result (λ c. (count : ℕ) → RefersWithin count value →
        All (TaskWithin count) tasks.old.items → All (TaskWithin count) tasks.new.items
        × ControlWithin count c) }
{
    if links.is_empty() {
        return Ok(Control::Give(value));
    }
    add_task(tasks, Task::Operators { depth, links })?;
    Ok(Control::Give(value))
}

/// An operator is applied, which counts one unit, and then those behind it.
pub(crate) fn operate<'a>(
    alloc: Global,
    state: &mut State,
    units: &mut u64,
    tasks: &mut Vec<Task<'a>>,
    depth: u32,
    left: Value,
    link: &CodeLink,
    right: Value,
    rest: &'a [CodeLink],
) -> Result<Control<'a>, Stop>
    requires left { RefersWithin (length state.old.held.objects) left }
    requires right { RefersWithin (length state.old.held.objects) right }
    ensures goes { (model : ModelTree) (now : ℕ) (p : Location) (locals : List Values) →
        Goes (λ c. meant model now p tasks.new.items c
        (record { state = state.new.held; locals = locals }) units.new) result units.new
        (and_then (ticked (λ m r. follow (applied link.now.op link.now.pos left right m) r
        (λ z. operators model now (evaluated model now depth) p z (links_view rest.now)))
        (record { state = state.old.held; locals = locals }) units.old)
        (pending model now p tasks.old.items)) }
    ensures marks { state.new.marks ≡ state.old.marks }
    ensures count { length state.new.held.objects ≡ length state.old.held.objects }
    ensures within { IfOk result (λ c. All (TaskWithin (length state.old.held.objects))
        tasks.old.items → All (TaskWithin (length state.new.held.objects)) tasks.new.items
        × ControlWithin (length state.new.held.objects) c) }
    ensures counted { OnOk result (units.new < units.old) }
{
    match apply_counted(alloc, state, units, link.op, link.pos, &left, right) {
        Ok(value) => more_operators(tasks, depth, value, rest),
        Err(stop) => Err(stop),
    }
}

/// Operators go on after their left operand.
pub(crate) fn go_on_operators<'a>(
    alloc: Global,
    state: &mut State,
    units: &mut u64,
    activation: &mut Activation<'a>,
    depth: u32,
    left: Value,
    links: &'a [CodeLink],
) -> Result<Control<'a>, Stop>
    requires left { RefersWithin (length state.old.held.objects) left }
    requires within { ActivationWithin (length state.old.held.objects) activation.old }
    ensures goes { (model : ModelTree) (now : ℕ) →
        Goes (coming model now activation.new state.new.held units.new) result units.new
        (then_tasks model now activation.old (operators model now (evaluated model now depth)
        (place_of activation.old.site) left (links_view links.now)
        (memory_of activation.old state.old.held) units.old)) }
    ensures marks { state.new.marks ≡ state.old.marks }
    ensures count { length state.new.held.objects ≡ length state.old.held.objects }
    ensures site { activation.new.site ≡ activation.old.site }
    ensures locals { activation.new.locals ≡ activation.old.locals }
    ensures within { IfOk result (λ c. ActivationWithin
        (length state.new.held.objects) activation.new
        × ControlWithin (length state.new.held.objects) c) }
    ensures weighs { IfOk result (λ c. NoMore units.old
        (links_weight (links_view links.now) + tasks_weight activation.old.tasks.items) units.new
        (load c activation.new.tasks.items)) }
{
    let Some((link, rest)) = links.split_first() else {
        return Ok(Control::Give(left));
    };
    match at_once(state, units, activation, depth, &link.operand) {
        Some(right) => {
            let tasks = &mut activation.tasks;
            operate(alloc, state, units, tasks, depth, left, link, right, rest)
        }
        None => descend(
            &mut activation.tasks,
            depth,
            &link.operand,
            Task::Operand {
                depth,
                left,
                link,
                rest,
            },
        ),
    }
}
