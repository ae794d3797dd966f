//! Methods begin, and go back to their callers.

ghost use Rattle.std.specs.Prelude.{◌≡◌, ◌<◌, ◌≤◌, ◌-◌, ◌++◌, ◌∷◌, [], ℕ, length, false, IsTrue, IfOk, OnOk, All};
ghost use Rattle.pz_classes_code.specs.pz_syntax.Classes.{ModelTree};
ghost use Rattle.pz_classes_code.specs.CodeView.{list_view};
ghost use Rattle.pz_state.specs.States.{StateView, nils};
ghost use Rattle.pz_eval_operations.specs.pz_classes.devices.Rows.{AreClasses};
ghost use Rattle.pz_eval_operations.specs.pz_eval_rules.Steps.{reply, runs};
ghost use Rattle.pz_eval_operations.specs.pz_eval_rules.devices.Computed.{and_then, replied, selectors, evaluated};
ghost use Rattle.pz_eval_operations.specs.Known.{AreKnown};
ghost use Rattle.pz_eval_operations.specs.devices.Sites.{place_of, memory_of};
ghost use Rattle.pz_eval_operations.specs.devices.Views.{sendings_view};
ghost use Rattle.pz_eval_machine.specs.devices.Tasks.{sent, then_tasks, unwound, to_come};
ghost use Rattle.pz_eval_machine.specs.devices.Steps.{Goes, root};
ghost use Rattle.pz_eval_operations.specs.devices.Within.{RequestWithin, ActivationWithin};
ghost use Rattle.pz_eval_machine.specs.devices.Within.{ControlWithin};
ghost use Rattle.pz_eval_operations.specs.declared.task.Site.TheVariants.{Object};

use crate::basis::Basis;
use crate::continuing::{add_task, go_on_list, go_on_selectors};
use crate::control::Control;
use pz_classes_code::pz_value::Value;
use pz_eval_operations::{Activation, Method, Reply, Request, Site, Stop, Task, ask, tick};
use pz_state::State;
use std::alloc::{AllocError, Global};
use std::mem;

/// Adds nils until there are so many values. The only error is want of memory.
fn fill_up(values: &mut Vec<Value>, count: u32) -> Result<(), AllocError>
    ensures { OnOk result (values.new.items ≡ values.old.items ++ nils
        (count - length values.old.items)) }
{
    while values.len() < count as usize {
        values.push(Value::Nil)?;
    }
    Ok(())
}

/// A data method of this object begins: its inputs are the arguments, and its other locals, of so many
/// in all, are nil. The only error is want of memory.
fn start_method<'a>(
    alloc: Global,
    object: u32,
    arguments: Vec<Value>,
    count: u32,
) -> Result<Activation<'a>, AllocError>
    ensures site { IfOk result (λ a. a.site ≡ Object object) }
    ensures locals { IfOk result (λ a. a.locals.items ≡ arguments.items ++ nils
        (count - length arguments.items)) }
    ensures tasks { IfOk result (λ a. a.tasks.items ≡ []) }
{
    let mut locals = arguments;
    fill_up(&mut locals, count)?;
    Ok(Activation {
        site: Site::Object(object),
        locals,
        tasks: Vec::new(alloc),
    })
}

/// The method of an object that was found begins. Its caller waits with the selectors behind the one
/// that was sent.
fn call<'a>(
    alloc: Global,
    activation: &mut Activation<'a>,
    callers: &mut Vec<Activation<'a>>,
    request: Request<'a>,
    object: u32,
    method: Method<'a>,
) -> Result<Control<'a>, Stop>
    ensures goes { (model : ModelTree) (now : ℕ) (s : StateView) (r : ℕ) → Goes
        (to_come model now callers.new.items activation.new s r) result r
        (unwound model now callers.old.items (then_tasks model now activation.old
        (and_then (replied model now (evaluated model now request.entry.depth)
        (runs object method.entry.locals (list_view method.entry.code.now))
        request.entry.arguments.items (memory_of activation.old s) r)
        (λ z. selectors model now (evaluated model now request.entry.depth)
        (place_of activation.old.site) z (sendings_view request.entry.more.now))))) }
    ensures root { OnOk result (root callers.new.items (place_of activation.new.site) ≡
        root callers.old.items (place_of activation.old.site)) }
    ensures within { IfOk result (λ c. (count : ℕ) → object < count →
        All (ActivationWithin count) callers.old.items → ActivationWithin count activation.old →
        RequestWithin count request.entry → All (ActivationWithin count) callers.new.items
        × ActivationWithin count activation.new × ControlWithin count c) }
{
    let Request {
        depth,
        receiver: _receiver,
        selector: _selector,
        arguments,
        more,
    } = request;
    let task = Task::Selectors {
        depth,
        sendings: more,
    };
    add_task(&mut activation.tasks, task)?;
    let inner = start_method(alloc, object, arguments, method.locals)?;
    callers.push(mem::replace(activation, inner))?;
    go_on_list(&mut activation.tasks, depth, Value::Nil, method.code)
}

/// A receiver does what it does with a selector: it answers, and the selectors behind go on, or a method
/// of it begins.
fn deliver<'a>(
    basis: Basis<'a>,
    state: &mut State,
    units: &mut u64,
    activation: &mut Activation<'a>,
    callers: &mut Vec<Activation<'a>>,
    request: Request<'a>,
) -> Result<Control<'a>, Stop>
    requires known { AreKnown basis.classes.now }
    requires request { RequestWithin (length state.old.held.objects) request }
    requires within { ActivationWithin (length state.old.held.objects) activation.old }
    requires callers { All (ActivationWithin (length state.old.held.objects)) callers.old.items }
    ensures goes { (model : ModelTree) → AreClasses model basis.entry.classes.now → Goes
        (to_come model basis.entry.clock callers.new.items activation.new state.new.held units.new)
        result units.new (unwound model basis.entry.clock callers.old.items
        (then_tasks model basis.entry.clock activation.old
        (and_then (replied model basis.entry.clock (evaluated model basis.entry.clock
        request.entry.depth) (reply model request.entry.receiver request.entry.selector.now
        request.entry.arguments.items (memory_of activation.old state.old.held))
        request.entry.arguments.items (memory_of activation.old state.old.held) units.old)
        (λ z. selectors model basis.entry.clock (evaluated model basis.entry.clock
        request.entry.depth) (place_of activation.old.site) z
        (sendings_view request.entry.more.now))))) }
    ensures marks { state.new.marks ≡ state.old.marks }
    ensures count { length state.new.held.objects ≡ length state.old.held.objects }
    ensures root { OnOk result (root callers.new.items (place_of activation.new.site) ≡
        root callers.old.items (place_of activation.old.site)) }
    ensures within { IfOk result (λ c. All (ActivationWithin (length state.new.held.objects))
        callers.new.items × ActivationWithin (length state.new.held.objects) activation.new
        × ControlWithin (length state.new.held.objects) c) }
    ensures units { OnOk result (units.new ≤ units.old) }
{
    match ask(basis.alloc, basis.classes, state, &request) {
        Ok(Reply::Answers(value)) => go_on_selectors(
            basis.alloc,
            state,
            units,
            activation,
            request.depth,
            value,
            request.more,
        ),
        Ok(Reply::Runs(object, method)) => {
            call(basis.alloc, activation, callers, request, object, method)
        }
        Err(stop) => Err(stop),
    }
}

/// A selector is sent to its receiver, which counts one unit.
pub(crate) fn send<'a>(
    basis: Basis<'a>,
    state: &mut State,
    units: &mut u64,
    activation: &mut Activation<'a>,
    callers: &mut Vec<Activation<'a>>,
    request: Request<'a>,
) -> Result<Control<'a>, Stop>
    requires known { AreKnown basis.classes.now }
    requires request { RequestWithin (length state.old.held.objects) request }
    requires within { ActivationWithin (length state.old.held.objects) activation.old }
    requires callers { All (ActivationWithin (length state.old.held.objects)) callers.old.items }
    ensures goes { (model : ModelTree) → AreClasses model basis.entry.classes.now → Goes
        (to_come model basis.entry.clock callers.new.items activation.new state.new.held units.new)
        result units.new (unwound model basis.entry.clock callers.old.items
        (then_tasks model basis.entry.clock activation.old
        (sent model basis.entry.clock request.entry.depth
        (place_of activation.old.site) request.entry.receiver request.entry.selector.now
        (sendings_view request.entry.more.now) request.entry.arguments.items
        (memory_of activation.old state.old.held) units.old))) }
    ensures marks { state.new.marks ≡ state.old.marks }
    ensures count { length state.new.held.objects ≡ length state.old.held.objects }
    ensures root { OnOk result (root callers.new.items (place_of activation.new.site) ≡
        root callers.old.items (place_of activation.old.site)) }
    ensures within { IfOk result (λ c. All (ActivationWithin (length state.new.held.objects))
        callers.new.items × ActivationWithin (length state.new.held.objects) activation.new
        × ControlWithin (length state.new.held.objects) c) }
    ensures counted { OnOk result (units.new < units.old) }
{
    match tick(units) {
        Ok(()) => deliver(basis, state, units, activation, callers, request),
        Err(stop) => Err(stop),
    }
}

/// Goes back to the caller; says whether there is one.
pub(crate) fn leave<'a>(activation: &mut Activation<'a>, callers: &mut Vec<Activation<'a>>) -> bool
    ensures returns { IsTrue result → callers.old.items ≡ callers.new.items ++ activation.new ∷ [] }
    ensures stays { result ≡ false → (callers.old.items ≡ []) × (callers.new.items ≡ [])
        × (activation.new ≡ activation.old) }
{
    match callers.pop() {
        Some(caller) => {
            *activation = caller;
            true
        }
        None => false,
    }
}
