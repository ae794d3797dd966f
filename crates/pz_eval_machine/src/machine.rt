//! The evaluation of an expression, step by step. What is to be done later stands in the tasks of the
//! methods that run, so that neither expressions nor calls are followed by calls of this code.

ghost use Rattle.std.specs.Prelude.{◌≡◌, ◌≤◌, ◌<◌, ℕ, [], length, IfOk, OnOk, All};
ghost use Rattle.pz_classes_code.specs.pz_syntax.Classes.{ModelTree};
ghost use Rattle.pz_classes_code.specs.CodeView.{view};
ghost use Rattle.pz_state.specs.States.{StateView};
ghost use Rattle.pz_state.specs.References.{RefersWithin};
ghost use Rattle.pz_eval_operations.specs.pz_classes.devices.Rows.{AreClasses};
ghost use Rattle.pz_eval_operations.specs.pz_eval_rules.Memories.{in_process};
ghost use Rattle.pz_eval_operations.specs.pz_eval_rules.Outcomes.{outside};
ghost use Rattle.pz_eval_operations.specs.pz_eval_rules.Answers.{ends, gives, stops};
ghost use Rattle.pz_eval_operations.specs.pz_eval_rules.devices.Computed.{done, evaluated};
ghost use Rattle.pz_eval_operations.specs.Known.{AreKnown};
ghost use Rattle.pz_eval_operations.specs.devices.Sites.{place_of, memory_of};
ghost use Rattle.pz_eval_machine.specs.devices.Tasks.{unwound, coming, to_come};
ghost use Rattle.pz_eval_machine.specs.devices.Steps.{went_on, Progresses, Advances, Finishes, OnOver, root};
ghost use Rattle.pz_eval_machine.specs.devices.Within.{ControlWithin, FinishWithin, ProgressWithin};
ghost use Rattle.pz_eval_operations.specs.devices.Within.{ActivationWithin};
ghost use Rattle.pz_eval_machine.specs.devices.Weights.{callers_weight, total, Falls, WhileOn};

use crate::basis::Basis;
use crate::beginning::begin;
use crate::calling::{leave, send};
use crate::control::{Control, Finish, Progress};
use crate::resuming::resume;
use pz_classes_code::Code;
use pz_classes_code::pz_value::Value;
use pz_eval_operations::{Activation, Site, Stop};
use pz_state::{FrameId, State};

/// A value of a method that runs goes to its caller; where there is none, the evaluation is over.
fn give_back<'a>(
    activation: &mut Activation<'a>,
    callers: &mut Vec<Activation<'a>>,
    value: Value,
) -> Progress<'a>
    ensures goes { (model : ModelTree) (now : ℕ) (s : StateView) (r : ℕ) → Progresses
        (to_come model now callers.new.items activation.new s r) result
        (memory_of activation.new s) r (unwound model now callers.old.items
        (done (gives value (memory_of activation.old s)) r)) }
    ensures root { root callers.new.items (place_of activation.new.site) ≡ root callers.old.items
        (place_of activation.old.site) }
    ensures bottom { OnOver (callers.new.items ≡ []) result }
    ensures within { (count : ℕ) → RefersWithin count value →
        All (ActivationWithin count) callers.old.items → ActivationWithin count activation.old →
        All (ActivationWithin count) callers.new.items × ActivationWithin count activation.new
        × ProgressWithin count result }
    ensures lighter { WhileOn (λ c. total c activation.new callers.new.items <
        callers_weight callers.old.items) result }
{
    if leave(activation, callers) {
        return Progress::On(Control::Give(value));
    }
    Progress::Over(Finish::Value(value))
}

/// The result of a method goes to its caller; where there is none, the evaluation is over.
fn give_result<'a>(
    activation: &mut Activation<'a>,
    callers: &mut Vec<Activation<'a>>,
    value: Value,
) -> Progress<'a>
    ensures goes { (model : ModelTree) (now : ℕ) (s : StateView) (r : ℕ) → Progresses
        (to_come model now callers.new.items activation.new s r) result
        (memory_of activation.new s) r (unwound model now callers.old.items
        (done (stops (ends value (memory_of activation.old s))) r)) }
    ensures root { root callers.new.items (place_of activation.new.site) ≡ root callers.old.items
        (place_of activation.old.site) }
    ensures bottom { OnOver (callers.new.items ≡ []) result }
    ensures within { (count : ℕ) → RefersWithin count value →
        All (ActivationWithin count) callers.old.items → ActivationWithin count activation.old →
        All (ActivationWithin count) callers.new.items × ActivationWithin count activation.new
        × ProgressWithin count result }
    ensures lighter { WhileOn (λ c. total c activation.new callers.new.items <
        callers_weight callers.old.items) result }
{
    if leave(activation, callers) {
        return Progress::On(Control::Give(value));
    }
    Progress::Over(Finish::Return(value))
}

/// The evaluation goes on.
fn on<'a>(control: Result<Control<'a>, Stop>) -> Result<Progress<'a>, Stop>
    ensures { result ≡ went_on control.entry }
{
    match control {
        Ok(control) => Ok(Progress::On(control)),
        Err(stop) => Err(stop),
    }
}

/// One step. It says what is done next, or with what the evaluation ends.
fn advance<'a>(
    basis: Basis<'a>,
    state: &mut State,
    units: &mut u64,
    activation: &mut Activation<'a>,
    callers: &mut Vec<Activation<'a>>,
    control: Control<'a>,
) -> Result<Progress<'a>, Stop>
    requires known { AreKnown basis.classes.now }
    requires control { ControlWithin (length state.old.held.objects) control }
    requires within { ActivationWithin (length state.old.held.objects) activation.old }
    requires callers { All (ActivationWithin (length state.old.held.objects)) callers.old.items }
    ensures goes { (model : ModelTree) → AreClasses model basis.entry.classes.now → Advances
        (to_come model basis.entry.clock callers.new.items activation.new state.new.held units.new)
        result (memory_of activation.new state.new.held) units.new
        (to_come model basis.entry.clock callers.old.items activation.old state.old.held units.old
        control.entry) }
    ensures marks { state.new.marks ≡ state.old.marks }
    ensures count { length state.old.held.objects ≤ length state.new.held.objects }
    ensures root { OnOk result (root callers.new.items (place_of activation.new.site) ≡
        root callers.old.items (place_of activation.old.site)) }
    ensures bottom { IfOk result (OnOver (callers.new.items ≡ [])) }
    ensures within { IfOk result (λ p. All (ActivationWithin (length state.new.held.objects))
        callers.new.items × ActivationWithin (length state.new.held.objects) activation.new
        × ProgressWithin (length state.new.held.objects) p) }
    ensures falls { IfOk result (WhileOn (λ c. Falls units.old
        (total control.entry activation.old callers.old.items) units.new
        (total c activation.new callers.new.items))) }
{
    match control {
        Control::Evaluate { depth, code } => {
            on(begin(basis, state, units, activation, depth, code))
        }
        Control::Give(value) => match activation.tasks.pop() {
            Some(task) => on(resume(basis, state, units, activation, task, value)),
            None => Ok(give_back(activation, callers, value)),
        },
        Control::Send(request) => {
            let request = Box::into_inner(request);
            on(send(basis, state, units, activation, callers, request))
        }
        Control::Leave(value) => Ok(give_result(activation, callers, value)),
    }
}

/// Steps until a unit has been counted or the evaluation is over. What can be done before that becomes
/// less with each step.
fn count_one<'a>(
    basis: Basis<'a>,
    state: &mut State,
    units: &mut u64,
    activation: &mut Activation<'a>,
    callers: &mut Vec<Activation<'a>>,
    first: Control<'a>,
) -> Result<Progress<'a>, Stop>
    requires known { AreKnown basis.classes.now }
    requires control { ControlWithin (length state.old.held.objects) first }
    requires within { ActivationWithin (length state.old.held.objects) activation.old }
    requires callers { All (ActivationWithin (length state.old.held.objects)) callers.old.items }
    ensures goes { (model : ModelTree) → AreClasses model basis.entry.classes.now → Advances
        (to_come model basis.entry.clock callers.new.items activation.new state.new.held units.new)
        result (memory_of activation.new state.new.held) units.new
        (to_come model basis.entry.clock callers.old.items activation.old state.old.held units.old
        first.entry) }
    ensures marks { state.new.marks ≡ state.old.marks }
    ensures count { length state.old.held.objects ≤ length state.new.held.objects }
    ensures root { OnOk result (root callers.new.items (place_of activation.new.site) ≡
        root callers.old.items (place_of activation.old.site)) }
    ensures bottom { IfOk result (OnOver (callers.new.items ≡ [])) }
    ensures within { IfOk result (λ p. All (ActivationWithin (length state.new.held.objects))
        callers.new.items × ActivationWithin (length state.new.held.objects) activation.new
        × ProgressWithin (length state.new.held.objects) p) }
    ensures counted { IfOk result (WhileOn (λ _. units.new < units.old)) }
{
    let before = *units;
    let mut control = first;
    'steps: loop {
        match advance(basis, state, units, activation, callers, control) {
            Ok(Progress::On(next)) => {
                if *units < before {
                    return Ok(Progress::On(next));
                }
                control = next;
            }
            Ok(Progress::Over(finish)) => return Ok(Progress::Over(finish)),
            Err(stop) => return Err(stop),
        }
    }
}

/// Steps until the evaluation is over, which the units bound.
fn run<'a>(
    basis: Basis<'a>,
    state: &mut State,
    units: &mut u64,
    activation: &mut Activation<'a>,
    callers: &mut Vec<Activation<'a>>,
    first: Control<'a>,
) -> Result<Finish, Stop>
    requires known { AreKnown basis.classes.now }
    requires control { ControlWithin (length state.old.held.objects) first }
    requires within { ActivationWithin (length state.old.held.objects) activation.old }
    requires callers { callers.old.items ≡ [] }
    ensures goes { (model : ModelTree) → AreClasses model basis.entry.classes.now → Finishes result
        (memory_of activation.new state.new.held) units.new
        (coming model basis.entry.clock activation.old state.old.held units.old first.entry) }
    ensures marks { state.new.marks ≡ state.old.marks }
    ensures count { length state.old.held.objects ≤ length state.new.held.objects }
    ensures place { OnOk result (place_of activation.new.site ≡ place_of activation.old.site) }
    ensures within { IfOk result (FinishWithin (length state.new.held.objects)) }
{
    let mut control = first;
    'units: loop {
        match count_one(basis, state, units, activation, callers, control) {
            Ok(Progress::On(next)) => control = next,
            Ok(Progress::Over(finish)) => return Ok(finish),
            Err(stop) => return Err(stop),
        }
    }
}

/// Evaluates an expression of a method of the process whose locals are those of this frame. Units are
/// counted down; effects stay, whatever comes of it.
pub fn evaluate(
    basis: Basis<'_>,
    state: &mut State,
    units: &mut u64,
    frame: FrameId,
    depth: u32,
    code: &Code,
) -> Result<Finish, Stop>
    requires { AreKnown basis.classes.now }
    ensures goes { (model : ModelTree) → AreClasses model basis.entry.classes.now →
        Finishes result (outside state.new.held) units.new
        (evaluated model basis.entry.clock depth (in_process frame.0) (view code.now)
        (outside state.old.held) units.old) }
    ensures marks { state.new.marks ≡ state.old.marks }
    ensures count { length state.old.held.objects ≤ length state.new.held.objects }
    ensures within { IfOk result (FinishWithin (length state.new.held.objects)) }
{
    let mut activation = Activation {
        site: Site::Process(frame),
        locals: Vec::new(basis.alloc),
        tasks: Vec::new(basis.alloc),
    };
    let mut callers = Vec::new(basis.alloc);
    let first = Control::Evaluate { depth, code };
    run(basis, state, units, &mut activation, &mut callers, first)
}
