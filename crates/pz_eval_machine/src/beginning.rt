//! How the evaluation of an expression begins, form by form.

ghost use Rattle.std.specs.Prelude.{◌≡◌, ◌≤◌, ◌<◌, ◌+◌, ℕ, suc, List, length, IfOk, OnOk, All};
ghost use Rattle.pz_classes_code.specs.pz_syntax.Classes.{ModelTree};
ghost use Rattle.pz_classes_code.specs.CodeView.{view, form_view, list_view, part_view};
ghost use Rattle.pz_classes_code.specs.pz_value.declared.value.Value.{Value as Values};
ghost use Rattle.pz_classes_code.specs.pz_value.declared.value.Value.TheVariants.{Nil};
ghost use Rattle.pz_state.specs.References.{RefersWithin};
ghost use Rattle.pz_eval_operations.specs.pz_classes.devices.Rows.{AreClasses};
ghost use Rattle.pz_classes_code.specs.Literals as literals;
ghost use Rattle.pz_eval_operations.specs.pz_eval_rules.Memories.{Memory, Location};
ghost use Rattle.pz_eval_operations.specs.pz_eval_rules.Memories as memories;
ghost use Rattle.pz_eval_operations.specs.pz_eval_rules.Answers.{ends, gives, stops};
ghost use Rattle.pz_eval_operations.specs.pz_eval_rules.Steps.{truth, chosen};
ghost use Rattle.pz_eval_operations.specs.pz_eval_rules.Steps as steps;
ghost use Rattle.pz_eval_operations.specs.pz_eval_rules.devices.Computed.{done, and_then, tick as ticked, tested, sequence, operators, selectors, step, evaluated};
ghost use Rattle.pz_eval_operations.specs.declared.task.Task.{Task as Tasks};
ghost use Rattle.pz_eval_operations.specs.devices.Sites.{place_of, memory_at, memory_of};
ghost use Rattle.pz_eval_operations.specs.devices.Views.{links_view, sendings_view};
ghost use Rattle.pz_eval_machine.specs.devices.Tasks.{pending, meant, coming, then_tasks};
ghost use Rattle.pz_eval_machine.specs.devices.Steps.{given, Goes};
ghost use Rattle.pz_eval_operations.specs.devices.Within.{SiteWithin, TaskWithin, ActivationWithin};
ghost use Rattle.pz_eval_machine.specs.devices.Within.{ControlWithin};
ghost use Rattle.pz_eval_machine.specs.devices.Weights.{weight, links_weight, sendings_weight, tasks_weight, load, Falls};

use crate::basis::Basis;
use crate::choosing::{choose, go_on_turns};
use crate::continuing::{descend, descend_counted, go_on_list, go_on_selectors};
use crate::control::Control;
use crate::operators::go_on_operators;
use crate::resuming::assign;
use pz_classes_code::pz_items::Items;
use pz_classes_code::pz_syntax::{Literal, Pos};
use pz_classes_code::pz_value::{ClassId, Value};
use pz_classes_code::{Code, CodeForm, CodeLink, CodeSending, Slot, constant};
use pz_eval_operations::pz_classes::Classes;
use pz_eval_operations::{
    Activation, Site, Stop, Task, at_once, create, read, self_at, tick, time,
};
use pz_state::State;
use std::alloc::Global;

/// A constant counts one unit.
fn give_constant<'a>(alloc: Global, units: &mut u64, literal: &Literal) -> Result<Control<'a>, Stop>
    ensures goes { (model : ModelTree) (now : ℕ) (p : Location) (ks : List Tasks) (m : Memory) →
        Goes (λ c. meant model now p ks c m units.new) result units.new
        (and_then (ticked (λ m1 r1. done (gives (literals.constant literal.now) m1) r1) m units.old)
        (pending model now p ks)) }
    ensures within { (count : ℕ) → IfOk result (ControlWithin count) }
    ensures counted { OnOk result (units.new < units.old) }
{
    tick(units)?;
    Ok(Control::Give(constant(alloc, literal)?))
}

/// A variable counts one unit.
fn give_variable<'a>(
    state: &State,
    units: &mut u64,
    site: Site,
    locals: &[Value],
    slot: Slot,
) -> Result<Control<'a>, Stop>
    requires { All (RefersWithin (length state.now.held.objects)) locals.now }
    ensures goes { (model : ModelTree) (now : ℕ) (ks : List Tasks) →
        Goes (λ c. meant model now (place_of site) ks c
        (memory_at site state.now.held locals.now) units.new) result units.new
        (and_then (ticked (λ m1 r1. done (gives (memories.read (place_of site) slot m1) m1) r1)
        (memory_at site state.now.held locals.now) units.old)
        (pending model now (place_of site) ks)) }
    ensures within { IfOk result (ControlWithin (length state.now.held.objects)) }
    ensures counted { OnOk result (units.new < units.old) }
{
    tick(units)?;
    Ok(Control::Give(read(state, site, locals, slot)?))
}

/// `self` counts one unit; outside data methods it is nil.
fn give_self<'a>(units: &mut u64, site: Site) -> Result<Control<'a>, Stop>
    ensures goes { (model : ModelTree) (now : ℕ) (ks : List Tasks) (m : Memory) →
        Goes (λ c. meant model now (place_of site) ks c m units.new) result units.new
        (and_then (ticked (λ m1 r1. done (gives (memories.self_at (place_of site)) m1) r1) m
        units.old) (pending model now (place_of site) ks)) }
    ensures within { (count : ℕ) → SiteWithin count site → IfOk result (ControlWithin count) }
    ensures counted { OnOk result (units.new < units.old) }
{
    tick(units)?;
    Ok(Control::Give(self_at(site)))
}

/// The time counts one unit.
fn give_time<'a>(clock: u128, units: &mut u64, at: Pos) -> Result<Control<'a>, Stop>
    ensures goes { (model : ModelTree) (now : ℕ) (p : Location) (ks : List Tasks) (m : Memory) →
        Goes (λ c. meant model now p ks c m units.new) result units.new
        (and_then (ticked (λ m1 r1. done (steps.time clock at m1) r1) m units.old)
        (pending model now p ks)) }
    ensures within { (count : ℕ) → IfOk result (ControlWithin count) }
    ensures counted { OnOk result (units.new < units.old) }
{
    tick(units)?;
    Ok(Control::Give(time(clock, at)?))
}

/// A value is given, if there is one.
pub(crate) fn give<'a>(value: Result<Value, Stop>) -> Result<Control<'a>, Stop>
    ensures { result ≡ given value }
{
    match value {
        Ok(value) => Ok(Control::Give(value)),
        Err(stop) => Err(stop),
    }
}

/// A new object counts one unit.
fn give_new<'a>(
    classes: &Classes,
    state: &mut State,
    units: &mut u64,
    class: ClassId,
    at: Pos,
) -> Result<Control<'a>, Stop>
    ensures goes { (model : ModelTree) (now : ℕ) (p : Location) (ks : List Tasks)
        (locals : List Values) → AreClasses model classes.now →
        Goes (λ c. meant model now p ks c (record { state = state.new.held; locals = locals })
        units.new) result units.new (and_then (ticked
        (λ m1 r1. done (steps.created model class at m1) r1)
        (record { state = state.old.held; locals = locals }) units.old) (pending model now p ks)) }
    ensures marks { state.new.marks ≡ state.old.marks }
    ensures count { length state.old.held.objects ≤ length state.new.held.objects }
    ensures within { IfOk result (ControlWithin (length state.new.held.objects)) }
    ensures counted { OnOk result (units.new < units.old) }
{
    tick(units)?;
    give(create(classes, state, class, at))
}

/// A bracketed list counts one unit.
fn begin_group<'a>(
    units: &mut u64,
    tasks: &mut Vec<Task<'a>>,
    depth: u32,
    codes: &'a [Code],
) -> Result<Control<'a>, Stop>
    ensures goes { (model : ModelTree) (now : ℕ) (p : Location) (m : Memory) →
        Goes (λ c. meant model now p tasks.new.items c m units.new) result units.new
        (and_then (ticked (sequence model now (evaluated model now depth) p Nil
        (list_view codes.now)) m units.old) (pending model now p tasks.old.items)) }
    ensures within { IfOk result (λ c. (count : ℕ) → All (TaskWithin count) tasks.old.items →
        All (TaskWithin count) tasks.new.items × ControlWithin count c) }
    ensures counted { OnOk result (units.new < units.old) }
{
    tick(units)?;
    go_on_list(tasks, depth, Value::Nil, codes)
}

/// A chain of operators begins with its first operand.
fn begin_chain<'a>(
    alloc: Global,
    state: &mut State,
    units: &mut u64,
    activation: &mut Activation<'a>,
    depth: u32,
    first: &'a Code,
    links: &'a [CodeLink],
) -> Result<Control<'a>, Stop>
    requires { ActivationWithin (length state.old.held.objects) activation.old }
    ensures goes { (model : ModelTree) (now : ℕ) →
        Goes (coming model now activation.new state.new.held units.new) result units.new
        (then_tasks model now activation.old (and_then
        (evaluated model now depth (place_of activation.old.site) (view first.now)
        (memory_of activation.old state.old.held) units.old)
        (λ y. operators model now (evaluated model now depth) (place_of activation.old.site) y
        (links_view links.now)))) }
    ensures marks { state.new.marks ≡ state.old.marks }
    ensures count { length state.new.held.objects ≡ length state.old.held.objects }
    ensures site { activation.new.site ≡ activation.old.site }
    ensures locals { activation.new.locals ≡ activation.old.locals }
    ensures within { IfOk result (λ c. ActivationWithin
        (length state.new.held.objects) activation.new
        × ControlWithin (length state.new.held.objects) c) }
    ensures falls { IfOk result (λ c. Falls units.old
        (suc (weight (view first.now) + suc (links_weight (links_view links.now))) + tasks_weight
        activation.old.tasks.items) units.new (load c activation.new.tasks.items)) }
{
    match at_once(state, units, activation, depth, first) {
        Some(left) => go_on_operators(alloc, state, units, activation, depth, left, links),
        None => descend(
            &mut activation.tasks,
            depth,
            first,
            Task::Operators { depth, links },
        ),
    }
}

/// Selectors begin with their receiver.
fn begin_sends<'a>(
    alloc: Global,
    state: &State,
    units: &mut u64,
    activation: &mut Activation<'a>,
    depth: u32,
    first: &'a Code,
    sendings: &'a [CodeSending],
) -> Result<Control<'a>, Stop>
    requires { ActivationWithin (length state.now.held.objects) activation.old }
    ensures goes { (model : ModelTree) (now : ℕ) →
        Goes (coming model now activation.new state.now.held units.new) result units.new
        (then_tasks model now activation.old (and_then
        (evaluated model now depth (place_of activation.old.site) (view first.now)
        (memory_of activation.old state.now.held) units.old)
        (λ y. selectors model now (evaluated model now depth) (place_of activation.old.site) y
        (sendings_view sendings.now)))) }
    ensures site { activation.new.site ≡ activation.old.site }
    ensures locals { activation.new.locals ≡ activation.old.locals }
    ensures within { IfOk result (λ c. ActivationWithin
        (length state.now.held.objects) activation.new
        × ControlWithin (length state.now.held.objects) c) }
    ensures falls { IfOk result (λ c. Falls units.old
        (suc (weight (view first.now) + suc (sendings_weight (sendings_view sendings.now)))
        + tasks_weight activation.old.tasks.items) units.new (load c activation.new.tasks.items)) }
{
    match at_once(state, units, activation, depth, first) {
        Some(receiver) => {
            go_on_selectors(alloc, state, units, activation, depth, receiver, sendings)
        }
        None => descend(
            &mut activation.tasks,
            depth,
            first,
            Task::Selectors { depth, sendings },
        ),
    }
}

/// An assignment counts one unit.
fn begin_assign<'a>(
    state: &mut State,
    units: &mut u64,
    activation: &mut Activation<'a>,
    depth: u32,
    slot: Slot,
    code: &'a Code,
) -> Result<Control<'a>, Stop>
    requires { ActivationWithin (length state.old.held.objects) activation.old }
    ensures goes { (model : ModelTree) (now : ℕ) →
        Goes (coming model now activation.new state.new.held units.new) result units.new
        (then_tasks model now activation.old (ticked
        (λ m r. and_then (evaluated model now depth (place_of activation.old.site)
        (view code.now) m r) (λ y m1 r1. done (gives y
        (memories.write (place_of activation.old.site) slot y m1)) r1))
        (memory_of activation.old state.old.held) units.old)) }
    ensures marks { state.new.marks ≡ state.old.marks }
    ensures count { length state.new.held.objects ≡ length state.old.held.objects }
    ensures site { activation.new.site ≡ activation.old.site }
    ensures within { IfOk result (λ c. ActivationWithin
        (length state.new.held.objects) activation.new
        × ControlWithin (length state.new.held.objects) c) }
    ensures counted { OnOk result (units.new < units.old) }
{
    tick(units)?;
    match at_once(state, units, activation, depth, code) {
        Some(value) => assign(state, activation, slot, value),
        None => descend(&mut activation.tasks, depth, code, Task::Assign { slot }),
    }
}

/// A `return` counts one unit.
fn begin_return<'a>(
    state: &State,
    units: &mut u64,
    activation: &mut Activation<'a>,
    depth: u32,
    code: &'a Code,
) -> Result<Control<'a>, Stop>
    requires { ActivationWithin (length state.now.held.objects) activation.old }
    ensures goes { (model : ModelTree) (now : ℕ) →
        Goes (coming model now activation.new state.now.held units.new) result units.new
        (then_tasks model now activation.old (ticked
        (λ m r. and_then (evaluated model now depth (place_of activation.old.site)
        (view code.now) m r) (λ y m1 r1. done (stops (ends y m1)) r1))
        (memory_of activation.old state.now.held) units.old)) }
    ensures site { activation.new.site ≡ activation.old.site }
    ensures locals { activation.new.locals ≡ activation.old.locals }
    ensures within { IfOk result (λ c. ActivationWithin
        (length state.now.held.objects) activation.new
        × ControlWithin (length state.now.held.objects) c) }
    ensures counted { OnOk result (units.new < units.old) }
{
    tick(units)?;
    match at_once(state, units, activation, depth, code) {
        Some(value) => Ok(Control::Leave(value)),
        None => descend(&mut activation.tasks, depth, code, Task::Return),
    }
}

/// An `if` counts one unit.
fn begin_if<'a>(
    state: &State,
    units: &mut u64,
    activation: &mut Activation<'a>,
    depth: u32,
    at: Pos,
    test: &'a Code,
    part: &'a [Code],
    other: &'a Option<Items<Code>>,
) -> Result<Control<'a>, Stop>
    requires { ActivationWithin (length state.now.held.objects) activation.old }
    ensures goes { (model : ModelTree) (now : ℕ) →
        Goes (coming model now activation.new state.now.held units.new) result units.new
        (then_tasks model now activation.old (ticked
        (λ m r. and_then (evaluated model now depth (place_of activation.old.site)
        (view test.now) m r) (λ y. tested at (truth y)
        (λ b. sequence model now (evaluated model now depth) (place_of activation.old.site) Nil
        (chosen b (list_view part.now) (part_view other.now)))))
        (memory_of activation.old state.now.held) units.old)) }
    ensures site { activation.new.site ≡ activation.old.site }
    ensures locals { activation.new.locals ≡ activation.old.locals }
    ensures within { IfOk result (λ c. ActivationWithin
        (length state.now.held.objects) activation.new
        × ControlWithin (length state.now.held.objects) c) }
    ensures counted { OnOk result (units.new < units.old) }
{
    tick(units)?;
    match at_once(state, units, activation, depth, test) {
        Some(value) => choose(&mut activation.tasks, depth, at, part, other, value),
        None => descend(
            &mut activation.tasks,
            depth,
            test,
            Task::If {
                depth,
                at,
                part,
                other,
            },
        ),
    }
}

/// The evaluation of a form at this place begins, whose parts may stand so deep.
fn begin_form<'a>(
    basis: Basis<'a>,
    state: &mut State,
    units: &mut u64,
    activation: &mut Activation<'a>,
    depth: u32,
    at: Pos,
    form: &'a CodeForm,
) -> Result<Control<'a>, Stop>
    requires { ActivationWithin (length state.old.held.objects) activation.old }
    ensures goes { (model : ModelTree) → AreClasses model basis.entry.classes.now → Goes
        (coming model basis.entry.clock activation.new state.new.held units.new) result units.new
        (then_tasks model basis.entry.clock activation.old
        (step model basis.entry.clock (evaluated model basis.entry.clock depth)
        (place_of activation.old.site) (form_view form.now at)
        (memory_of activation.old state.old.held) units.old)) }
    ensures marks { state.new.marks ≡ state.old.marks }
    ensures count { length state.old.held.objects ≤ length state.new.held.objects }
    ensures site { activation.new.site ≡ activation.old.site }
    ensures within { IfOk result (λ c. ActivationWithin
        (length state.new.held.objects) activation.new
        × ControlWithin (length state.new.held.objects) c) }
    ensures falls { IfOk result (λ c. Falls units.old
        (weight (form_view form.now at) + tasks_weight activation.old.tasks.items) units.new
        (load c activation.new.tasks.items)) }
{
    match form {
        CodeForm::Lit(literal) => give_constant(basis.alloc, units, literal),
        CodeForm::Var(slot) => {
            give_variable(
                state,
                units,
                activation.site,
                activation.locals.as_slice(),
                *slot,
            )
        }
        CodeForm::Me => give_self(units, activation.site),
        CodeForm::Clock => give_time(basis.clock, units, at),
        CodeForm::New(class) => give_new(basis.classes, state, units, *class, at),
        CodeForm::Group(codes) => begin_group(
            units,
            &mut activation.tasks,
            depth,
            codes.as_slice(),
        ),
        CodeForm::Chain(first, links) => begin_chain(
            basis.alloc,
            state,
            units,
            activation,
            depth,
            first.get(),
            links.as_slice(),
        ),
        CodeForm::Sends(first, sendings) => begin_sends(
            basis.alloc,
            state,
            units,
            activation,
            depth,
            first.get(),
            sendings.as_slice(),
        ),
        CodeForm::Unary(op, operand) => {
            let task = Task::Unary { op: *op, at };
            descend_counted(units, &mut activation.tasks, depth, operand.get(), task)
        }
        CodeForm::Assign(slot, value) => {
            begin_assign(state, units, activation, depth, *slot, value.get())
        }
        CodeForm::Return(value) => begin_return(state, units, activation, depth, value.get()),
        CodeForm::If(test, part, other) => begin_if(
            state,
            units,
            activation,
            depth,
            at,
            test.get(),
            part.get().as_slice(),
            other.get(),
        ),
        CodeForm::While(test, body) => go_on_turns(
            state,
            units,
            activation,
            depth,
            at,
            test.get(),
            body.as_slice(),
        ),
    }
}

/// The evaluation of an expression begins, which may stand so deep.
pub(crate) fn begin<'a>(
    basis: Basis<'a>,
    state: &mut State,
    units: &mut u64,
    activation: &mut Activation<'a>,
    depth: u32,
    code: &'a Code,
) -> Result<Control<'a>, Stop>
    requires { ActivationWithin (length state.old.held.objects) activation.old }
    ensures goes { (model : ModelTree) → AreClasses model basis.entry.classes.now → Goes
        (coming model basis.entry.clock activation.new state.new.held units.new) result units.new
        (then_tasks model basis.entry.clock activation.old
        (evaluated model basis.entry.clock depth (place_of activation.old.site) (view code.now)
        (memory_of activation.old state.old.held) units.old)) }
    ensures marks { state.new.marks ≡ state.old.marks }
    ensures count { length state.old.held.objects ≤ length state.new.held.objects }
    ensures site { activation.new.site ≡ activation.old.site }
    ensures within { IfOk result (λ c. ActivationWithin
        (length state.new.held.objects) activation.new
        × ControlWithin (length state.new.held.objects) c) }
    ensures falls { IfOk result (λ c. Falls units.old
        (weight (view code.now) + tasks_weight activation.old.tasks.items) units.new
        (load c activation.new.tasks.items)) }
{
    if depth == 0 {
        return Err(Stop::Spent);
    }
    begin_form(
        basis,
        state,
        units,
        activation,
        depth - 1,
        code.pos,
        &code.form,
    )
}
