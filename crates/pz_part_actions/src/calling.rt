// The call of a method. The only error is want of memory.

ghost use Rattle.std.specs.Prelude.{◌≡◌, ℕ, List, length, All, IfOk, OnOk};
ghost use Rattle.pz_classes_code.specs.pz_syntax.Classes.{ModelTree};
ghost use Rattle.pz_classes_code.specs.pz_syntax.Statements as statements;
ghost use Rattle.pz_classes_code.specs.CodeView.{list_view};
ghost use Rattle.pz_classes_code.specs.StepView.{sequence_view};
ghost use Rattle.pz_rules.specs.pz_state.References.{RefersWithin};
ghost use Rattle.pz_part_queries.specs.pz_classes.CheckedView.{checked_model};
ghost use Rattle.pz_part_queries.specs.pz_classes.devices.Rows.{AreClasses};
ghost use Rattle.pz_rules.specs.Terms as terms;
ghost use Rattle.pz_rules.specs.Methods.{IsMethod};
ghost use Rattle.pz_rules.specs.InternalActions.{entered};
ghost use Rattle.pz_rules.specs.Opening.{opened_all};
ghost use Rattle.pz_part_queries.specs.pz_eval.Known.{AreKnown};
ghost use Rattle.pz_term_around.specs.pz_part_opening.Homes.{home_view};
ghost use Rattle.pz_part_queries.specs.Standpoints.{Knows};
ghost use Rattle.pz_part_actions.specs.Becoming.{process_left, HasPerformed, IsBuiltLow};
ghost use Rattle.pz_part_actions.specs.Fitting.{FitsHere};
ghost use Rattle.pz_part_actions.specs.devices.Standing.{seen_there};
ghost use Rattle.pz_part_actions.specs.devices.Calls.{IsCallable, round_body};
ghost use Rattle.pz_part_actions.specs.devices.Openings.{OpensAs};

use crate::evaluating::evaluate_all;
use crate::opening::open_low;
use pz_classes_code::pz_items::{Items, Shared};
use pz_classes_code::pz_syntax::{Id, Pos};
use pz_classes_code::pz_value::{ClassId, Value};
use pz_classes_code::{Code, Slot, Step};
use pz_part_queries::Standpoint;
use pz_part_queries::pz_classes::{Body, Classes};
use pz_rules::Term;
use pz_rules::pz_offer::Trouble;
use pz_rules::pz_state::{FrameId, State};
use pz_term_around::pz_part_opening::Home;
use pz_term_around::{framed, set_inputs};
use std::alloc::{AllocError, Global};

/// The body of a method: how many locals it has, and its statements.
#[derive(Clone, Copy)]
struct Method<'a> {
    locals: u32,
    steps: &'a Shared<Items<Step>>,
}

/// The method of a process class with this name and these numbers of inputs and outputs.
fn find_method<'a>(
    classes: &'a Classes,
    class: ClassId,
    name: &[u8],
    inputs: usize,
    outputs: usize,
) -> Method<'a>
    requires { ∥ IsCallable classes.now class name.now inputs outputs ∥₁ }
    ensures { (m : ModelTree) → ∥ AreClasses m classes.now ∥₁ →
        IsMethod m class.0 name.now inputs outputs result.locals (sequence_view result.steps.now) }
{
    pz_rules::laws::trees_are_sets();
    let Some(method) = classes.process_method(class, name, inputs, outputs) else {
        unreachable!();
    };
    match classes.body(method) {
        Body::Process { locals, stmts } => Method {
            locals: *locals,
            steps: stmts,
        },
        Body::Data { .. } => unreachable!(),
    }
}

/// The frame of a method, round its body, which opens. A frame without outputs that is all of it stands in
/// its place.
fn round(
    alloc: Global,
    here: &Standpoint<'_>,
    home: &Home<'_>,
    pos: Pos,
    frame: FrameId,
    inputs: usize,
    results: &Shared<Items<Slot>>,
    steps: &Shared<Items<Step>>,
    state: &mut State,
) -> Result<Result<Term, Trouble>, AllocError>
    ensures opens { IfOk result (λ left. OpensAs here.now pos
        (round_body frame.0 inputs results.now
        (opened_all (home_view home.now) (sequence_view steps.now) state.old.held)) state.old
        state.new left) }
    ensures low { IfOk result (λ left. IsBuiltLow here.now left) }
    ensures marks { state.new.marks ≡ state.old.marks }
{
    match open_low(alloc, here, home, pos, steps, state)? {
        Ok(body) => {
            let results = results.copy()?;
            Ok(Ok(framed(alloc, frame, inputs, results, body)?))
        }
        Err(trouble) => Ok(Err(trouble)),
    }
}

/// A further frame, whose first locals have the values of the inputs, round the body of the method.
fn enter(
    alloc: Global,
    here: &Standpoint<'_>,
    home: &Home<'_>,
    pos: Pos,
    state: &mut State,
    method: Method<'_>,
    inputs: Items<Value>,
    results: &Shared<Items<Slot>>,
) -> Result<Result<Term, Trouble>, AllocError>
    requires { All (RefersWithin (length state.old.held.objects)) inputs }
    ensures opens { IfOk result (λ left. OpensAs here.now pos (entered (home_view home.now)
        state.old.held method.entry.locals results.now (sequence_view method.entry.steps.now)
        inputs) state.old state.new left) }
    ensures low { IfOk result (λ left. IsBuiltLow here.now left) }
    ensures marks { OnOk result (state.new.marks ≡ state.old.marks) }
{
    let count = inputs.len();
    let frame = state.open_frame(method.locals)?;
    set_inputs(state, frame, inputs.into_vec())?;
    round(
        alloc,
        here,
        home,
        pos,
        frame,
        count,
        results,
        method.steps,
        state,
    )
}

/// A call. Its arguments are evaluated in the frame of the caller, before that of the method opens.
pub(crate) fn perform_call(
    alloc: Global,
    here: &Standpoint<'_>,
    home: &Home<'_>,
    state: &mut State,
    frame: FrameId,
    pos: Pos,
    method: &Id,
    args: &[Code],
    results: &Shared<Items<Slot>>,
) -> Result<Result<Term, Trouble>, AllocError>
    requires known { AreKnown here.now.classes.now }
    requires edition { here.now.limits.edition ≡ home.now.edition }
    requires fits { ∥ FitsHere here.now home.now.class (terms.leaf
        (statements.call pos method.now (list_view args.now) results.now)) ∥₁ }
    ensures performs { Knows (checked_model home.now.checked.now) here.now →
        IfOk result (λ left. HasPerformed (seen_there here.now home.now state.old.held) frame.0
        (terms.leaf (statements.call pos method.now (list_view args.now) results.now)) pos
        (process_left state.new.held left)) }
    ensures low { IfOk result (λ left. IsBuiltLow here.now left) }
    ensures marks { OnOk result (state.new.marks ≡ state.old.marks) }
{
    let name = method.name.as_str().as_bytes();
    let outputs = results.get().len();
    let called = find_method(here.classes, home.class, name, args.len(), outputs);
    match evaluate_all(alloc, here, state, frame, pos, args)? {
        Ok(values) => enter(alloc, here, home, pos, state, called, values, results),
        Err(trouble) => Ok(Err(trouble)),
    }
}
