// What a node says when it is asked: what it adds by itself, and the clock behind its gate.

ghost use Rattle.std.specs.Prelude.{◌≡◌, ◌<◌, ◌^◌, ℕ, IsTrue, IfOk, true};
ghost use Rattle.pz_classes_code.specs.pz_syntax.Classes.{ModelTree};
ghost use Rattle.pz_classes_code.specs.StepView.{view};
ghost use Rattle.pz_clock.specs.Shifts.{IsReached, ShiftFits};
ghost use Rattle.pz_part_queries.specs.pz_eval.Known.{AreKnown};
ghost use Rattle.pz_part_queries.specs.Standpoints.{Knows, seen_from};
ghost use Rattle.pz_tree_nodes.specs.pz_tree_standing.Asked.{statement_asks};
ghost use Rattle.pz_tree_nodes.specs.Keeping.{kept_none};
ghost use Rattle.pz_tree_nodes.specs.View.{head_view};
ghost use Rattle.pz_tree_nodes.specs.pz_tree_standing.Soon.{HasRoom};
ghost use Rattle.pz_tree_refreshing.specs.devices.Asked as device;
ghost use Rattle.pz_tree_refreshing.specs.devices.Asked.{IsGated, IsAnswer, SaysItself, DelaySays, kept_of_send, AskRule};

use crate::Spot;
use pz_classes_code::pz_items::Shared;
use pz_classes_code::pz_syntax::Pos;
use pz_classes_code::{Code, Step, StepForm};
use pz_clock::Shift;
use pz_copy::Parcel;
use pz_offer::{Summary, Trouble};
use pz_part_queries::{Standpoint, ask_parcel, ask_test, ask_time};
use pz_state::State;
use pz_tree_nodes::pz_tree_standing::pz_rules;
use pz_tree_nodes::{Head, Kept, What, names_clock, part_names_clock};
use std::alloc::{AllocError, Global};

// ------------------------------------------------------------ guards

/// Whether the clock around a local clock has come as far as that needs.
fn is_reached(shift: &Shift, clock: u128) -> bool
    ensures reached { IsTrue result → IsReached shift.now clock }
    ensures fits { ShiftFits shift.now clock → IsTrue result }
{
    match shift.since() {
        None => shift.behind() <= clock,
        Some(since) => since <= clock,
    }
}

/// The clock behind a gate: it runs from now on, or stands still.
fn gated(shift: Shift, is_open: bool, clock: u128) -> Shift
    ensures { ShiftFits shift clock → IsGated clock shift is_open result }
{
    if !is_reached(&shift, clock) {
        return shift;
    }
    if is_open {
        shift.thaw(clock)
    } else {
        shift.freeze(clock)
    }
}

/// Whether a test is true, and its trouble.
fn answer_of(answer: Result<bool, Trouble>) -> (bool, Option<Trouble>)
    ensures { IsAnswer answer result.0 result.1 }
{
    match answer {
        Ok(is_open) => (is_open, None),
        Err(trouble) => (false, Some(trouble)),
    }
}

/// Of a guard whose test has this trouble or none, and names the clock or does not.
fn guard_says(trouble: Option<Trouble>, clocked: bool) -> Kept
    ensures { result ≡ device.kept_of_guard trouble clocked }
{
    Kept {
        summary: Summary {
            trouble,
            ..Summary::none()
        },
        clocked,
        ..Kept::none()
    }
}

fn ask_guard(
    alloc: Global,
    here: &Standpoint<'_>,
    state: &mut State,
    spot: Spot,
    test: Shared<Code>,
    pos: Pos,
    shift: Shift,
) -> Result<What, AllocError>
    requires { AreKnown here.now.classes.now }
    ensures asked { (m : ModelTree) (class : ℕ) → Knows m here.now →
        IfOk result (λ x. AskRule (seen_from m here.now class state.old.held)
        spot.frame.0 spot.clock
        (head_view (Head.Guard test pos shift)) (head_view x.head) x.kept) }
    ensures state { state.new ≡ state.old }
{
    pz_rules::laws::evaluations_are_computed();
    let (is_open, trouble) = answer_of(ask_test(alloc, here, state, spot.frame, pos, &test)?);
    let shift = gated(shift, is_open, spot.clock);
    let clocked = names_clock(test.get());
    let kept = guard_says(trouble, clocked);
    Ok(What {
        head: Head::Guard { test, pos, shift },
        kept,
    })
}

// ------------------------------------------------------------ statements

/// Of what has a trouble.
fn troubled(trouble: Trouble) -> Kept
    ensures { result ≡ device.troubled trouble }
{
    Kept {
        summary: Summary {
            trouble: Some(trouble),
            ..Summary::none()
        },
        ..Kept::none()
    }
}

/// Of a delay that has not begun, of which so much would be left now.
fn delay_says(answer: Result<u128, Trouble>, clock: u128) -> Kept
    requires { IfOk answer (λ left. left < 2 ^ 63) }
    ensures { HasRoom clock → DelaySays clock answer result }
{
    match answer {
        Ok(left) => Kept {
            summary: Summary {
                internal: if left == 0 { 1 } else { 0 },
                due: Some(clock.saturating_add(left)),
                ..Summary::none()
            },
            starts: true,
            ..Kept::none()
        },
        Err(trouble) => Kept {
            starts: true,
            ..troubled(trouble)
        },
    }
}

/// Of a send whose arguments came to this.
fn send_says(answer: Result<Parcel, Trouble>) -> Kept
    ensures { result ≡ kept_of_send answer }
{
    match answer {
        Ok(_) => Kept {
            summary: Summary {
                sends: 1,
                ..Summary::none()
            },
            ..Kept::none()
        },
        Err(trouble) => troubled(trouble),
    }
}

/// A statement that has not begun: a delay or a send. Nothing else is asked anything.
fn ask_step(
    alloc: Global,
    here: &Standpoint<'_>,
    state: &mut State,
    spot: Spot,
    step: &Step,
) -> Result<Kept, AllocError>
    requires { AreKnown here.now.classes.now }
    ensures says { (m : ModelTree) (class : ℕ) → Knows m here.now →
        statement_asks (view step.now) ≡ true → HasRoom spot.clock → IfOk result (λ own.
        SaysItself (seen_from m here.now class state.old.held) spot.frame.0 spot.clock
        (view step.now) own) }
    ensures state { state.new ≡ state.old }
{
    pz_rules::laws::evaluations_are_computed();
    match step.form.get() {
        StepForm::Delay(time) => {
            let answer = ask_time(alloc, here, state, spot.frame, step.pos, time)?;
            let own = delay_says(answer, spot.clock);
            Ok(Kept {
                clocked: names_clock(time),
                ..own
            })
        }
        StepForm::Send { args, .. } => {
            let answer = ask_parcel(alloc, here, state, spot.frame, step.pos, args)?;
            let own = send_says(answer);
            Ok(Kept {
                clocked: part_names_clock(args),
                ..own
            })
        }
        _ => Ok(Kept::none()),
    }
}

fn ask_leaf(
    alloc: Global,
    here: &Standpoint<'_>,
    state: &mut State,
    spot: Spot,
    step: Step,
) -> Result<What, AllocError>
    requires { AreKnown here.now.classes.now }
    ensures asked { (m : ModelTree) (class : ℕ) → Knows m here.now →
        IfOk result (λ x. AskRule (seen_from m here.now class state.old.held)
        spot.frame.0 spot.clock
        (head_view (Head.Leaf step)) (head_view x.head) x.kept) }
    ensures state { state.new ≡ state.old }
{
    let kept = ask_step(alloc, here, state, spot, &step)?;
    Ok(What {
        head: Head::Leaf(step),
        kept,
    })
}

// ------------------------------------------------------------ nodes

/// A node that is asked nothing itself.
fn unasked(head: Head) -> What
    ensures head { result.head ≡ head }
    ensures kept { result.kept ≡ kept_none }
{
    What {
        head,
        kept: Kept::none(),
    }
}

/// Asks a node what there is to ask of it, but nothing below it: hands it out with what it adds by itself.
/// The state stays as it is. The only error is want of memory.
pub fn ask(
    alloc: Global,
    here: &Standpoint<'_>,
    state: &mut State,
    spot: Spot,
    head: Head,
) -> Result<What, AllocError>
    requires { AreKnown here.now.classes.now }
    ensures asked { (m : ModelTree) (class : ℕ) → Knows m here.now →
        IfOk result (λ x. AskRule (seen_from m here.now class state.old.held)
        spot.frame.0 spot.clock
        (head_view head) (head_view x.head) x.kept) }
    ensures state { state.new ≡ state.old }
{
    match head {
        Head::Guard { test, pos, shift } => {
            ask_guard(alloc, here, state, spot, test, pos, shift)
        }
        Head::Leaf(step) => ask_leaf(alloc, here, state, spot, step),
        Head::Wait { due, pos } => Ok(unasked(Head::Wait { due, pos })),
        Head::Seq(rest) => Ok(unasked(Head::Seq(rest))),
        Head::Par => Ok(unasked(Head::Par)),
        Head::Sel => Ok(unasked(Head::Sel)),
        Head::Frame {
            frame,
            inputs,
            results,
        } => Ok(unasked(Head::Frame {
            frame,
            inputs,
            results,
        })),
        Head::Abort => Ok(unasked(Head::Abort)),
        Head::Idle(again, shift) => Ok(unasked(Head::Idle(again, shift))),
        Head::Handling(again, shift) => Ok(unasked(Head::Handling(again, shift))),
        Head::Shifted(shift) => Ok(unasked(Head::Shifted(shift))),
    }
}
