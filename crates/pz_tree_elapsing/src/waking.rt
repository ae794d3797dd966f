// What wakes in a node as time passes, and what becomes of it.

ghost use Rattle.std.specs.Prelude.{◌≡◌, ◌||◌, ◌+◌, ℕ, false, IfOk};
ghost use Rattle.pz_classes_code.specs.pz_syntax.Classes.{ModelTree};
ghost use Rattle.pz_classes_code.specs.StepView.{view};
ghost use Rattle.pz_tree_refreshing.specs.pz_eval.Known.{AreKnown};
ghost use Rattle.pz_tree_refreshing.specs.pz_part_queries.Standpoints.{Knows, seen_from};
ghost use Rattle.pz_tree_refreshing.specs.pz_rules.Settings.{Context};
ghost use Rattle.pz_tree_refreshing.specs.pz_tree_standing.Asked as asked;
ghost use Rattle.pz_tree_refreshing.specs.pz_tree_standing.Steady.{later};
ghost use Rattle.pz_tree_refreshing.specs.pz_tree_standing.Heads as heads;
ghost use Rattle.pz_tree_refreshing.specs.pz_tree_nodes.Keeping.{kept_none};
ghost use Rattle.pz_tree_refreshing.specs.pz_tree_nodes.View.{head_view};
ghost use Rattle.pz_tree_elapsing.specs.Waking as definition;
ghost use Rattle.pz_tree_elapsing.specs.devices.Wakes as device;
ghost use Rattle.pz_tree_elapsing.specs.devices.Wakes.{kept_of_wait, WakeRule};

use pz_classes_code::pz_syntax::Pos;
use pz_classes_code::{Step, StepForm};
use pz_offer::Summary;
use pz_state::State;
use pz_tree_refreshing::pz_part_queries::Standpoint;
use pz_tree_refreshing::pz_tree_nodes::{
    Head, Kept, What, names_clock, part_names_clock, pz_tree_standing,
};
use pz_tree_refreshing::{Spot, ask};
use std::alloc::{AllocError, Global};

// ------------------------------------------------------------ what wakes

fn is_due(due: Option<u128>, clock: u128) -> bool
    ensures { result ≡ definition.is_due clock due }
{
    match due {
        None => false,
        Some(due) => due == clock,
    }
}

/// Whether something wakes in a node that keeps this, at the moment when its clock shows this.
pub(crate) fn wakes(kept: &Kept, clock: u128) -> bool
    ensures { result ≡ definition.wakes clock kept.now }
{
    is_due(kept.summary.due, clock) || (kept.starts || kept.clocked)
}

// ------------------------------------------------------------ what is asked

fn statement_asks(step: &Step) -> bool
    ensures { result ≡ asked.statement_asks (view step.now) }
{
    match step.form.get() {
        StepForm::Delay(_) => true,
        StepForm::Send { .. } => true,
        StepForm::Receive { .. } => false,
        StepForm::Skip => false,
        StepForm::Block(_) => false,
        StepForm::If(..) => false,
        StepForm::While(..) => false,
        StepForm::Call { .. } => false,
        StepForm::Eval(_) => false,
        StepForm::Group(_) => false,
        StepForm::Guard(..) => false,
        StepForm::Par(_) => false,
        StepForm::Sel(_) => false,
        StepForm::Abort(..) => false,
        StepForm::Interrupt(..) => false,
    }
}

/// Whether something is asked at the node itself.
fn own_asks(head: &Head) -> bool
    ensures { result ≡ device.own_asks (head_view head.now) }
{
    match head {
        Head::Leaf(step) => statement_asks(step),
        Head::Guard { .. } => true,
        Head::Wait { .. } => false,
        Head::Seq(_) => false,
        Head::Par => false,
        Head::Sel => false,
        Head::Frame { .. } => false,
        Head::Abort => false,
        Head::Idle(..) => false,
        Head::Handling(..) => false,
        Head::Shifted(_) => false,
    }
}

/// Whether something is asked at the node or below it, where its active children keep this.
pub(crate) fn asks(head: &Head, below: &Kept) -> bool
    ensures { result ≡ device.own_asks (head_view head.now) || below.now.asks }
{
    own_asks(head) || below.asks
}

fn statement_asked_anew(step: &Step) -> bool
    ensures { result ≡ device.statement_asked_anew (view step.now) }
{
    match step.form.get() {
        StepForm::Send { args, .. } => part_names_clock(args),
        StepForm::Delay(_) => false,
        StepForm::Receive { .. } => false,
        StepForm::Skip => false,
        StepForm::Block(_) => false,
        StepForm::If(..) => false,
        StepForm::While(..) => false,
        StepForm::Call { .. } => false,
        StepForm::Eval(_) => false,
        StepForm::Group(_) => false,
        StepForm::Guard(..) => false,
        StepForm::Par(_) => false,
        StepForm::Sel(_) => false,
        StepForm::Abort(..) => false,
        StepForm::Interrupt(..) => false,
    }
}

/// Whether what the node is asked names the clock. A delay that has not begun begins, and is asked nothing.
fn asked_anew(head: &Head) -> bool
    ensures { result ≡ device.asked_anew (head_view head.now) }
{
    match head {
        Head::Leaf(step) => statement_asked_anew(step),
        Head::Guard { test, .. } => names_clock(test.get()),
        Head::Wait { .. } => false,
        Head::Seq(_) => false,
        Head::Par => false,
        Head::Sel => false,
        Head::Frame { .. } => false,
        Head::Abort => false,
        Head::Idle(..) => false,
        Head::Handling(..) => false,
        Head::Shifted(_) => false,
    }
}

// ------------------------------------------------------------ what becomes of a node

/// A delay that has begun, where its clock shows this.
fn waits(due: u128, pos: Pos, clock: u128) -> What
    ensures head { result.head ≡ Head.Wait due pos }
    ensures kept { result.kept ≡ kept_of_wait clock due }
{
    What {
        head: Head::Wait { due, pos },
        kept: Kept {
            summary: Summary {
                internal: if due == clock { 1 } else { 0 },
                due: Some(due),
                ..Summary::none()
            },
            ..Kept::none()
        },
    }
}

/// A node that says nothing of itself.
fn silent(head: Head) -> What
    ensures head { result.head ≡ head }
    ensures kept { result.kept ≡ kept_none }
{
    What {
        head,
        kept: Kept::none(),
    }
}

/// The place of a delay; nothing of another statement.
fn begins_at(step: &Step) -> Option<Pos>
    ensures { result ≡ device.begins_at (view step.now) }
{
    match step.form.get() {
        StepForm::Delay(_) => Some(step.pos),
        StepForm::Send { .. } => None,
        StepForm::Receive { .. } => None,
        StepForm::Skip => None,
        StepForm::Block(_) => None,
        StepForm::If(..) => None,
        StepForm::While(..) => None,
        StepForm::Call { .. } => None,
        StepForm::Eval(_) => None,
        StepForm::Group(_) => None,
        StepForm::Guard(..) => None,
        StepForm::Par(_) => None,
        StepForm::Sel(_) => None,
        StepForm::Abort(..) => None,
        StepForm::Interrupt(..) => None,
    }
}

/// A statement that stays as it is, and keeps the same.
fn stays(step: Step, kept: &Kept) -> What
    ensures head { result.head ≡ Head.Leaf step }
    ensures kept { result.kept ≡ kept.now }
{
    What {
        head: Head::Leaf(step),
        kept: *kept,
    }
}

/// A statement that has not begun: a delay begins, and is over when its node said it would be.
fn begun(step: Step, kept: &Kept, clock: u128) -> What
    ensures goes { (a : Context) (d f c : ℕ) → c + d ≡ clock →
        device.statement_asked_anew (view step) ≡ false →
        WakeRule a d f c (heads.leaf (view step)) kept.now (head_view result.head) result.kept }
{
    let Some(pos) = begins_at(&step) else {
        return stays(step, kept);
    };
    let Some(due) = kept.summary.due else {
        return stays(step, kept);
    };
    waits(due, pos, clock)
}

/// A node of which nothing is to be evaluated.
fn gone_on(head: Head, kept: &Kept, clock: u128) -> What
    ensures goes { (a : Context) (d f c : ℕ) → c + d ≡ clock →
        device.asked_anew (head_view head) ≡ false →
        WakeRule a d f c (head_view head) kept.now (head_view result.head) result.kept }
{
    pz_tree_standing::laws::steady_terms_keep_summaries();
    match head {
        Head::Leaf(step) => begun(step, kept, clock),
        Head::Wait { due, pos } => waits(due, pos, clock),
        Head::Guard { test, pos, shift } => silent(Head::Guard { test, pos, shift }),
        Head::Seq(rest) => silent(Head::Seq(rest)),
        Head::Par => silent(Head::Par),
        Head::Sel => silent(Head::Sel),
        Head::Frame {
            frame,
            inputs,
            results,
        } => silent(Head::Frame {
            frame,
            inputs,
            results,
        }),
        Head::Abort => silent(Head::Abort),
        Head::Idle(again, shift) => silent(Head::Idle(again, shift)),
        Head::Handling(again, shift) => silent(Head::Handling(again, shift)),
        Head::Shifted(shift) => silent(Head::Shifted(shift)),
    }
}

/// What becomes of a node that kept this and in which something wakes, and what it adds by itself to what its
/// active children keep. What it is asked is asked again only if that names the clock. The only error is want
/// of memory.
pub(crate) fn wake(
    alloc: Global,
    here: &Standpoint<'_>,
    state: &mut State,
    spot: Spot,
    head: Head,
    kept: &Kept,
) -> Result<What, AllocError>
    requires { AreKnown here.now.classes.now }
    ensures wakes { (m : ModelTree) (class : ℕ) → Knows m here.now → IfOk result (λ x.
        (a : Context) (d c : ℕ) → later a d ≡ seen_from m here.now class state.old.held →
        c + d ≡ spot.clock →
        WakeRule a d spot.frame.0 c (head_view head) kept.now (head_view x.head) x.kept) }
    ensures state { state.new ≡ state.old }
{
    if asked_anew(&head) {
        ask(alloc, here, state, spot, head)
    } else {
        Ok(gone_on(head, kept, spot.clock))
    }
}
