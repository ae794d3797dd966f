// What a node without children keeps, and what is kept of parts where the node over them keeps less.

ghost use Rattle.std.specs.Prelude.{◌≡◌, option_map};
ghost use Rattle.pz_classes_code.specs.CodeView as code;
ghost use Rattle.pz_classes_code.specs.StepView.{view};
ghost use Rattle.pz_tree_standing.specs.Woken as woken;
ghost use Rattle.pz_tree_nodes.specs.devices.Leaves as leaves;
ghost use Rattle.pz_tree_nodes.specs.devices.Leaves.{statement_kept, kept_action, kept_receive, delay_kept};

use crate::{Kept, names_clock};
use pz_classes_code::pz_items::Shared;
use pz_classes_code::{Code, Step, StepForm};
use pz_rules::pz_offer::Summary;

/// Of a statement that has not begun.
pub(crate) fn leaf_kept(step: &Step) -> Kept
    ensures { result ≡ statement_kept (view step.now) }
{
    match step.form.get() {
        StepForm::Delay(_) => Kept::asked(),
        StepForm::Send { .. } => Kept::asked(),
        StepForm::Receive { condition, .. } => one_receive(condition_names_clock(condition)),
        StepForm::Skip => one_action(),
        StepForm::Block(_) => one_action(),
        StepForm::If(..) => one_action(),
        StepForm::While(..) => one_action(),
        StepForm::Call { .. } => one_action(),
        StepForm::Eval(_) => one_action(),
        StepForm::Group(_) => Kept::done(),
        StepForm::Guard(..) => Kept::done(),
        StepForm::Par(_) => Kept::done(),
        StepForm::Sel(_) => Kept::done(),
        StepForm::Abort(..) => Kept::done(),
        StepForm::Interrupt(..) => Kept::done(),
    }
}

fn one_action() -> Kept
    ensures { result ≡ kept_action }
{
    Kept {
        summary: Summary {
            internal: 1,
            ..Summary::none()
        },
        ..Kept::done()
    }
}

fn one_receive(clocked: bool) -> Kept
    ensures { result ≡ kept_receive clocked }
{
    Kept {
        summary: Summary {
            receives: 1,
            ..Summary::none()
        },
        clocked,
        ..Kept::done()
    }
}

fn condition_names_clock(condition: &Option<Shared<Code>>) -> bool
    ensures { result ≡ woken.condition_names_clock (option_map code.view condition.now) }
{
    match condition {
        None => false,
        Some(condition) => names_clock(condition.get()),
    }
}

/// Of a delay that has begun, of which so much is left, and which is over at the moment `due`.
pub(crate) fn wait_kept(left: u128, due: u128) -> Kept
    ensures { result ≡ delay_kept left due }
{
    Kept {
        summary: Summary {
            internal: if left == 0 { 1 } else { 0 },
            due: Some(due),
            ..Summary::none()
        },
        ..Kept::done()
    }
}

/// Of what stands behind a guard that was not asked yet.
pub(crate) fn unasked(body: &Kept) -> Kept
    ensures { result ≡ leaves.unasked body.now }
{
    Kept {
        height: body.height,
        ..Kept::asked()
    }
}

/// Of two parts, of which the first stands still.
pub(crate) fn second_alone(first: &Kept, second: &Kept) -> Kept
    ensures { result ≡ leaves.second_alone first.now second.now }
{
    Kept {
        height: first.height.max(second.height),
        ..*second
    }
}
