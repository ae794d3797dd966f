// Statements that send or receive.

ghost use Rattle.std.specs.Prelude.{◌≡◌, length};
ghost use Rattle.pz_classes_code.specs.StepView.{view};
ghost use Rattle.pz_tree_nodes.specs.pz_rules.Messages.{variables_of};
ghost use Rattle.pz_tree_offering.specs.devices.Forms.{IsSendForm, IsReceiveForm};

use pz_classes_code::pz_items::{Items, Shared};
use pz_classes_code::pz_syntax::{Id, Pos};
use pz_classes_code::{Code, Slot, Step, StepForm};

/// What a send says.
#[derive(Clone, Copy)]
pub(crate) struct SendForm<'a> {
    pub(crate) pos: Pos,
    pub(crate) port: u32,
    pub(crate) name: &'a Shared<Id>,
    pub(crate) args: &'a Option<Shared<Items<Code>>>,
}

/// What a receive says.
#[derive(Clone, Copy)]
pub(crate) struct ReceiveForm<'a> {
    pub(crate) port: u32,
    pub(crate) name: &'a Shared<Id>,
    /// How many values it takes.
    pub(crate) count: usize,
    pub(crate) conditional: bool,
}

/// How many variables a receive binds.
fn count_of(into: &Option<Shared<Items<Slot>>>) -> usize
    ensures { result ≡ length (variables_of into.now) }
{
    match into {
        None => 0,
        Some(slots) => slots.get().len(),
    }
}

/// None exactly where the statement is no send.
pub(crate) fn send_form(step: &Step) -> Option<SendForm<'_>>
    ensures { IsSendForm (view step.now) result }
{
    match step.form.get() {
        StepForm::Send {
            port,
            name,
            args,
            ..
        } => Some(SendForm {
            pos: step.pos,
            port: *port,
            name,
            args,
        }),
        StepForm::Receive { .. } => None,
        StepForm::Skip => None,
        StepForm::Eval(_) => None,
        StepForm::Block(_) => None,
        StepForm::If(_, _, _) => None,
        StepForm::While(_, _) => None,
        StepForm::Call { .. } => None,
        StepForm::Delay(_) => None,
        StepForm::Group(_) => None,
        StepForm::Guard(_, _) => None,
        StepForm::Par(_) => None,
        StepForm::Sel(_) => None,
        StepForm::Abort(_, _) => None,
        StepForm::Interrupt(_, _) => None,
    }
}

/// None exactly where the statement is no receive.
pub(crate) fn receive_form(step: &Step) -> Option<ReceiveForm<'_>>
    ensures { IsReceiveForm (view step.now) result }
{
    match step.form.get() {
        StepForm::Receive {
            port,
            name,
            into,
            condition,
            ..
        } => Some(ReceiveForm {
            port: *port,
            name,
            count: count_of(into),
            conditional: condition.is_some(),
        }),
        StepForm::Send { .. } => None,
        StepForm::Skip => None,
        StepForm::Eval(_) => None,
        StepForm::Block(_) => None,
        StepForm::If(_, _, _) => None,
        StepForm::While(_, _) => None,
        StepForm::Call { .. } => None,
        StepForm::Delay(_) => None,
        StepForm::Group(_) => None,
        StepForm::Guard(_, _) => None,
        StepForm::Par(_) => None,
        StepForm::Sel(_) => None,
        StepForm::Abort(_, _) => None,
        StepForm::Interrupt(_, _) => None,
    }
}
