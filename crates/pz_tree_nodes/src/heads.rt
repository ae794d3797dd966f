// What a node does itself.

ghost use Rattle.std.specs.Prelude.{◌≡◌};
ghost use Rattle.pz_classes_code.specs.StepView.{view};
ghost use Rattle.pz_tree_nodes.specs.View.{head_view};
ghost use Rattle.pz_tree_nodes.specs.devices.Own.{statement_may_do, may_do};

use crate::Head;
use pz_classes_code::pz_syntax::Pos;
use pz_classes_code::{Step, StepForm};
use pz_rules::Kind;

/// An internal action, and the place of its statement in the text.
#[derive(Clone, Copy)]
pub(crate) struct Doing {
    pub(crate) kind: Kind,
    pub(crate) pos: Pos,
}

// What a statement does, if it does anything by itself.
fn action_of(step: &Step) -> Option<Doing>
    ensures { result ≡ statement_may_do (view step.now) }
{
    let pos = step.pos;
    let kind = match step.form.get() {
        StepForm::Skip => Kind::Skip,
        StepForm::Eval(_) => Kind::Eval,
        StepForm::Block(_) => Kind::Eval,
        StepForm::If(_, _, _) => Kind::Test,
        StepForm::While(_, _) => Kind::Test,
        StepForm::Call { .. } => Kind::Call,
        StepForm::Delay(_) => Kind::Expire,
        StepForm::Group(_) => return None,
        StepForm::Guard(_, _) => return None,
        StepForm::Par(_) => return None,
        StepForm::Sel(_) => return None,
        StepForm::Abort(_, _) => return None,
        StepForm::Interrupt(_, _) => return None,
        StepForm::Send { .. } => return None,
        StepForm::Receive { .. } => return None,
    };
    Some(Doing { kind, pos })
}

/// What a part does, if it does anything by itself: a delay, once nothing is left of it.
pub(crate) fn own_action(head: &Head) -> Option<Doing>
    ensures { result ≡ may_do (head_view head.now) }
{
    match head {
        Head::Leaf(step) => action_of(step),
        Head::Wait { pos, .. } => Some(Doing {
            kind: Kind::Expire,
            pos: *pos,
        }),
        _ => None,
    }
}
