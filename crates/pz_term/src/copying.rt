// Copies of actions. The only error is want of memory.

ghost use Rattle.std.specs.Prelude.{◌≡◌, IfOk};

use pz_rules::Action;
use std::alloc::{AllocError, Global};

/// An equal action.
pub(crate) fn copy_action(action: &Action) -> Result<Action, AllocError>
    ensures { IfOk result (λ copy. copy ≡ action.now) }
{
    match action {
        Action::Internal { at, kind, pos } => Ok(Action::Internal {
            at: at.copy()?,
            kind: *kind,
            pos: *pos,
        }),
        Action::Comm {
            wire,
            sender,
            receiver,
            message,
            parcel,
        } => {
            let sender = sender.copy()?;
            let receiver = receiver.copy()?;
            let message = message.copy()?;
            let parcel = parcel.copy()?;
            Ok(Action::Comm {
                wire: *wire,
                sender,
                receiver,
                message,
                parcel,
            })
        }
    }
}

/// Equal actions in the same order.
pub(crate) fn copy_actions(alloc: Global, actions: &[Action]) -> Result<Vec<Action>, AllocError>
    ensures { IfOk result (λ copies. copies.items ≡ actions.now) }
{
    let mut copies = Vec::with_capacity(alloc, actions.len())?;
    for action in actions {
        copies.push(copy_action(action)?)?;
    }
    Ok(copies)
}
