// What an action is, as its line tells it. The only error is want of memory.

ghost use Rattle.std.specs.Prelude.{◌≡◌, ◌++◌, IfOk, OnOk};
ghost use Rattle.pz_rules.specs.pz_syntax.Classes.{ModelTree};
ghost use Rattle.pz_bind.specs.pz_classes.CheckedView.{checked_model};
ghost use Rattle.pz_bind.specs.NetView.{HasProcess, IsWireOf};
ghost use Rattle.pz_bind.specs.devices.Nets.{IsNet};
ghost use Rattle.pz_trace.specs.Labels as spec;
ghost use Rattle.pz_trace.specs.Named.{IsNamed};

use crate::names::{class_names, path, wire_name};
use crate::numbers::put_place;
use crate::words::kind_word;
use pz_bind::Net;
use pz_bind::pz_classes::Checked;
use pz_rules::pz_copy::Parcel;
use pz_rules::pz_syntax::{Name, Pos};
use pz_rules::{Action, Kind};
use std::alloc::{AllocError, Global};

// An internal action of a process, at the end of a text.
fn put_internal(
    out: &mut Vec<u8>,
    net: &Net,
    process: u32,
    kind: Kind,
    pos: Pos,
) -> Result<(), AllocError>
    requires { HasProcess net.now process }
    ensures { (m : ModelTree) → ∥ IsNet m net.now ∥₁ →
        OnOk result (out.new.items ≡ out.old.items ++ spec.internal_label m process kind pos) }
{
    out.extend_from_slice(path(net, process))?;
    out.push(b' ')?;
    out.extend_from_slice(kind_word(kind).as_bytes())?;
    out.push(b' ')?;
    put_place(out, pos)
}

// What a process sends, at the end of a text: its path, the message and the parcel.
fn put_sending(
    out: &mut Vec<u8>,
    checked: &Checked,
    net: &Net,
    sender: u32,
    message: &Name,
    parcel: &Parcel,
) -> Result<(), AllocError>
    requires of_model { ∥ IsNet (checked_model checked.now) net.now ∥₁ }
    requires sender { HasProcess net.now sender }
    ensures { OnOk result (out.new.items ≡ out.old.items ++ spec.sending
        (checked_model checked.now) sender message.now parcel.now) }
{
    let parcel = parcel.text(class_names(checked))?;
    out.extend_from_slice(path(net, sender))?;
    out.extend_from_slice(b" ! ")?;
    out.extend_from_slice(message.as_str().as_bytes())?;
    out.extend_from_slice(parcel.as_slice())
}

/// Puts what an action is at the end of a text: where it takes place, and what happens.
pub(crate) fn put_label(
    out: &mut Vec<u8>,
    checked: &Checked,
    net: &Net,
    action: &Action,
) -> Result<(), AllocError>
    requires of_model { ∥ IsNet (checked_model checked.now) net.now ∥₁ }
    requires named { IsNamed net.now action.now }
    ensures { OnOk result (out.new.items ≡ out.old.items ++ spec.label
        (checked_model checked.now) action.now) }
{
    match action {
        Action::Internal { at, kind, pos } => put_internal(out, net, at.process, *kind, *pos),
        Action::Comm {
            wire,
            sender,
            receiver,
            message,
            parcel,
        } => {
            out.extend_from_slice(wire_name(net, *wire))?;
            out.push(b' ')?;
            put_sending(out, checked, net, sender.process, message, parcel)?;
            out.extend_from_slice(b" -> ")?;
            out.extend_from_slice(path(net, receiver.process))
        }
    }
}

/// What an action is. Of an internal action: the path of its process, its kind, and the place of
/// its statement. Of a communication: the name of the wire, the path of the sender, the message with
/// its parcel, and the path of the receiver.
///
/// The net is that of the model, and the action names its processes and its wire. The only error is
/// want of memory.
pub fn label(
    alloc: Global,
    checked: &Checked,
    net: &Net,
    action: &Action,
) -> Result<Vec<u8>, AllocError>
    requires of_model { ∥ IsNet (checked_model checked.now) net.now ∥₁ }
    requires named { IsNamed net.now action.now }
    ensures { IfOk result (λ text. text.items ≡ spec.label (checked_model checked.now) action.now) }
{
    let mut text = Vec::new(alloc);
    put_label(&mut text, checked, net, action)?;
    Ok(text)
}
