// The lines of a session that are none of a trace. The only error is want of memory.

ghost use Rattle.std.specs.Prelude.{◌≡◌, IfOk};
ghost use Rattle.pz_bind.specs.pz_classes.CheckedView.{checked_model};
ghost use Rattle.pz_bind.specs.devices.Nets.{IsNet};
ghost use Rattle.pz_trace.specs.Named.{IsNamed};
ghost use Rattle.pz_debug_replies.specs.Lines as lines;

use crate::names::class_names;
use pz_bind::Net;
use pz_bind::pz_classes::Checked;
use pz_rules::pz_copy::Parcel;
use pz_term_simulator::Action;
use pz_trace::label;
use std::alloc::{AllocError, Global};

/// So many offers, at a clock, in clock units.
pub(crate) fn menu_line(alloc: Global, clock: u128, offers: u64) -> Result<Vec<u8>, AllocError>
    ensures { IfOk result (λ line. line.items ≡ lines.menu_line clock offers) }
{
    Ok(format!(in alloc; "{clock} actions {offers}\n")?.into_bytes())
}

/// So much time would pass, at a clock, both in clock units.
pub(crate) fn waiting_line(alloc: Global, clock: u128, time: u128) -> Result<Vec<u8>, AllocError>
    ensures { IfOk result (λ line. line.items ≡ lines.waiting_line clock time) }
{
    Ok(format!(in alloc; "{clock} waiting {time}\n")?.into_bytes())
}

/// The offer of this number, from 0, in a menu.
pub(crate) fn offer_line(
    alloc: Global,
    checked: &Checked,
    net: &Net,
    number: u64,
    action: &Action,
) -> Result<Vec<u8>, AllocError>
    requires of_model { ∥ IsNet (checked_model checked.now) net.now ∥₁ }
    requires named { IsNamed net.now action.now }
    ensures { IfOk result (λ line. line.items ≡ lines.offer_line
        (checked_model checked.now) number action.now) }
{
    let label = label(alloc, checked, net, action)?;
    let mut line = format!(in alloc; "offer {number} ")?.into_bytes();
    line.extend_from_slice(label.as_slice())?;
    line.push(b'\n')?;
    Ok(line)
}

/// Of so many offers none has this number.
pub(crate) fn refused_pick_line(
    alloc: Global,
    clock: u128,
    number: u64,
    offers: u64,
) -> Result<Vec<u8>, AllocError>
    ensures { IfOk result (λ line. line.items ≡ lines.refused_pick_line clock number offers) }
{
    Ok(format!(in alloc; "{clock} refused {number} of {offers}\n")?.into_bytes())
}

/// Time does not pass now.
pub(crate) fn refused_pass_line(alloc: Global, clock: u128) -> Result<Vec<u8>, AllocError>
    ensures { IfOk result (λ line. line.items ≡ lines.refused_pass_line clock) }
{
    Ok(format!(in alloc; "{clock} refused pass\n")?.into_bytes())
}

/// So many steps are left, and the clock after them.
pub(crate) fn back_line(alloc: Global, steps: u64, clock: u128) -> Result<Vec<u8>, AllocError>
    ensures { IfOk result (λ line. line.items ≡ lines.back_line steps clock) }
{
    Ok(format!(in alloc; "back to {steps} clock {clock}\n")?.into_bytes())
}

/// So many steps were to be taken back, and there are only so many.
pub(crate) fn refused_back_line(alloc: Global, n: u64, steps: u64) -> Result<Vec<u8>, AllocError>
    ensures { IfOk result (λ line. line.items ≡ lines.refused_back_line n steps) }
{
    Ok(format!(in alloc; "refused back {n} of {steps}\n")?.into_bytes())
}

/// The line of this number is no command.
pub(crate) fn refused_command_line(alloc: Global, line: u64) -> Result<Vec<u8>, AllocError>
    ensures { IfOk result (λ text. text.items ≡ lines.refused_command_line line) }
{
    Ok(format!(in alloc; "refused command {line}\n")?.into_bytes())
}

/// What a variable of a process holds, after the path and the name that it was asked for by.
pub(crate) fn show_line(
    alloc: Global,
    checked: &Checked,
    path: &[u8],
    name: &[u8],
    parcel: &Parcel,
) -> Result<Vec<u8>, AllocError>
    ensures { IfOk result (λ line. line.items ≡ lines.show_line
        (checked_model checked.now) path.now name.now parcel.now) }
{
    let value = parcel.text(class_names(checked))?;
    let mut line = Vec::new(alloc);
    line.extend_from_slice(path)?;
    line.push(b' ')?;
    line.extend_from_slice(name)?;
    line.extend_from_slice(b" = ")?;
    line.extend_from_slice(value.as_slice())?;
    line.push(b'\n')?;
    Ok(line)
}
