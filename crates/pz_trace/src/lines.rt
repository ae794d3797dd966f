// The lines of a trace. The only error is want of memory.

ghost use Rattle.std.specs.Prelude.{◌≡◌, ◌++◌, IfOk, OnOk};
ghost use Rattle.pz_rules.specs.pz_syntax.Classes.{ModelTree};
ghost use Rattle.pz_bind.specs.pz_classes.CheckedView.{checked_model};
ghost use Rattle.pz_bind.specs.NetView.{HasProcess};
ghost use Rattle.pz_bind.specs.devices.Nets.{IsNet};
ghost use Rattle.pz_trace.specs.Labels.{spot};
ghost use Rattle.pz_trace.specs.Lines as lines;
ghost use Rattle.pz_trace.specs.Named.{IsNamed, IsNamedAtEnd, HasTroubled};

use crate::Ending;
use crate::labels::put_label;
use crate::names::path;
use crate::numbers::{put_leading, put_number, put_place};
use crate::words::fault_word;
use pz_bind::Net;
use pz_bind::pz_classes::Checked;
use pz_rules::Action;
use pz_rules::pz_offer::Trouble;
use pz_rules::pz_syntax::Pos;
use std::alloc::{AllocError, Global};

/// Puts the line of an action at the end of a text (`action_line`, with its conditions). What the text ends
/// in after an error is left open.
pub fn put_action_line(
    out: &mut Vec<u8>,
    checked: &Checked,
    net: &Net,
    clock: u128,
    offers: u64,
    number: u64,
    action: &Action,
) -> Result<(), AllocError>
    requires of_model { ∥ IsNet (checked_model checked.now) net.now ∥₁ }
    requires named { IsNamed net.now action.now }
    ensures { OnOk result (out.new.items ≡ out.old.items ++ lines.action_line
        (checked_model checked.now) clock offers number action.now) }
{
    put_leading(out, clock)?;
    put_leading(out, offers)?;
    put_leading(out, number)?;
    put_label(out, checked, net, action)?;
    out.extend_from_slice(b"\n")
}

/// The line of an action that is chosen at a clock, in clock units: of so many offers the one of this
/// number, from 0, and what it is (`label`, with its conditions). The only error is want of memory.
pub fn action_line(
    alloc: Global,
    checked: &Checked,
    net: &Net,
    clock: u128,
    offers: u64,
    number: u64,
    action: &Action,
) -> Result<Vec<u8>, AllocError>
    requires of_model { ∥ IsNet (checked_model checked.now) net.now ∥₁ }
    requires named { IsNamed net.now action.now }
    ensures { IfOk result (λ line. line.items ≡ lines.action_line
        (checked_model checked.now) clock offers number action.now) }
{
    let mut line = Vec::new(alloc);
    put_action_line(&mut line, checked, net, clock, offers, number, action)?;
    Ok(line)
}

/// Puts the line of a passing of time at the end of a text (`time_line`). What the text ends in after an
/// error is left open.
pub fn put_time_line(out: &mut Vec<u8>, clock: u128, time: u128) -> Result<(), AllocError>
    ensures { OnOk result (out.new.items ≡ out.old.items ++ lines.time_line clock time) }
{
    put_number(out, clock)?;
    out.extend_from_slice(b" time ")?;
    put_number(out, time)?;
    out.extend_from_slice(b"\n")
}

/// The line of a passing of so much time from a clock on, both in clock units. The only error is want
/// of memory.
pub fn time_line(alloc: Global, clock: u128, time: u128) -> Result<Vec<u8>, AllocError>
    ensures { IfOk result (λ line. line.items ≡ lines.time_line clock time) }
{
    let mut line = Vec::new(alloc);
    put_time_line(&mut line, clock, time)?;
    Ok(line)
}

/// How a trace ends, in words, and of a trouble which one, the path of the process and the place in the
/// text of the model.
///
/// A trouble names a process of the net. The only error is want of memory.
pub fn end_words(alloc: Global, net: &Net, end: &Ending) -> Result<Vec<u8>, AllocError>
    requires { IsNamedAtEnd net.now end.now }
    ensures { (m : ModelTree) → ∥ IsNet m net.now ∥₁ →
        IfOk result (λ words. words.items ≡ lines.end_words m end.now) }
{
    let mut words = Vec::new(alloc);
    put_end(&mut words, net, end)?;
    Ok(words)
}

/// Puts the last line of a trace at the end of a text (`end_line`, with its condition). What the text ends
/// in after an error is left open.
pub fn put_end_line(
    out: &mut Vec<u8>,
    net: &Net,
    clock: u128,
    end: &Ending,
) -> Result<(), AllocError>
    requires { IsNamedAtEnd net.now end.now }
    ensures { (m : ModelTree) → ∥ IsNet m net.now ∥₁ →
        OnOk result (out.new.items ≡ out.old.items ++ lines.end_line m clock end.now) }
{
    put_leading(out, clock)?;
    put_end(out, net, end)?;
    out.extend_from_slice(b"\n")
}

/// The last line of a trace, at a clock, in clock units: how it ends (`end_words`, with its condition).
/// The only error is want of memory.
pub fn end_line(alloc: Global, net: &Net, clock: u128, end: &Ending) -> Result<Vec<u8>, AllocError>
    requires { IsNamedAtEnd net.now end.now }
    ensures { (m : ModelTree) → ∥ IsNet m net.now ∥₁ →
        IfOk result (λ line. line.items ≡ lines.end_line m clock end.now) }
{
    let mut line = Vec::new(alloc);
    put_end_line(&mut line, net, clock, end)?;
    Ok(line)
}

// How a trace ends, at the end of a text.
fn put_end(out: &mut Vec<u8>, net: &Net, end: &Ending) -> Result<(), AllocError>
    requires { IsNamedAtEnd net.now end.now }
    ensures { (m : ModelTree) → ∥ IsNet m net.now ∥₁ →
        OnOk result (out.new.items ≡ out.old.items ++ lines.end_words m end.now) }
{
    match end {
        Ending::End => out.extend_from_slice(b"end"),
        Ending::Deadlock => out.extend_from_slice(b"deadlock"),
        Ending::Stop => out.extend_from_slice(b"stop"),
        Ending::Trouble(trouble) => put_trouble(out, net, trouble),
    }
}

fn put_trouble(out: &mut Vec<u8>, net: &Net, trouble: &Trouble) -> Result<(), AllocError>
    requires { HasTroubled net.now trouble.now }
    ensures { (m : ModelTree) → ∥ IsNet m net.now ∥₁ →
        OnOk result (out.new.items ≡ out.old.items ++ lines.trouble_words m trouble.now) }
{
    match trouble {
        Trouble::Fault { kind, process, pos } => {
            out.extend_from_slice(b"fault ")?;
            out.extend_from_slice(fault_word(*kind).as_bytes())?;
            out.push(b' ')?;
            put_spot(out, net, *process, *pos)
        }
        Trouble::Spent { process, pos } => {
            out.extend_from_slice(b"spent ")?;
            put_spot(out, net, *process, *pos)
        }
        Trouble::High { process, pos } => {
            out.extend_from_slice(b"high ")?;
            put_spot(out, net, *process, *pos)
        }
    }
}

// The path of a process and a place of the text, at the end of a text.
fn put_spot(out: &mut Vec<u8>, net: &Net, process: u32, pos: Pos) -> Result<(), AllocError>
    requires { HasProcess net.now process }
    ensures { (m : ModelTree) → ∥ IsNet m net.now ∥₁ →
        OnOk result (out.new.items ≡ out.old.items ++ spot m process pos) }
{
    out.extend_from_slice(path(net, process))?;
    out.push(b' ')?;
    put_place(out, pos)
}
