//! Values, outcomes and states.

use pz_classes_code::pz_syntax::Pos;
use pz_classes_code::pz_value::Value;
use pz_copy::pz_state::{FaultKind, State};
use pz_eval::{Listed, Outcome};
use std::io;

fn show_text(rt: &HostRuntime, bytes: &[u8]) -> io::Result<()> {
    match std::str::from_utf8(bytes) {
        Ok(text) => print!(rt; " \"{text}\""),
        Err(_) => print!(rt; " bytes"),
    }
}

pub fn show_value(rt: &HostRuntime, value: &Value) -> io::Result<()> {
    match value {
        Value::Nil => print!(rt; " nil"),
        Value::Bool(is) => print!(rt; " {is}"),
        Value::Int(number) => print!(rt; " {number}"),
        Value::Char(byte) => print!(rt; " '{byte}'"),
        Value::Str(text) => show_text(rt, text.as_bytes()),
        Value::Ref(r) => print!(rt; " #{r}"),
    }
}

pub fn show_values(rt: &HostRuntime, values: &[Value]) -> io::Result<()> {
    print!(rt; " (")?;
    for value in values {
        show_value(rt, value)?;
    }
    print!(rt; " )")
}

pub fn show_fault(rt: &HostRuntime, kind: FaultKind, at: Pos) -> io::Result<()> {
    print!(rt; " {kind:?} {}:{}", at.line, at.column)
}

pub fn show_outcome(rt: &HostRuntime, outcome: &Outcome) -> io::Result<()> {
    match outcome {
        Outcome::Value(value) => show_value(rt, value),
        Outcome::Fault(kind, at) => show_fault(rt, *kind, *at),
        Outcome::Spent => print!(rt; " spent"),
    }
}

pub fn show_listed(rt: &HostRuntime, listed: &Listed) -> io::Result<()> {
    match listed {
        Listed::Values(values) => show_values(rt, values.as_slice()),
        Listed::Fault(kind, at) => show_fault(rt, *kind, *at),
        Listed::Spent => print!(rt; " spent"),
    }
}

fn show_variables(rt: &HostRuntime, state: &State) -> io::Result<()> {
    print!(rt; " |")?;
    for slot in 0..state.variables() {
        if let Ok(slot) = u32::try_from(slot) {
            show_value(rt, state.var(slot))?;
        }
    }
    Ok(())
}

/// The variables, and the items of each object.
pub fn show_state(rt: &HostRuntime, state: &State) -> io::Result<()> {
    show_variables(rt, state)?;
    for r in 0..state.objects() {
        print!(rt; ", #{r}")?;
        show_values(rt, state.object(r).items())?;
    }
    println!(rt)
}
