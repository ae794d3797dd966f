//! Parcels of small states, and their texts.

use crate::conditions::refer_within;
use crate::nodes::{class_names, nodes, set};
use pz_copy::pz_state::State;
use pz_copy::pz_value::{Text, Value};
use pz_copy::{Parcel, pack, unpack};
use std::alloc::AllocError;
use std::io;

fn show_parcel(rt: &HostRuntime, what: &str, parcel: &Parcel) -> io::Result<()> {
    let names = class_names(rt.alloc())?;
    let text = parcel.text(names.as_slice())?;
    match str::from_utf8(text.as_slice()) {
        Ok(text) => println!(rt; "{what}: {text}"),
        Err(_) => println!(rt; "{what}: no text"),
    }
}

/// Packs the values, and shows the parcel.
fn show_packed(rt: &HostRuntime, what: &str, state: &State, values: &[Value]) -> io::Result<()> {
    if !refer_within(values, state.objects()) {
        return println!(rt; "{what}: no such object");
    }
    show_parcel(rt, what, &pack(rt.alloc(), state, values)?)
}

/// Unpacks the parcel, and shows the values and what is packed there.
fn show_unpacked(rt: &HostRuntime, state: &mut State, parcel: &Parcel) -> io::Result<()> {
    let Ok(copies) = unpack(rt.alloc(), state, parcel) else {
        return println!(rt; "not unpacked");
    };
    let objects = state.objects();
    println!(rt; "unpacked: {copies:?}, {objects} objects")?;
    show_packed(rt, "packed again", state, copies.as_slice())
}

/// Unpacks the parcel behind five other objects.
fn show_behind(rt: &HostRuntime, parcel: &Parcel) -> io::Result<()> {
    let mut other = nodes(rt.alloc(), 5)?;
    show_unpacked(rt, &mut other, parcel)
}

/// Moves the values behind five other objects.
fn show_moved(rt: &HostRuntime, state: &State, values: &[Value]) -> io::Result<()> {
    if !refer_within(values, state.objects()) {
        return println!(rt; "no such object");
    }
    show_behind(rt, &pack(rt.alloc(), state, values)?)
}

/// Lets two objects name each other, with an Integer each.
fn join_pair(state: &mut State) -> Result<(), AllocError> {
    set(state, 2, 0, Value::Ref(1))?;
    set(state, 2, 1, Value::Int(1))?;
    set(state, 1, 0, Value::Ref(2))?;
    set(state, 1, 1, Value::Int(2))
}

fn show_pair(rt: &HostRuntime, state: &mut State) -> io::Result<()> {
    join_pair(state)?;
    let pair = [Value::Ref(2), Value::Ref(1)];
    show_packed(rt, "pair", state, &pair)?;
    show_moved(rt, state, &pair)
}

/// Lets two objects name a third one, and one name itself.
fn share(state: &mut State) -> Result<(), AllocError> {
    set(state, 0, 0, Value::Ref(3))?;
    set(state, 1, 1, Value::Ref(3))?;
    set(state, 3, 0, Value::Int(7))?;
    set(state, 2, 1, Value::Ref(2))
}

/// The shared object as two values, the one that names itself, and no value.
fn show_single(rt: &HostRuntime, state: &State) -> io::Result<()> {
    show_packed(rt, "twice", state, &[Value::Ref(3), Value::Ref(3)])?;
    show_packed(rt, "itself", state, &[Value::Ref(2)])?;
    show_packed(rt, "nothing", state, &[])
}

/// Each sort of value but references.
fn show_values(rt: &HostRuntime, state: &State) -> io::Result<()> {
    let values = [
        Value::Nil,
        Value::Bool(true),
        Value::Bool(false),
        Value::Int(0),
        Value::Int(i64::MIN),
        Value::Int(i64::MAX),
    ];
    show_packed(rt, "values", state, &values)
}

/// Each escape in a Char and in a String.
fn show_escapes(rt: &HostRuntime, state: &State) -> io::Result<()> {
    let bytes = Vec::from_slice(rt.alloc(), b"a\"'\\ ~\n\x00\x7f\xff")?;
    let values = [
        Value::Char(b'x'),
        Value::Char(b'\''),
        Value::Char(b'"'),
        Value::Char(b'\\'),
        Value::Char(0),
        Value::Str(Text::new(bytes)),
    ];
    show_packed(rt, "escapes", state, &values)
}

/// The objects that share one, and then each of those by itself.
fn show_shared(rt: &HostRuntime, state: &mut State) -> io::Result<()> {
    share(state)?;
    let all = [Value::Ref(0), Value::Ref(1), Value::Ref(3)];
    show_packed(rt, "shared", state, &all)?;
    show_single(rt, state)
}

fn show_cycle(rt: &HostRuntime) -> io::Result<()> {
    let mut state = nodes(rt.alloc(), 3)?;
    show_pair(rt, &mut state)
}

fn show_sharing(rt: &HostRuntime) -> io::Result<()> {
    let mut state = nodes(rt.alloc(), 4)?;
    show_shared(rt, &mut state)
}

fn show_texts(rt: &HostRuntime) -> io::Result<()> {
    let empty = nodes(rt.alloc(), 0)?;
    show_values(rt, &empty)?;
    show_escapes(rt, &empty)
}

/// The rows, a line each.
pub fn show_parcels(rt: &HostRuntime) -> io::Result<()> {
    show_cycle(rt)?;
    show_sharing(rt)?;
    show_texts(rt)
}
