//! Changes states and asks what values answer, line by line of the input, and times changes of a
//! state. Nothing is promised here: the output is the test.
//!
//! A line `state N` begins a state of N variables, and the lines behind it change it, one call each;
//! any other line has a receiver, a selector and the arguments. Object 0 is an Array of three items
//! then, object 1 is none. Behind these rows a few states are packed and unpacked, and their parcels
//! shown, and a state is filled with objects. `rows_state mixed N CHANGES`, `rows_state frames N CHANGES` and `rows_state parcels REACHED
//! OTHERS TIMES` are benches.
#![tactic(auto)]

ghost use Rattle.std.specs.Prelude.{◌≡◌, IfOk, All, length};
ghost use Rattle.pz_copy.specs.pz_state.References.{RefersWithin};

mod benches;
mod changes;
mod conditions;
mod full;
mod nodes;
mod packing;
mod parcels;
mod show;
mod subject;

use pz_copy::pz_state::{MakeError, State};
use pz_copy::pz_value::{ClassId, Text, Value};
use pz_prims::{Prim, prim};
use std::alloc::{AllocError, Global};
use std::str::SplitWhitespace;
use std::{env, io};
use subject::Subject;

/// A String with the most bytes that one may have.
fn longest(alloc: Global) -> Result<Value, AllocError>
    ensures { IfOk result (RefersWithin 0) }
{
    let bytes = vec![in alloc; b'x'; 1_048_576]?;
    Ok(Value::Str(Text::new(bytes)))
}

/// A quoted word, or a reference to one of so many objects; nil where it is neither.
fn quoted(alloc: Global, word: &[u8], objects: u32) -> Result<Value, AllocError>
    ensures { IfOk result (RefersWithin objects) }
{
    match word {
        [b'\'', byte, b'\''] => Ok(Value::Char(*byte)),
        [b'"', text @ .., b'"'] => Ok(Value::Str(Text::new(text.to_vec(alloc)?))),
        [b'@', digit] => {
            let r = u32::from(*digit).saturating_sub(48);
            if r < objects {
                Ok(Value::Ref(r))
            } else {
                Ok(Value::Nil)
            }
        }
        _ => Ok(Value::Nil),
    }
}

/// The value that a word writes, where there are so many objects.
fn value_of(alloc: Global, word: &str, objects: u32) -> Result<Value, AllocError>
    ensures { IfOk result (RefersWithin objects) }
{
    if word == "true" {
        return Ok(Value::Bool(true));
    }
    if word == "false" {
        return Ok(Value::Bool(false));
    }
    if word == "longest" {
        return longest(alloc);
    }
    match word.parse::<i64>() {
        Ok(n) => Ok(Value::Int(n)),
        Err(_) => quoted(alloc, word.as_bytes(), objects),
    }
}

/// The values that the words write.
fn args_of(alloc: Global, words: SplitWhitespace, objects: u32) -> Result<Vec<Value>, AllocError>
    ensures { IfOk result (λ args. All (RefersWithin objects) args.items) }
{
    let mut args = Vec::new(alloc);
    for word in words {
        let value = value_of(alloc, word, objects)?;
        args.push(value)?;
    }
    Ok(args)
}

fn show_prim(rt: &HostRuntime, answer: &Prim) -> io::Result<()> {
    match answer {
        Prim::Value(value) => show::value(rt, value),
        Prim::Fault(fault) => print!(rt; "{fault:?}"),
        Prim::Other => print!(rt; "other"),
    }
}

/// A line, and what its receiver answers.
fn show_answer(
    rt: &HostRuntime,
    state: &mut State,
    line: &str,
    receiver: &Value,
    selector: &[u8],
    args: &[Value],
) -> io::Result<()>
    requires receiver { RefersWithin (length state.old.held.objects) receiver.now }
    requires args { All (RefersWithin (length state.old.held.objects)) args.now }
{
    print!(rt; "{line} -> ")?;
    show_prim(rt, &prim(rt.alloc(), state, receiver, selector, args)?)?;
    println!(rt;)
}

/// Asks the receiver of a line, if it has a selector too.
fn ask(rt: &HostRuntime, state: &mut State, line: &str) -> io::Result<()> {
    let mut words = line.split_whitespace();
    let (Some(receiver), Some(selector)) = (words.next(), words.next()) else {
        return println!(rt;);
    };
    let objects = state.objects();
    let receiver = value_of(rt.alloc(), receiver, objects)?;
    let args = args_of(rt.alloc(), words, objects)?;
    let selector = selector.as_bytes();
    show_answer(rt, state, line, &receiver, selector, args.as_slice())
}

/// Does what a line says.
fn show_row(
    rt: &HostRuntime,
    state: &mut State,
    subject: &mut Subject,
    line: &str,
) -> io::Result<()> {
    match changes::change_in(line) {
        Some(change) => changes::make_change(rt, subject, line, change),
        None => ask(rt, state, line),
    }
}

/// Does what each line says.
fn show_lines(rt: &HostRuntime, state: &mut State, subject: &mut Subject) -> io::Result<()> {
    for line in rt.lines(rt.alloc()) {
        show_row(rt, state, subject, line?.as_str())?;
    }
    Ok(())
}

/// An Array of three items and an object that is none.
fn make_objects(state: &mut State) -> Result<(), MakeError> {
    state.make(ClassId(0), 3)?;
    state.make(ClassId(1), 0)?;
    Ok(())
}

/// The rows, about the objects of one state and the changes of another.
fn show_made(rt: &HostRuntime, state: &mut State, subject: &mut Subject) -> io::Result<()> {
    match make_objects(state) {
        Ok(()) => show_lines(rt, state, subject),
        Err(error) => println!(rt; "{error:?}"),
    }
}

fn show_rows(rt: &HostRuntime) -> io::Result<()> {
    let mut state = State::new(rt.alloc(), Vec::new(rt.alloc()));
    let mut subject = Subject::new(rt.alloc(), 0)?;
    show_made(rt, &mut state, &mut subject)
}

/// All rows.
fn show_all(rt: &HostRuntime) -> io::Result<()> {
    show_rows(rt)?;
    parcels::show_parcels(rt)?;
    full::show_full(rt)
}

fn show_usage(rt: &HostRuntime) -> io::Result<()> {
    println!(rt; "rows_state; rows_state mixed N CHANGES; rows_state frames N CHANGES")?;
    println!(rt; "rows_state parcels REACHED OTHERS TIMES")
}

fn show_job(rt: &HostRuntime, words: &[String]) -> io::Result<()> {
    match words {
        [_] => show_all(rt),
        [_, bench, size, changes] => {
            benches::show_bench(rt, bench.as_str(), size.as_str(), changes.as_str())
        }
        [_, bench, reached, others, times] if bench.as_str() == "parcels" => {
            packing::show_bench(rt, reached.as_str(), others.as_str(), times.as_str())
        }
        _ => show_usage(rt),
    }
}

fn main(rt: HostRuntime) -> io::Result<()> {
    let words = env::args(&rt)?.collect::<Vec<String>>(rt.alloc())?;
    show_job(&rt, words.as_slice())
}
