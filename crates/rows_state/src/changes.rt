//! Changes of a state, a line each.

use crate::subject::Subject;
use pz_copy::pz_state::{FrameId, MakeError};
use std::alloc::{AllocError, Global};
use std::io;

/// What a line asks for. Numbers that a line leaves out are 0.
#[derive(Clone, Copy)]
pub enum Change {
    State { variables: u32 },
    Variable { slot: u32, number: i64 },
    Item { object: u32, item: u32, number: i64 },
    Resize { object: u32, items: u32 },
    Make { class: u32, items: u32 },
    Open { locals: u32 },
    Enter { locals: u32 },
    Local { slot: u32, number: i64 },
    Close,
    Mark,
    Undo,
    Keep,
}

/// The number that a word writes.
fn number(word: Option<&str>) -> i64 {
    word.and_then(|word| word.parse::<i64>().ok()).unwrap_or(0)
}

/// The small number that a word writes.
fn small(word: Option<&str>) -> u32 {
    u32::try_from(number(word)).unwrap_or(0)
}

/// The change that a line asks for, if it asks for one.
pub fn change_in(line: &str) -> Option<Change> {
    let mut words = line.split_whitespace();
    let change = words.next()?;
    let first = words.next();
    let second = words.next();
    let third = words.next();
    match change {
        "state" => Some(Change::State {
            variables: small(first),
        }),
        "variable" => Some(Change::Variable {
            slot: small(first),
            number: number(second),
        }),
        "item" => Some(Change::Item {
            object: small(first),
            item: small(second),
            number: number(third),
        }),
        "resize" => Some(Change::Resize {
            object: small(first),
            items: small(second),
        }),
        "make" => Some(Change::Make {
            class: small(first),
            items: small(second),
        }),
        "open" => Some(Change::Open {
            locals: small(first),
        }),
        "enter" => Some(Change::Enter {
            locals: small(first),
        }),
        "local" => Some(Change::Local {
            slot: small(first),
            number: number(second),
        }),
        "close" => Some(Change::Close),
        "mark" => Some(Change::Mark),
        "undo" => Some(Change::Undo),
        "keep" => Some(Change::Keep),
        _ => None,
    }
}

fn show_made(rt: &HostRuntime, made: Result<u32, MakeError>) -> io::Result<()> {
    match made {
        Ok(r) => print!(rt; "@{r}; "),
        Err(error) => print!(rt; "{error:?}; "),
    }
}

/// Shows the number of a frame that was opened.
fn show_opened(rt: &HostRuntime, opened: Result<FrameId, AllocError>) -> io::Result<()> {
    print!(rt; "{}; ", opened?.0)
}

/// A new state takes the place of this one.
fn begin(alloc: Global, subject: &mut Subject, variables: u32) -> Result<(), AllocError> {
    *subject = Subject::new(alloc, variables)?;
    Ok(())
}

/// Makes a change, and shows what it answers.
fn apply(rt: &HostRuntime, subject: &mut Subject, change: Change) -> io::Result<()> {
    match change {
        Change::State { variables } => begin(rt.alloc(), subject, variables)?,
        Change::Variable { slot, number } => subject.set_variable(slot, number)?,
        Change::Item {
            object,
            item,
            number,
        } => subject.set_item(object, item, number)?,
        Change::Resize { object, items } => subject.resize(object, items)?,
        Change::Make { class, items } => show_made(rt, subject.make(class, items))?,
        Change::Open { locals } => show_opened(rt, subject.open(locals))?,
        Change::Enter { locals } => show_opened(rt, subject.enter(locals))?,
        Change::Local { slot, number } => subject.set_local(slot, number)?,
        Change::Close => subject.close()?,
        Change::Mark => subject.mark()?,
        Change::Undo => subject.undo(),
        Change::Keep => subject.keep(),
    }
    Ok(())
}

/// Makes the change that a line asks for, and shows the line, what it answers, and the state then.
pub fn make_change(
    rt: &HostRuntime,
    subject: &mut Subject,
    line: &str,
    change: Change,
) -> io::Result<()> {
    print!(rt; "{line} -> ")?;
    apply(rt, subject, change)?;
    subject.show(rt)
}
