//! Changes of a state under a mark, to be timed.

ghost use Rattle.std.specs.Prelude.{◌<◌};

use crate::subject::Subject;
use std::alloc::AllocError;
use std::io;

/// Eight changes of eight sorts.
fn change_all(subject: &mut Subject, round: u32, object: u32) -> Result<(), AllocError> {
    let number = i64::from(round);
    subject.set_variable(0, number)?;
    subject.set_item(object, 0, number)?;
    subject.resize(object, 4)?;
    subject.resize(object, 2)?;
    let _made = subject.make(1, 2);
    let _frame = subject.enter(2)?;
    subject.set_local(0, number)?;
    subject.close()
}

/// So many objects.
fn make_all(subject: &mut Subject, size: u32) {
    for _ in 0..size {
        let _made = subject.make(1, 2);
    }
}

/// So many changes, each in the next of so many objects.
fn change_often(subject: &mut Subject, size: u32, changes: u32) -> Result<(), AllocError>
    requires { 0 < size }
{
    for round in 0..changes / 8 {
        change_all(subject, round, round % size)?;
    }
    Ok(())
}

/// Changes of a state with so many objects, and their undoing.
fn mixed(rt: &HostRuntime, subject: &mut Subject, size: u32, changes: u32) -> io::Result<()>
    requires { 0 < size }
{
    make_all(subject, size);
    subject.mark()?;
    change_often(subject, size, changes)?;
    let most = subject.objects();
    subject.undo();
    let left = subject.objects();
    println!(rt; "{most} objects, and {left} once all is undone")
}

/// So many frames.
fn open_all(subject: &mut Subject, size: u32) -> Result<(), AllocError> {
    for _ in 0..size {
        let _other = subject.open(1)?;
    }
    Ok(())
}

/// The named frame is closed and another one opened, again and again.
fn reopen_often(subject: &mut Subject, changes: u32) -> Result<(), AllocError> {
    for _ in 0..changes / 2 {
        subject.close()?;
        let _least = subject.enter(1)?;
    }
    Ok(())
}

/// The least frame of so many is closed and opened again and again, and all is undone.
fn frames(rt: &HostRuntime, subject: &mut Subject, size: u32, changes: u32) -> io::Result<()> {
    let _least = subject.enter(1)?;
    open_all(subject, size)?;
    subject.mark()?;
    reopen_often(subject, changes)?;
    let next = subject.open(1)?.0;
    subject.undo();
    println!(rt; "the next frame was {next}")
}

/// One of the benches, with a state of one variable.
fn change(
    rt: &HostRuntime,
    subject: &mut Subject,
    bench: &str,
    size: u32,
    changes: u32,
) -> io::Result<()>
    requires { 0 < size }
{
    match bench {
        "mixed" => mixed(rt, subject, size, changes),
        "frames" => frames(rt, subject, size, changes),
        _ => println!(rt; "no bench"),
    }
}

/// One of the benches: how much there is before, and how many changes are made.
pub fn show_bench(rt: &HostRuntime, bench: &str, size: &str, changes: &str) -> io::Result<()> {
    let size = size.parse::<u32>().unwrap_or(1).max(1);
    let changes = changes.parse::<u32>().unwrap_or(0);
    let mut subject = Subject::new(rt.alloc(), 1)?;
    change(rt, &mut subject, bench, size, changes)
}
