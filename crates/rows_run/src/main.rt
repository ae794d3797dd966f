//! Gives command lines to the program, and prints what it prints for each, and how it ends.
//! Nothing is promised here: the output is the test, also of the models that stand in `models/`.
#![tactic(auto)]

use pz_io::{OsFiles, OsSink};
use pz_run::run_program;
use std::alloc::{AllocError, Global};
use std::io;

// The words of a command line, with one blank between them.
fn words_of(alloc: Global, line: &str) -> Result<Vec<String>, AllocError> {
    let mut words = Vec::new(alloc);
    for word in line.split(' ') {
        words.push(String::from_str(alloc, word)?)?;
    }
    Ok(words)
}

fn show(rt: &HostRuntime, line: &str) -> io::Result<()> {
    println!(rt; "$ {line}")?;
    let words = words_of(rt.alloc(), line)?;
    let mut files = OsFiles::new(*rt);
    let mut out = OsSink::new(*rt);
    let finish = run_program(rt.alloc(), &words, &mut files, &mut out);
    println!(rt; "{:?}", finish.status)
}

fn main(rt: HostRuntime) -> io::Result<()> {
    for line in rt.lines(rt.alloc()) {
        show(&rt, line?.as_str())?;
    }
    Ok(())
}
