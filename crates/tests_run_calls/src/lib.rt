//! Calls of the program over files and outputs in memory, and what they are expected to print.
#![tactic(auto)]

use pz_io::{Files, MemFiles, RoomySink, Sink};
use pz_run::{Finish, run_program};
use std::alloc::{AllocError, Global};
use std::fmt::{self, Display, Formatter, Write};
use std::test::Fail;

/// A process that skips, lets three clock units pass, and skips.
pub const MODEL: &str =
    "process class P\ninit a()()\nmethods a()()\nskip;\ndelay 3;\nskip\nsystem instances p : P\n";

/// The trace of its one run.
pub const TRACE: &str =
    "poosl-trace 3 100000\n0 1 0 p skip 4:1\n0 time 3\n3 1 0 p expire 5:1\n3 1 0 p skip 6:1\n3 end\n";

// The words of a command line, with one blank between them.
fn words_of(alloc: Global, line: &str) -> Result<Vec<String>, AllocError> {
    let mut words = Vec::new(alloc);
    for word in line.split(' ') {
        words.push(String::from_str(alloc, word)?)?;
    }
    Ok(words)
}

/// The files with one model, named `m`, blanks behind its text up to a length. The only error is want
/// of memory.
pub fn one_file(alloc: Global, text: &str, length: usize) -> Result<MemFiles, AllocError> {
    let mut bytes = text.as_bytes().to_vec(alloc)?;
    let first = bytes.len();
    for _ in first..length {
        bytes.push(b' ')?;
    }
    let name = String::from_str(alloc, "m")?;
    Ok(MemFiles::new(vec![in alloc; (name, bytes)]?))
}

/// Calls the program with these words. The only error is want of memory.
pub fn finish<F: Files, W: Sink>(
    alloc: Global,
    line: &str,
    files: &mut F,
    out: &mut W,
) -> Result<Finish, AllocError> {
    let words = words_of(alloc, line)?;
    Ok(run_program(alloc, &words, files, out))
}

/// The same, and gives its exit status.
pub fn call<F: Files, W: Sink>(
    alloc: Global,
    line: &str,
    files: &mut F,
    out: &mut W,
) -> Result<u8, AllocError> {
    let finish = finish(alloc, line, files, out)?;
    Ok(finish.status.number())
}

// An answer that was not expected: the words of the call, its status and what it printed.
#[derive(Drop)]
struct Unexpected<'a> {
    line: &'a str,
    status: u8,
    output: &'a [u8],
}

impl<'a> Display for Unexpected<'a> {
    fn fmt<W: Write>(&self, f: &mut Formatter<W>) -> fmt::Result {
        write!(f, "{}: status {}", self.line, self.status)?;
        match str::from_utf8(self.output) {
            Ok(text) => write!(f, ", {}", text),
            Err(_) => write!(f, ", and no text"),
        }
    }
}

/// The same, and fails where the status or what is printed is another. The listed writes fail.
pub fn expect_through<F: Files>(
    alloc: Global,
    line: &str,
    files: &mut F,
    writes: Vec<u64>,
    status: u8,
    output: &[u8],
) -> Result<(), Fail> {
    let mut out = RoomySink::new(alloc, 100_000, writes)?;
    let answer = call(alloc, line, files, &mut out)?;
    if answer == status && out.bytes() == output {
        return Ok(());
    }
    Err(Fail::new(Unexpected {
        line,
        status: answer,
        output: out.bytes(),
    }))
}

/// The same where no write fails.
pub fn expect<F: Files>(
    alloc: Global,
    line: &str,
    files: &mut F,
    status: u8,
    output: &str,
) -> Result<(), Fail> {
    let none = Vec::new(alloc);
    expect_through(alloc, line, files, none, status, output.as_bytes())
}
