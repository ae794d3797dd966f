//! Reads command lines, chooses offers and prints rings, line by line of the input. Nothing is
//! promised here: the output is the test.
//!
//! A line `words W ..` has the words of a command line, and an empty one where two blanks stand
//! together. `seed N OFFERS TIMES` and `list A,B,C OFFERS TIMES` choose so often among so many
//! offers; a list also shows what is left over each time. `make N` prints the model of a ring.
#![tactic(auto)]

mod choices;
mod jobs;

use pz_gen::make;
use pz_words::read_words;
use std::alloc::{AllocError, Global};
use std::io;
use std::str::Split;

/// The words that are left.
fn all(alloc: Global, words: Split<'_, char>) -> Result<Vec<String>, AllocError> {
    let mut list = Vec::new(alloc);
    for word in words {
        list.push(String::from_str(alloc, word)?)?;
    }
    Ok(list)
}

fn show_words(rt: &HostRuntime, words: Split<'_, char>) -> io::Result<()> {
    let words = all(rt.alloc(), words)?;
    match read_words(rt.alloc(), words.as_slice())? {
        Some(job) => jobs::show(rt, &job),
        None => println!(rt; "usage"),
    }
}

fn show_ring(rt: &HostRuntime, size: &str) -> io::Result<()> {
    let n = size.parse::<u32>().unwrap_or(0);
    if n < 2 || n > 1000 {
        return println!(rt; "no ring");
    }
    let text = make(rt.alloc(), n)?;
    match String::from_utf8(text) {
        Ok(text) => print!(rt; "{text}"),
        Err(_) => println!(rt; "no text"),
    }
}

/// Shows what a line asks for.
fn show_row(rt: &HostRuntime, line: &str) -> io::Result<()> {
    println!(rt; "> {line}")?;
    let mut words = line.split(' ');
    match words.next() {
        Some("words") => show_words(rt, words),
        Some("seed") => choices::show_seed(rt, words),
        Some("list") => choices::show_list(rt, words),
        Some("make") => show_ring(rt, words.next().unwrap_or("")),
        _ => println!(rt; "?"),
    }
}

fn main(rt: HostRuntime) -> io::Result<()> {
    for line in rt.lines(rt.alloc()) {
        show_row(&rt, line?.as_str())?;
    }
    Ok(())
}
