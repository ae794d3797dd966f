//! Evaluates the statements of worked methods and prints what is found. Nothing is promised here: the
//! output is the test.
//!
//! `rows_eval FILE ..` answers the questions in the comments of each file. `rows_eval bench ROUNDS`
//! and `rows_eval assign ROUNDS` evaluate a loop of so many rounds.
#![tactic(auto)]

mod bench;
mod questions;
mod reading;
mod showing;
mod statements;

use pz_io::{OsFiles, read_all};
use reading::LIMIT;
use std::{env, io};

/// The answers to the questions of a file.
fn show_file(rt: &HostRuntime, name: &str) -> io::Result<()> {
    match read_all(rt.alloc(), &mut OsFiles::new(*rt), name, LIMIT) {
        Ok(text) => questions::show_answers(rt, text.as_slice()),
        Err(_) => println!(rt; "no file"),
    }
}

/// The answers to the questions of each of these files.
fn show_files(rt: &HostRuntime, names: &[String]) -> io::Result<()> {
    for name in names {
        show_file(rt, name.as_str())?;
    }
    Ok(())
}

fn show(rt: &HostRuntime, words: &[String]) -> io::Result<()> {
    match words {
        [_, job, rounds] if job.as_str() == "bench" => bench::show_bench(rt, rounds.as_str()),
        [_, job, rounds] if job.as_str() == "assign" => {
            bench::show_assignments(rt, rounds.as_str())
        }
        [_, names @ ..] => show_files(rt, names),
        [] => Ok(()),
    }
}

fn main(rt: HostRuntime) -> io::Result<()> {
    let words = env::args(&rt)?.collect::<Vec<String>>(rt.alloc())?;
    show(&rt, words.as_slice())
}
