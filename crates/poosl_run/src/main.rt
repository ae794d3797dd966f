// Runs a model and prints its trace, or checks it and prints how large it is.
#![tactic(auto)]

use pz_io::{OsFiles, OsSink};
use pz_run::run_program;
use std::env;
use std::process::ExitCode;

// The exit status where the words of the command line cannot be had; no answer of the program has it.
const NO_WORDS: u8 = 99;

fn main(rt: HostRuntime) -> ExitCode {
    let Ok(mut all) = env::args(&rt) else {
        return ExitCode::from(NO_WORDS);
    };
    let _program = all.next();
    let Ok(words) = all.collect::<Vec<String>>(rt.alloc()) else {
        return ExitCode::from(NO_WORDS);
    };
    let mut files = OsFiles::new(rt);
    let mut out = OsSink::new(rt);
    let finish = run_program(rt.alloc(), &words, &mut files, &mut out);
    ExitCode::from(finish.status.number())
}
