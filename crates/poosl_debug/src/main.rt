// Does what the commands of a file ask for, in a session on a model, and prints the replies.
#![tactic(auto)]

use pz_debug::run_debug;
use pz_io::{OsFiles, OsSink};
use std::env;
use std::process::ExitCode;

// The exit status where the words of the command line cannot be had; no answer of the program has it.
const NO_WORDS: u8 = 99;

fn main(rt: HostRuntime) -> ExitCode {
    let Ok(mut all) = env::args(&rt) else {
        return ExitCode::from(NO_WORDS);
    };
    let _program = all.next();
    let Ok(words) = all.collect::<Vec<String>>(rt.alloc()) else {
        return ExitCode::from(NO_WORDS);
    };
    let mut files = OsFiles::new(rt);
    let mut out = OsSink::new(rt);
    let status = run_debug(rt.alloc(), &words, &mut files, &mut out);
    ExitCode::from(status.number())
}
