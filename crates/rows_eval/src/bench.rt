//! Loops to be timed.

use crate::questions::show_answers;
use std::io;

/// Evaluates a loop of so many rounds, each of twelve units. It stands in a block, which is evaluated once.
pub fn show_bench(rt: &HostRuntime, rounds: &str) -> io::Result<()> {
    let alloc = rt.alloc();
    let text = format!(in alloc;
        "data class D\nmethods count(n : Integer) : Integer | i, s : Integer | i := 0; s := 0; while i < n do s := s + i; i := i + 1 od; s\nprocess class P\nvariables d : D\ninit run()()\nmethods run()() {{ new(D) count({rounds}) }}\nsystem instances p : P\n//? run 18446744073709551615 10\n"
    )?;
    show_answers(rt, text.as_bytes())
}

/// Evaluates a loop of so many rounds, each of seven units, that gives a variable of the process another
/// value each time. It stands in a block, which is evaluated once, so a mark is open.
pub fn show_assignments(rt: &HostRuntime, rounds: &str) -> io::Result<()> {
    let alloc = rt.alloc();
    let text = format!(in alloc;
        "process class P\nvariables i : Integer\ninit run()()\nmethods run()() {{ i := 0; while i < {rounds} do i := i + 1 od }}\nsystem instances p : P\n//? run 18446744073709551615 10\n"
    )?;
    show_answers(rt, text.as_bytes())
}
