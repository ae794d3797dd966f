//! Takes simulators step by step through models, and shows after each step what they answered,
//! the clock, the moment and the offers. Nothing is promised here: the output is the test.
//!
//! A line `MODEL STEP ..` of the input names a file and steps: a number chooses the offer of this number,
//! `pass` lets time pass, and `values` shows what variables hold. A line `drawn MODEL EVENTS SEED` plays so many events
//! of a model, of whose offers a seed draws, and `ring STATIONS EVENTS SEED` those of a ring, in the second edition.
//! The word `second` before a model or `drawn` asks for the second edition of the rules, in which a call without inputs
//! and results is no action; the word `trees` before a line asks for the simulator over execution trees. With the
//! arguments `ring STATIONS EVENTS` it plays so many events of a ring, of the offers always the first, on the plain
//! simulator.
#![tactic(auto)]

mod models;
mod offers;
mod plays;
mod rows;
mod values;

use std::{env, io};

fn show_rows(rt: &HostRuntime) -> io::Result<()> {
    for line in rt.lines(rt.alloc()) {
        rows::show_row(rt, line?.as_str())?;
    }
    Ok(())
}

fn main(rt: HostRuntime) -> io::Result<()> {
    let words = env::args(&rt)?.collect::<Vec<String>>(rt.alloc())?;
    match words.as_slice() {
        [_, job, stations, events] if job.as_str() == "ring" => {
            rows::show_ring(&rt, stations.as_str(), events.as_str())
        }
        _ => show_rows(&rt),
    }
}
