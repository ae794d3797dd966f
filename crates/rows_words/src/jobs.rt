//! Jobs as lines.

use pz_words::{Choice, Job, RunLimits};
use std::io;

fn show_choice(rt: &HostRuntime, choice: &Choice) -> io::Result<()> {
    match choice {
        Choice::First => print!(rt; " first"),
        Choice::Seed(seed) => print!(rt; " seed {seed}"),
        Choice::List(entries) => {
            let entries = entries.as_slice();
            print!(rt; " list {entries:?}")
        }
    }
}

fn show_limits(rt: &HostRuntime, limits: &RunLimits) -> io::Result<()> {
    let RunLimits {
        steps,
        until,
        units,
    } = *limits;
    match until {
        Some(until) => print!(rt; " steps {steps} until {until} units {units}"),
        None => print!(rt; " steps {steps} units {units}"),
    }
}

pub fn show(rt: &HostRuntime, job: &Job) -> io::Result<()> {
    match job {
        Job::Run {
            model,
            choice,
            limits,
            summary,
        } => {
            let name = model.as_str();
            print!(rt; "run {name}")?;
            show_choice(rt, choice)?;
            show_limits(rt, limits)?;
            if *summary {
                print!(rt; " summary")?;
            }
        }
        Job::Menu {
            model,
            choice,
            limits,
        } => {
            let name = model.as_str();
            print!(rt; "menu {name}")?;
            show_choice(rt, choice)?;
            show_limits(rt, limits)?;
        }
        Job::Replay {
            model,
            trace,
            units,
        } => {
            let name = model.as_str();
            let trace = trace.as_str();
            print!(rt; "replay {name} {trace} units {units}")?;
        }
        Job::Check { model } => {
            let name = model.as_str();
            print!(rt; "check {name}")?;
        }
        Job::Make { n } => print!(rt; "make {n}")?,
        Job::Ring { n, choice, limits } => {
            print!(rt; "ring {n}")?;
            show_choice(rt, choice)?;
            show_limits(rt, limits)?;
        }
        Job::Format { model } => {
            let name = model.as_str();
            print!(rt; "format {name}")?;
        }
        Job::Watch {
            model,
            watches,
            choice,
            limits,
        } => {
            let name = model.as_str();
            let watches = watches.as_str();
            print!(rt; "watch {name} {watches}")?;
            show_choice(rt, choice)?;
            show_limits(rt, limits)?;
        }
        Job::Drive {
            model,
            script,
            choice,
            limits,
        } => {
            let name = model.as_str();
            let script = script.as_str();
            print!(rt; "drive {name} {script}")?;
            show_choice(rt, choice)?;
            show_limits(rt, limits)?;
        }
    }
    println!(rt;)
}
