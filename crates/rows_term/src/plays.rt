//! Steps of a simulator.

ghost use Rattle.std.specs.Prelude.{◌≡◌, ◌<◌, ◌^◌, true};
ghost use Rattle.pz_sim.specs.pz_term_simulator.Simulations.{clock_in};

use crate::offers::{show_moment, show_offers};
use crate::values::show_values;
use pz_choice::Chooser;
use pz_term::{Moment, Simulator, Steps};
use std::io;
use std::sync::ledger::Ledger;

/// How a model is played.
#[derive(Clone, Copy)]
pub enum Play<'a> {
    /// These steps, with blanks between them, and all that is there after each.
    Steps(&'a str),
    /// So many events, each time the first offer, or one that a seed draws; shown is how many of them were actions,
    /// and what is there at the end.
    Events { count: u64, seed: Option<u64> },
}

fn choose<S: Simulator, L: Ledger>(
    rt: &HostRuntime,
    sim: &mut S,
    word: &str,
    steps: &mut Steps<L>,
) -> io::Result<()> {
    let Ok(number) = word.parse::<u64>() else {
        return println!(rt; "no step: {word}");
    };
    let answer = sim.choose(number, steps);
    println!(rt; "choose {number}: {answer:?}")
}

// Whether the clock is low enough for time to pass.
fn is_low<S: Simulator>(sim: &S) -> bool
    ensures { result ≡ true → clock_in (S.simulation sim.now) < 2 ^ 127 }
{
    sim.clock() <= u128::MAX / 2
}

fn pass<S: Simulator, L: Ledger>(
    rt: &HostRuntime,
    sim: &mut S,
    steps: &mut Steps<L>,
) -> io::Result<()> {
    if !is_low(sim) {
        return println!(rt; "pass: the clock is too high");
    }
    let answer = sim.pass(steps);
    println!(rt; "pass: {answer:?}")
}

fn show_copies<S: Simulator>(rt: &HostRuntime, sim: &S) -> io::Result<()> {
    println!(rt; "copies")?;
    show_offers(rt, sim)
}

fn take_step<S: Simulator, L: Ledger>(
    rt: &HostRuntime,
    sim: &mut S,
    word: &str,
    steps: &mut Steps<L>,
) -> io::Result<()> {
    match word {
        "pass" => pass(rt, sim, steps),
        "copies" => show_copies(rt, sim),
        "values" => show_values(rt, sim),
        _ => choose(rt, sim, word, steps),
    }
}

fn show_step<S: Simulator, L: Ledger>(
    rt: &HostRuntime,
    sim: &mut S,
    word: &str,
    steps: &mut Steps<L>,
) -> io::Result<()> {
    take_step(rt, sim, word, steps)?;
    show_moment(rt, sim)
}

fn show_steps<S: Simulator, L: Ledger>(
    rt: &HostRuntime,
    sim: &mut S,
    words: &str,
    steps: &mut Steps<L>,
) -> io::Result<()> {
    show_moment(rt, sim)?;
    for word in words.split(' ') {
        show_step(rt, sim, word, steps)?;
    }
    Ok(())
}

fn take_drawn<S: Simulator, L: Ledger>(
    sim: &mut S,
    offers: u64,
    chooser: &mut Chooser,
    steps: &mut Steps<L>,
) -> bool {
    if offers == 0 {
        return false;
    }
    match chooser.next(offers) {
        Some(number) => sim.choose(number, steps).is_ok(),
        None => false,
    }
}

// An offer is taken, or time passes. Whether an action was taken.
fn go_on<S: Simulator, L: Ledger>(
    sim: &mut S,
    chooser: &mut Chooser,
    steps: &mut Steps<L>,
) -> bool {
    match sim.moment() {
        Moment::Actions(offers) => take_drawn(sim, offers, chooser, steps),
        Moment::Time(_) => {
            if is_low(sim) {
                let _passed = sim.pass(steps);
            }
            false
        }
        _ => false,
    }
}

fn chooser_of(seed: Option<u64>) -> Chooser {
    match seed {
        Some(seed) => Chooser::seed(seed),
        None => Chooser::first(),
    }
}

fn show_events<S: Simulator, L: Ledger>(
    rt: &HostRuntime,
    sim: &mut S,
    events: u64,
    seed: Option<u64>,
    steps: &mut Steps<L>,
) -> io::Result<()> {
    let mut chooser = chooser_of(seed);
    let mut actions: u64 = 0;
    for _ in 0..events {
        if go_on(sim, &mut chooser, steps) {
            actions = actions.saturating_add(1);
        }
    }
    let clock = sim.clock();
    println!(rt; "{actions} actions to clock {clock}")?;
    show_moment(rt, sim)
}

/// Plays a model from where a simulator stands.
pub fn show_play<S: Simulator, L: Ledger>(
    rt: &HostRuntime,
    sim: &mut S,
    play: Play<'_>,
    steps: &mut Steps<L>,
) -> io::Result<()> {
    match play {
        Play::Steps(words) => show_steps(rt, sim, words, steps),
        Play::Events { count, seed } => show_events(rt, sim, count, seed, steps),
    }
}
