//! From a text to the simulator of its model.

ghost use Rattle.std.specs.Prelude.{◌≡◌, ◌<◌};
ghost use Rattle.pz_bind.specs.pz_classes.CheckedView.{checked_model};
ghost use Rattle.pz_classes_openings.specs.OpeningRules.{Opens};
ghost use Rattle.pz_bind.specs.devices.Nets.{IsNet};

use crate::plays::{Play, show_play};
use pz_bind::Net;
use pz_bind::pz_classes::Checked;
use pz_run_reading::{open_model, read_model};
use pz_sim::Sim;
use pz_term::{Edition, Limits, Plain, Simulator, Steps};
use std::io;
use std::marker::Brand;
use std::mem::drop;
use std::sync::ledger::{Blank, Ledger};

/// The most bytes of a text.
pub const LIMIT: usize = 1_048_576;

/// What an evaluation and a term may take, and by which rules.
const FIRST: Limits = Limits {
    units: 100_000,
    depth: 400,
    height: 1_000,
    edition: Edition::One,
};

/// The same in the second edition.
const SECOND: Limits = Limits {
    units: 100_000,
    depth: 20_000,
    height: 1_000,
    edition: Edition::Two,
};

/// Which simulator is taken.
#[derive(Clone, Copy)]
pub enum Engine {
    /// That which finds all anew at each moment.
    Plain,
    /// That over execution trees.
    Trees,
}

// The one owner of a simulator, which is long to drop.
fn show_on<S: Simulator + Drop, L: Ledger>(
    rt: &HostRuntime,
    mut sim: S,
    play: Play<'_>,
    ledger: Blank,
) -> io::Result<()>
    requires name { ledger.name ≡ L.name }
    requires parts { ledger.parts ≡ L.parts }
    requires some { 0 < L.parts }
{
    let mut steps = Steps::<L>::new(ledger);
    let answer = show_play(rt, &mut sim, play, &mut steps);
    drop(sim);
    answer
}

fn show_net(
    rt: &HostRuntime,
    checked: Checked,
    net: Net,
    limits: Limits,
    play: Play<'_>,
) -> io::Result<()>
    requires of_model { ∥ IsNet (checked_model checked) net ∥₁ }
    requires opens { limits.edition ≡ Edition.Two → Opens (checked_model checked) }
{
    match Plain::start(rt.alloc(), checked, net, limits) {
        Ok(plain) => show_on::<Plain, Brand>(rt, plain, play, Blank::new(1)),
        Err(_) => println!(rt; "no memory"),
    }
}

fn show_net_on_trees(
    rt: &HostRuntime,
    checked: Checked,
    net: Net,
    limits: Limits,
    play: Play<'_>,
) -> io::Result<()>
    requires of_model { ∥ IsNet (checked_model checked) net ∥₁ }
    requires opens { limits.edition ≡ Edition.Two → Opens (checked_model checked) }
{
    match Sim::start(rt.alloc(), checked, net, limits) {
        Ok(sim) => show_on::<Sim, Brand>(rt, sim, play, Blank::new(1)),
        Err(_) => println!(rt; "no memory"),
    }
}

fn show_model(
    rt: &HostRuntime,
    checked: Checked,
    limits: Limits,
    engine: Engine,
    play: Play<'_>,
) -> io::Result<()>
    requires opens { limits.edition ≡ Edition.Two → Opens (checked_model checked) }
{
    match (Net::flatten(rt.alloc(), &checked), engine) {
        (Ok(net), Engine::Plain) => show_net(rt, checked, net, limits, play),
        (Ok(net), Engine::Trees) => show_net_on_trees(rt, checked, net, limits, play),
        (Err(_), _) => println!(rt; "no memory"),
    }
}

// A model runs by the second edition only where it opens.
fn show_open(rt: &HostRuntime, checked: Checked, engine: Engine, play: Play<'_>) -> io::Result<()> {
    match open_model(rt.alloc(), &checked) {
        Ok(()) => show_model(rt, checked, SECOND, engine, play),
        Err(error) => println!(rt; "no model: {error:?}"),
    }
}

/// Plays the model of a text from its start, by the rules of an edition.
pub fn show_text(
    rt: &HostRuntime,
    text: &[u8],
    edition: Edition,
    engine: Engine,
    play: Play<'_>,
) -> io::Result<()> {
    if text.len() > LIMIT {
        return println!(rt; "too long");
    }
    match (read_model(rt.alloc(), text), edition) {
        (Ok(checked), Edition::One) => show_model(rt, checked, FIRST, engine, play),
        (Ok(checked), Edition::Two) => show_open(rt, checked, engine, play),
        (Err(error), _) => println!(rt; "no model: {error:?}"),
    }
}
