//! What is asked for, by a line of the input or by the arguments.

use crate::models::{Engine, LIMIT, show_text};
use crate::plays::Play;
use pz_gen::make;
use pz_io::{OsFiles, read_all};
use pz_term::Edition;
use std::io;

fn show_file(
    rt: &HostRuntime,
    name: &str,
    edition: Edition,
    engine: Engine,
    play: Play<'_>,
) -> io::Result<()> {
    match read_all(rt.alloc(), &mut OsFiles::new(*rt), name, LIMIT) {
        Ok(text) => show_text(rt, text.as_slice(), edition, engine, play),
        Err(_) => println!(rt; "no file"),
    }
}

fn show_words(rt: &HostRuntime, words: &str, edition: Edition, engine: Engine) -> io::Result<()> {
    match words.split_once(' ') {
        Some(("drawn", words)) => show_drawn(rt, words, edition, engine),
        Some((name, steps)) => show_file(rt, name, edition, engine, Play::Steps(steps)),
        None => println!(rt; "no steps"),
    }
}

// `EVENTS SEED`.
fn drawn(words: &str) -> Play<'_> {
    let (count, seed) = words.split_once(' ').unwrap_or(("", ""));
    Play::Events {
        count: count.parse::<u64>().unwrap_or(0),
        seed: seed.parse::<u64>().ok(),
    }
}

// `MODEL EVENTS SEED`.
fn show_drawn(rt: &HostRuntime, words: &str, edition: Edition, engine: Engine) -> io::Result<()> {
    match words.split_once(' ') {
        Some((name, words)) => show_file(rt, name, edition, engine, drawn(words)),
        None => println!(rt; "no steps"),
    }
}

// A ring of so many stations, as it is made.
fn play_ring(
    rt: &HostRuntime,
    stations: &str,
    edition: Edition,
    engine: Engine,
    play: Play<'_>,
) -> io::Result<()> {
    let stations = stations.parse::<u32>().unwrap_or(0);
    if stations < 2 || stations > 1000 {
        return println!(rt; "no ring");
    }
    let text = make(rt.alloc(), stations)?;
    show_text(rt, text.as_slice(), edition, engine, play)
}

// `STATIONS EVENTS SEED`, in the second edition.
fn show_drawn_ring(rt: &HostRuntime, words: &str, engine: Engine) -> io::Result<()> {
    match words.split_once(' ') {
        Some((stations, words)) => play_ring(rt, stations, Edition::Two, engine, drawn(words)),
        None => println!(rt; "no steps"),
    }
}

fn show_line(rt: &HostRuntime, line: &str, engine: Engine) -> io::Result<()> {
    match line.split_once(' ') {
        Some(("second", words)) => show_words(rt, words, Edition::Two, engine),
        Some(("ring", words)) => show_drawn_ring(rt, words, engine),
        _ => show_words(rt, line, Edition::One, engine),
    }
}

/// Shows what a line asks for.
pub fn show_row(rt: &HostRuntime, line: &str) -> io::Result<()> {
    println!(rt; "> {line}")?;
    match line.split_once(' ') {
        Some(("trees", words)) => show_line(rt, words, Engine::Trees),
        _ => show_line(rt, line, Engine::Plain),
    }
}

/// Shows how far so many events lead in a ring of so many stations, each time by the first offer.
pub fn show_ring(rt: &HostRuntime, stations: &str, events: &str) -> io::Result<()> {
    let count = events.parse::<u64>().unwrap_or(0);
    let play = Play::Events { count, seed: None };
    play_ring(rt, stations, Edition::One, Engine::Plain, play)
}
