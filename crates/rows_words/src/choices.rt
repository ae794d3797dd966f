//! Choices, one after another.

use pz_choice::Chooser;
use std::alloc::{AllocError, Global};
use std::io;
use std::str::Split;

/// The number of a word, or 0.
fn number(word: Option<&str>) -> u64 {
    match word {
        Some(word) => word.parse::<u64>().unwrap_or(0),
        None => 0,
    }
}

fn show_choices(
    rt: &HostRuntime,
    chooser: &mut Chooser,
    offers: u64,
    times: u64,
) -> io::Result<()> {
    if offers == 0 {
        return println!(rt; "no offers");
    }
    for _ in 0..times {
        if let Some(entry) = chooser.ahead() {
            print!(rt; "[{entry}] ")?;
        }
        match chooser.next(offers) {
            Some(choice) => print!(rt; "{choice} ")?,
            None => print!(rt; "none ")?,
        }
    }
    println!(rt;)
}

/// A seed, how many offers there are, and how often one is chosen.
pub fn show_seed(rt: &HostRuntime, words: Split<'_, char>) -> io::Result<()> {
    let mut words = words;
    let mut chooser = Chooser::seed(number(words.next()));
    let offers = number(words.next());
    let times = number(words.next());
    show_choices(rt, &mut chooser, offers, times)
}

fn entries(alloc: Global, list: &str) -> Result<Vec<u64>, AllocError> {
    let mut entries = Vec::new(alloc);
    for word in list.split(',') {
        entries.push(number(Some(word)))?;
    }
    Ok(entries)
}

/// A list of entries, how many offers there are, and how often one is chosen.
pub fn show_list(rt: &HostRuntime, words: Split<'_, char>) -> io::Result<()> {
    let mut words = words;
    let list = entries(rt.alloc(), words.next().unwrap_or(""))?;
    let mut chooser = Chooser::list(list);
    let offers = number(words.next());
    let times = number(words.next());
    show_choices(rt, &mut chooser, offers, times)
}
