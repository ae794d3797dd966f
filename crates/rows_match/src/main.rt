//! Tables of pairs, changed and shown line by line of the input. Nothing is promised here: the output
//! is the test.
//!
//! `table N` begins a table of N processes, and the lines behind it are about it. `update P OFFER..`
//! gives a process its offers, and `all FROM TO OFFER..` gives each process from one up to another, which
//! has them no more, the same offers; both show how many pairs are taken then, and how many questions it
//! took. `pairs` shows all taken pairs and the first trouble, `kth K` one pair. `yes`, `no P`, `trouble P`
//! and `mixed S` say what conditions say from now on. `random SEED N` does so many random updates, each held
//! against the pairs that are found plainly; `near SEED N` does such as leave a front and a back of what a
//! process offers, and `calm SEED N` the same without conditions. `rows_match BENCH N TIMES` is a bench:
//! `updates`, `again`, `nearly`, `conditions`, `askers`, `pairs` or `ring`.
#![tactic(auto)]

mod asker;
mod benches;
mod holding;
mod random;
mod showing;
mod updating;

ghost use Rattle.std.specs.Prelude.{◌≡◌, ◌<◌, ◌≤◌, false, length, IfOk, OnOk};

use asker::Asker;
use pz_match::Pairs;
use random::Draw;
use rows_match_plain::{Rule, Wish, wishes};
use std::alloc::{AllocError, Global};
use std::marker::Brand;
use std::str::Split;
use std::sync::ledger::{Blank, Ledger};
use std::{env, io};
use updating::update;

/// The number of a word, or 0.
fn number(word: Option<&str>) -> u32 {
    match word {
        Some(word) => word.parse::<u32>().unwrap_or(0),
        None => 0,
    }
}

/// Each process from one up to another offers these.
fn update_all<L: Ledger>(
    rt: &HostRuntime,
    table: &mut Pairs,
    asker: &mut Asker<L>,
    from: u32,
    to: u32,
    wishes: &[Wish],
) -> io::Result<()>
    requires to { to ≤ length table.old.senders }
    requires there { table.old.lost ≡ false }
    ensures size { OnOk result (length table.new.senders ≡ length table.old.senders) }
    ensures there { OnOk result (table.new.lost ≡ false) }
{
    for process in from..to {
        update(rt.alloc(), table, process, wishes, asker)?;
    }
    let count = table.count();
    let questions = asker.take_questions();
    println!(rt; "taken {count}, questions {questions}")
}

fn show_all<L: Ledger>(
    rt: &HostRuntime,
    table: &mut Pairs,
    asker: &mut Asker<L>,
    processes: u32,
    words: Split<'_, char>,
) -> io::Result<()>
    requires size { length table.old.senders ≡ processes }
    requires there { table.old.lost ≡ false }
    ensures size { OnOk result (length table.new.senders ≡ processes) }
    ensures there { OnOk result (table.new.lost ≡ false) }
{
    let mut words = words;
    let from = number(words.next());
    let to = number(words.next()).min(processes);
    let wishes = wishes(rt.alloc(), words)?;
    update_all(rt, table, asker, from, to, wishes.as_slice())
}

fn show_update<L: Ledger>(
    rt: &HostRuntime,
    table: &mut Pairs,
    asker: &mut Asker<L>,
    processes: u32,
    words: Split<'_, char>,
) -> io::Result<()>
    requires size { length table.old.senders ≡ processes }
    requires there { table.old.lost ≡ false }
    ensures size { OnOk result (length table.new.senders ≡ processes) }
    ensures there { OnOk result (table.new.lost ≡ false) }
{
    let mut words = words;
    let process = number(words.next());
    let wishes = wishes(rt.alloc(), words)?;
    let to = process.saturating_add(1).min(processes);
    update_all(rt, table, asker, process, to, wishes.as_slice())
}

fn show_random<L: Ledger>(
    rt: &HostRuntime,
    table: &mut Pairs,
    asker: &mut Asker<L>,
    processes: u32,
    draw: Draw,
    words: Split<'_, char>,
) -> io::Result<()>
    requires size { length table.old.senders ≡ processes }
    requires there { table.old.lost ≡ false }
    ensures size { OnOk result (length table.new.senders ≡ processes) }
    ensures there { OnOk result (table.new.lost ≡ false) }
{
    let mut words = words;
    let seed = number(words.next());
    let updates = number(words.next());
    if processes < 6 {
        return println!(rt; "too few processes");
    }
    random::show_random(rt, table, asker, draw, seed, updates)
}

/// The rule of a line, if it has one.
fn rule_of(line: &str) -> Option<Rule> {
    let mut words = line.split(' ');
    match words.next()? {
        "yes" => Some(Rule::Yes),
        "no" => Some(Rule::NoTo(number(words.next()))),
        "trouble" => Some(Rule::TroubleOf(number(words.next()))),
        "mixed" => Some(Rule::Mixed(number(words.next()))),
        _ => None,
    }
}

/// What the random updates of a line draw, if it begins with the word for some.
fn draw_of(word: Option<&str>) -> Option<Draw> {
    match word? {
        "random" => Some(Draw::Other),
        "near" => Some(Draw::Near),
        "calm" => Some(Draw::Calm),
        _ => None,
    }
}

/// Does what a line says of a table, which begins with this word, for no random updates.
fn show_words<L: Ledger>(
    rt: &HostRuntime,
    table: &mut Pairs,
    asker: &mut Asker<L>,
    processes: u32,
    word: Option<&str>,
    words: Split<'_, char>,
) -> io::Result<()>
    requires size { length table.old.senders ≡ processes }
    requires there { table.old.lost ≡ false }
    ensures size { OnOk result (length table.new.senders ≡ processes) }
    ensures there { OnOk result (table.new.lost ≡ false) }
{
    match word {
        Some("update") => show_update(rt, table, asker, processes, words),
        Some("all") => show_all(rt, table, asker, processes, words),
        Some("kth") => show_kth(rt, table, words),
        Some("pairs") => showing::show_pairs(rt, table),
        _ => println!(rt; "?"),
    }
}

/// The pair with the number that is the next word.
fn show_kth(rt: &HostRuntime, table: &Pairs, words: Split<'_, char>) -> io::Result<()>
    requires { table.now.lost ≡ false }
{
    let mut words = words;
    showing::show_kth(rt, table, u64::from(number(words.next())))
}

/// Does what a line says of a table.
fn show_line<L: Ledger>(
    rt: &HostRuntime,
    table: &mut Pairs,
    asker: &mut Asker<L>,
    processes: u32,
    line: &str,
) -> io::Result<()>
    requires size { length table.old.senders ≡ processes }
    requires there { table.old.lost ≡ false }
    ensures size { OnOk result (length table.new.senders ≡ processes) }
    ensures there { OnOk result (table.new.lost ≡ false) }
{
    let mut words = line.split(' ');
    let word = words.next();
    match draw_of(word) {
        Some(draw) => show_random(rt, table, asker, processes, draw, words),
        None => show_words(rt, table, asker, processes, word, words),
    }
}

/// Another table, of so many processes, takes the place of this one.
fn begin(alloc: Global, table: &mut Pairs, processes: u32) -> Result<(), AllocError>
    ensures size { OnOk result (length table.new.senders ≡ processes) }
    ensures there { OnOk result (table.new.lost ≡ false) }
{
    *table = Pairs::new(alloc, processes)?;
    Ok(())
}

/// Does what a line says of a table of so many processes; how many the table has behind it.
fn show_row<L: Ledger>(
    rt: &HostRuntime,
    table: &mut Pairs,
    asker: &mut Asker<L>,
    processes: u32,
    line: &str,
) -> io::Result<u32>
    requires size { length table.old.senders ≡ processes }
    requires there { table.old.lost ≡ false }
    ensures size { IfOk result (λ n. length table.new.senders ≡ n) }
    ensures there { OnOk result (table.new.lost ≡ false) }
{
    println!(rt; "> {line}")?;
    if let Some(rule) = rule_of(line) {
        asker.rule = rule;
        return Ok(processes);
    }
    if let Some(size) = line.strip_prefix("table ") {
        let size = number(Some(size));
        begin(rt.alloc(), table, size)?;
        return Ok(size);
    }
    show_line(rt, table, asker, processes, line)?;
    Ok(processes)
}

/// Does what each line says.
fn show_rows<L: Ledger>(rt: &HostRuntime, table: &mut Pairs, asker: &mut Asker<L>) -> io::Result<()>
    requires size { length table.old.senders ≡ 0 }
    requires there { table.old.lost ≡ false }
{
    let mut processes = 0;
    for line in rt.lines(rt.alloc()) {
        processes = show_row(rt, table, asker, processes, line?.as_str())?;
    }
    Ok(())
}

/// The rows, with a judge that counts in this ledger.
fn show<L: Ledger>(rt: &HostRuntime, ledger: Blank) -> io::Result<()>
    requires name { ledger.name ≡ L.name }
    requires parts { ledger.parts ≡ L.parts }
    requires some { 0 < L.parts }
{
    let mut asker = Asker::<L>::new(ledger);
    let mut table = Pairs::new(rt.alloc(), 0)?;
    show_rows(rt, &mut table, &mut asker)
}

/// A bench, with such a judge: which one, how many processes, and how often.
fn time<L: Ledger>(rt: &HostRuntime, ledger: Blank, words: &[String]) -> io::Result<()>
    requires name { ledger.name ≡ L.name }
    requires parts { ledger.parts ≡ L.parts }
    requires some { 0 < L.parts }
{
    let [_, bench, size, times] = words else {
        return Ok(());
    };
    let mut asker = Asker::<L>::new(ledger);
    let size = number(Some(size.as_str())).min(100_000);
    let times = number(Some(times.as_str()));
    let mut table = Pairs::new(rt.alloc(), size + 1)?;
    benches::show(rt, &mut table, &mut asker, bench.as_str(), size, times)
}

fn main(rt: HostRuntime) -> io::Result<()> {
    let words = env::args(&rt)?.collect::<Vec<String>>(rt.alloc())?;
    if words.len() == 4 {
        time::<Brand>(&rt, Blank::new(1), words.as_slice())
    } else {
        show::<Brand>(&rt, Blank::new(1))
    }
}
