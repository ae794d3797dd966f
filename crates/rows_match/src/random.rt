//! Random updates.

ghost use Rattle.std.specs.Prelude.{◌≡◌, ◌<◌, ◌≤◌, false, length, OnOk};

use crate::asker::Asker;
use crate::holding::{Tally, compare};
use crate::updating::update;
use pz_match::Pairs;
use rows_match_plain::{Dice, Kind, Rule, Stand, Wish, couples, replaced};
use std::alloc::{AllocError, Global};
use std::io;
use std::sync::ledger::Ledger;

fn both(first: Tally, second: Tally) -> Tally {
    Tally {
        taken: first.taken.saturating_add(second.taken),
        troubled: first.troubled.saturating_add(second.troubled),
        questions: first.questions.saturating_add(second.questions),
        wrong: first.wrong.saturating_add(second.wrong),
    }
}

/// What a process is to offer next.
#[derive(Clone, Copy)]
pub enum Draw {
    /// Something else.
    Other,
    /// A front and a back of what it offers, and half the time something else between them.
    Near,
    /// The same without conditions.
    Calm,
}

/// What a process offers.
fn offered(alloc: Global, stands: &[Stand], process: u32) -> Result<Vec<Wish>, AllocError> {
    let mut wishes = Vec::new(alloc);
    for stand in stands {
        if stand.spot.process == process {
            wishes.push(stand.wish)?;
        }
    }
    Ok(wishes)
}

/// A front and a back of these, and half the time others between them.
fn near(alloc: Global, old: &[Wish], dice: &mut Dice) -> Result<Vec<Wish>, AllocError> {
    let size = u32::try_from(old.len()).unwrap_or(0).saturating_add(1);
    let front = dice.draw(size.max(1));
    let back = dice.draw(size.saturating_sub(front).max(1));
    let mut wishes = Vec::new(alloc);
    wishes.extend(old.iter().copied().take(front as usize))?;
    if dice.draw(2) == 0 {
        wishes.extend(dice.wishes(alloc)?)?;
    }
    wishes.extend(
        old.iter()
            .copied()
            .skip(old.len().saturating_sub(back as usize)),
    )?;
    Ok(wishes)
}

/// These without conditions.
fn calm(alloc: Global, wishes: &[Wish]) -> Result<Vec<Wish>, AllocError> {
    let mut calmed = Vec::new(alloc);
    for wish in wishes {
        let kind = match wish.kind {
            Kind::Send => Kind::Send,
            Kind::Receive | Kind::Asking => Kind::Receive,
        };
        calmed.push(Wish { kind, ..*wish })?;
    }
    Ok(calmed)
}

/// What this process is to offer next.
fn drawn(
    alloc: Global,
    draw: Draw,
    stands: &[Stand],
    process: u32,
    dice: &mut Dice,
) -> Result<Vec<Wish>, AllocError> {
    let old = offered(alloc, stands, process)?;
    match draw {
        Draw::Other => dice.wishes(alloc),
        Draw::Near => near(alloc, old.as_slice(), dice),
        Draw::Calm => calm(alloc, near(alloc, old.as_slice(), dice)?.as_slice()),
    }
}

/// One update of one of six processes, and the comparison.
fn update_one<L: Ledger>(
    alloc: Global,
    table: &mut Pairs,
    asker: &mut Asker<L>,
    stands: &mut Vec<Stand>,
    dice: &mut Dice,
    draw: Draw,
    number: u32,
) -> Result<Tally, AllocError>
    requires size { 6 ≤ length table.old.senders }
    requires there { table.old.lost ≡ false }
    ensures size { OnOk result (length table.new.senders ≡ length table.old.senders) }
    ensures there { OnOk result (table.new.lost ≡ false) }
{
    let process = dice.draw(6);
    let wishes = drawn(alloc, draw, stands.as_slice(), process, dice)?;
    let next = replaced(alloc, stands.as_slice(), process, wishes.as_slice(), number)?;
    asker.rule = Rule::Mixed(number);
    update(alloc, table, process, wishes.as_slice(), asker)?;
    let couples = couples(alloc, next.as_slice(), 3)?;
    *stands = next;
    compare(table, couples.as_slice(), process, asker.take_questions())
}

fn update_often<L: Ledger>(
    alloc: Global,
    table: &mut Pairs,
    asker: &mut Asker<L>,
    draw: Draw,
    seed: u32,
    updates: u32,
) -> Result<Tally, AllocError>
    requires size { 6 ≤ length table.old.senders }
    requires there { table.old.lost ≡ false }
    ensures size { OnOk result (length table.new.senders ≡ length table.old.senders) }
    ensures there { OnOk result (table.new.lost ≡ false) }
{
    let mut dice = Dice { number: seed };
    let mut stands = Vec::new(alloc);
    let mut sum = Tally {
        taken: 0,
        troubled: 0,
        questions: 0,
        wrong: 0,
    };
    for number in 0..updates {
        let tally = update_one(alloc, table, asker, &mut stands, &mut dice, draw, number)?;
        sum = both(sum, tally);
    }
    Ok(sum)
}

/// So many random updates of an empty table, each held against the pairs that are found plainly.
pub fn show_random<L: Ledger>(
    rt: &HostRuntime,
    table: &mut Pairs,
    asker: &mut Asker<L>,
    draw: Draw,
    seed: u32,
    updates: u32,
) -> io::Result<()>
    requires size { 6 ≤ length table.old.senders }
    requires there { table.old.lost ≡ false }
    ensures size { OnOk result (length table.new.senders ≡ length table.old.senders) }
    ensures there { OnOk result (table.new.lost ≡ false) }
{
    let Tally {
        taken,
        troubled,
        questions,
        wrong,
    } = update_often(rt.alloc(), table, asker, draw, seed, updates)?;
    println!(rt; "taken {taken}, with a trouble {troubled}, questions {questions}, wrong {wrong}")
}
