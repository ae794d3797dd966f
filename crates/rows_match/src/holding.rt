//! The table, held against the pairs that are found by looking at every two offers.

ghost use Rattle.std.specs.Prelude.{◌≡◌, false};

use pz_match::{Pairs, Sender};
use pz_offer::{End, Trouble, Verdict};
use rows_match_plain::{Couple, Spot, Wish};
use std::alloc::AllocError;

/// What was found wrong or counted.
#[derive(Clone, Copy)]
pub struct Tally {
    pub taken: u64,
    pub troubled: u64,
    pub questions: u64,
    pub wrong: u64,
}

/// Whether these are the wire, the message and the number of values of a send.
fn is_sent(sender: &Sender, wish: Wish) -> bool {
    let message = if wish.second { "b" } else { "a" };
    wish.wire == Some(sender.wire)
        && sender.message.as_str() == message
        && sender.parcel.values().len() == wish.values as usize
}

fn is_at(end: &End, spot: Spot) -> bool {
    let place = end.place.as_slice();
    end.process == spot.process && place.len() == 1 && place[0] == spot.place
}

/// Whether the pair with this number is that one.
fn is_kth(table: &Pairs, number: u64, couple: &Couple) -> Result<bool, AllocError>
    requires { table.now.lost ≡ false }
{
    match table.kth(number)? {
        Some((sender, receiver)) => Ok(
            is_sent(&sender, couple.wish)
                && is_at(&sender.end, couple.sender)
                && is_at(&receiver, couple.receiver),
        ),
        None => Ok(false),
    }
}

/// How many pairs are taken, and how many of these the table has elsewhere.
fn misplaced(table: &Pairs, couples: &[Couple]) -> Result<(u64, u64), AllocError>
    requires { table.now.lost ≡ false }
{
    let mut taken = 0_u64;
    let mut wrong = 0_u64;
    for couple in couples {
        if couple.verdict == Verdict::Yes {
            let right = is_kth(table, taken, couple)?;
            wrong = wrong.saturating_add(u64::from(!right));
            taken = taken.saturating_add(1);
        }
    }
    Ok((taken, wrong))
}

/// Whether the table has just as many pairs, and none behind them.
fn ends_at(table: &Pairs, taken: u64) -> Result<bool, AllocError>
    requires { table.now.lost ≡ false }
{
    let over = table.kth(taken)?.is_none();
    Ok(over && table.count() == taken)
}

fn first_trouble(couples: &[Couple]) -> Option<Trouble> {
    for couple in couples {
        if let Verdict::Trouble(trouble) = couple.verdict {
            return Some(trouble);
        }
    }
    None
}

/// How many pairs with an end in this process have a condition.
fn asked(couples: &[Couple], process: u32) -> u64 {
    couples
        .iter()
        .filter(|it| {
            it.conditional && (it.sender.process == process || it.receiver.process == process)
        })
        .count() as u64
}

/// Compares the table with the pairs, after an update of this process with so many questions.
pub fn compare(
    table: &Pairs,
    couples: &[Couple],
    process: u32,
    questions: u64,
) -> Result<Tally, AllocError>
    requires { table.now.lost ≡ false }
{
    let (taken, misplaced) = misplaced(table, couples)?;
    let ends = ends_at(table, taken)?;
    let trouble = first_trouble(couples);
    let same = table.trouble() == trouble;
    let counted = asked(couples, process) == questions;
    Ok(Tally {
        taken,
        troubled: u64::from(trouble.is_some()),
        questions,
        wrong: misplaced
            .saturating_add(u64::from(!ends))
            .saturating_add(u64::from(!same))
            .saturating_add(u64::from(!counted)),
    })
}
