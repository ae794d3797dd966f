//! Who answers for the conditions.

ghost use Rattle.std.specs.Prelude.{◌≡◌};
ghost use Rattle.rows_match_plain.specs.Answers.{said, mixed, trouble_at, spot_of};

use pz_offer::{End, Trouble, Verdict};
use pz_syntax::Pos;

/// What conditions say.
#[derive(Clone, Copy)]
pub enum Rule {
    Yes,
    /// No to the sends of this process, and Yes to all others.
    NoTo(u32),
    /// The receives of this process have a trouble, and all others say Yes.
    TroubleOf(u32),
    /// By this number and both ends.
    Mixed(u32),
}

/// A part of a process, by the number of its process and the first number of its place.
#[derive(Clone, Copy)]
pub struct Spot {
    pub process: u32,
    pub place: usize,
}

/// The trouble of a condition tells the ends: the process of the send and, as a place of a text, the
/// place of the send and the process of the receive.
fn trouble(sender: Spot, receiver: Spot) -> Verdict
    ensures { result ≡ trouble_at sender receiver }
{
    Verdict::Trouble(Trouble::Spent {
        process: receiver.process,
        pos: Pos {
            line: sender.process,
            column: 1,
        },
    })
}

fn mixed(seed: u32, sender: Spot, receiver: Spot) -> Verdict
    ensures { result ≡ mixed seed sender receiver }
{
    let first = u128::from(sender.process) * 3 + sender.place as u128 * 5;
    let second = u128::from(receiver.process) * 7 + receiver.place as u128 * 11;
    let number = (u128::from(seed) + first + second) % 8;
    if number == 0 {
        trouble(sender, receiver)
    } else if number < 4 {
        Verdict::No
    } else {
        Verdict::Yes
    }
}

/// What the rule says to a send and a receive.
pub fn said(rule: Rule, sender: Spot, receiver: Spot) -> Verdict
    ensures { result ≡ said rule sender receiver }
{
    match rule {
        Rule::Yes => Verdict::Yes,
        Rule::NoTo(process) if sender.process == process => Verdict::No,
        Rule::TroubleOf(process) if receiver.process == process => trouble(sender, receiver),
        Rule::Mixed(seed) => mixed(seed, sender, receiver),
        _ => Verdict::Yes,
    }
}

pub fn spot_of(end: &End) -> Spot
    ensures { result ≡ spot_of end.now }
{
    let place = end.place.as_slice().first().copied().unwrap_or(0);
    Spot {
        process: end.process,
        place,
    }
}
