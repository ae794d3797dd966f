// Fronts of texts. Takes no memory.

ghost use Rattle.std.specs.Prelude.{◌≡◌, ◌<◌, ◌≤◌, ◌+◌, ◌++◌, ℕ, List, length, take, drop, MatchOption};
ghost use Rattle.pz_run_replaying.specs.Expected.{NamesOffer};
ghost use Rattle.pz_run_replaying.specs.devices.Fronts.{StartsWith};

use crate::laws::rules_are_known;
use pz_trace::{Heading, first_line, read_line};

/// How long the line is, if the text begins with it.
pub(crate) fn front_len(text: &[u8], line: &[u8]) -> Option<usize>
    ensures { MatchOption result ((rest : List ℕ) → text.now ≡ line.now ++ rest →
        ⊥) (StartsWith text.now line.now) }
{
    if text.starts_with(line) {
        Some(line.len())
    } else {
        None
    }
}

/// The first bytes of a text, so many.
pub(crate) fn front(text: &[u8], len: usize) -> &[u8]
    requires { len ≤ length text.now }
    ensures { result.now ≡ take len text.now }
{
    let (front, _rest) = text.split_at(len);
    front
}

/// What follows them.
pub(crate) fn behind(text: &[u8], len: usize) -> &[u8]
    requires { len ≤ length text.now }
    ensures rest { result.now ≡ drop len text.now }
    ensures left { length result.now + len ≡ length text.now }
{
    let (_front, rest) = text.split_at(len);
    rest
}

/// The number of the offer, from 0, that the next line of a trace names, if it is one of so many.
pub(crate) fn named_offer(rest: &[u8], offers: u64) -> Option<u64>
    ensures { MatchOption result ((k : ℕ) → k < offers → NamesOffer rest.now k →
        ⊥) (λ k. (k < offers) × NamesOffer rest.now k) }
{
    rules_are_known();
    let line = first_line(rest)?;
    let heading = read_line(line)?;
    match heading {
        Heading::Step { clock: _, n: _, k } => { if k < offers { Some(k) } else { None } }
        Heading::Other => None,
    }
}
