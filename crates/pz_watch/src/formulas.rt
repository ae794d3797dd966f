// A formula, read from the front of the words that are left.

ghost use Rattle.std.specs.Prelude.{◌≡◌, IfOk, IfErr, None, Err};
ghost use Rattle.pz_watch.specs.declared.errors.ReadWatchError.TheVariants.{Malformed};
ghost use Rattle.pz_watch.specs.devices.Making.{read, ReadsAs, IsMadeWith, make_two};

use crate::operators::{Operator, Two, next_operator};
use crate::{Monitor, ReadWatchError};
use pz_lines::Words;
use std::alloc::Global;

/// Takes a formula off the front of the words, with at most so many operators one inside the
/// other. Where it is malformed, some of it may be gone.
pub fn formula(alloc: Global, words: &mut Words<'_>, most: usize) -> Result<Monitor, ReadWatchError>
    ensures found { IfOk result (λ monitor. ReadsAs (read most words.old) monitor words.new) }
    ensures malformed { IfErr result (λ e. e ≡ Malformed → read most words.old ≡ None) }
{
    if most == 0 {
        return Err(ReadWatchError::Malformed);
    }
    match next_operator(alloc, words)? {
        Operator::Line(atom) => Ok(Monitor::line(atom)),
        Operator::One(one) => {
            let part = formula(alloc, words, most - 1)?;
            Ok(one.over(alloc, part)?)
        }
        Operator::Two(two) => {
            let first = formula(alloc, words, most - 1)?;
            let second = formula(alloc, words, most - 1);
            join(alloc, two, first, second)
        }
    }
}

/// The monitor of an operator over those of its parts, if there is a second one.
fn join(
    alloc: Global,
    two: Two,
    first: Monitor,
    second: Result<Monitor, ReadWatchError>,
) -> Result<Monitor, ReadWatchError>
    ensures made { IfOk result (λ monitor. IsMadeWith (make_two two) first second monitor) }
    ensures malformed { IfErr result (λ e. e ≡ Malformed → second ≡ Err Malformed) }
{
    match second {
        Ok(second) => Ok(two.over(alloc, first, second)?),
        Err(error) => {
            drop(first);
            Err(error)
        }
    }
}
