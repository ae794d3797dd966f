// The least repeat in a list of things.

ghost use Rattle.std.specs.Prelude.{◌≡◌, IfOk};
ghost use Rattle.pz_check_violations.specs.Least.{least_from};
ghost use Rattle.pz_check_duplicates.specs.devices.Again.{later, later_of, same_key, thing_place, repeats};

use crate::places::{Thing, note};
use indexmap::IndexMap;
use pz_check_violations::{Violation, lesser, pos_before};
use pz_classes::pz_syntax::Pos;
use std::alloc::{AllocError, Global};
use std::hash::Hash;

/// The later of two places, the second where neither is later.
fn later_place(first: Pos, place: Pos) -> Pos
    ensures { result ≡ later first place }
{
    if pos_before(place, first) {
        first
    } else {
        place
    }
}

/// The least of what was found before and the violation at the later of two places, if a first one
/// was found.
#[tactic(auto, using(pz_check_violations::proofs::Leasts::least_from_append))]
pub(crate) fn least_later(
    rule: u8,
    first: Option<Pos>,
    place: Pos,
    before: Option<Violation>,
) -> Option<Violation>
    ensures { result ≡ least_from before (later_of rule first place) }
{
    match first {
        None => before,
        Some(first) => lesser(
            before,
            Violation {
                rule,
                pos: later_place(first, place),
            },
        ),
    }
}

/// The least of what was found before and the places where a thing repeats another that does not
/// come after it. The only error is want of memory.
pub(crate) fn least_again<K: Hash + Eq + Copy>(
    alloc: Global,
    rule: u8,
    things: &[Thing<K>],
    before: Option<Violation>,
) -> Result<Option<Violation>, AllocError>
    ensures { IfOk result (λ least. least ≡ least_from before
        (repeats (same_key K.eq) thing_place rule things.now)) }
{
    let mut places = IndexMap::new(alloc);
    let mut least = before;
    for thing in things {
        let first = note(&mut places, thing)?;
        least = least_later(rule, first, thing.place, least);
    }
    Ok(least)
}
