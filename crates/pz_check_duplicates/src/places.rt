// Things that may repeat one another, and the earliest place of each key.

ghost use Rattle.std.specs.Prelude.{◌≡◌, Some, IfOk, OnOk, if◌then◌else◌};
ghost use Rattle.indexmap.specs.IndexMap.{get};
ghost use Rattle.pz_check_duplicates.specs.devices.Earlier.{earlier};

use indexmap::IndexMap;
use pz_check_violations::pos_before;
use pz_classes::pz_syntax::Pos;
use std::alloc::AllocError;
use std::hash::Hash;

/// A thing of a list: what it shares with those that it repeats, and where it stands.
#[derive(Clone, Copy, Debug)]
pub(crate) struct Thing<K> {
    pub(crate) key: K,
    pub(crate) place: Pos,
}

/// What things share of which any two repeat each other.
#[derive(Clone, Copy, Debug, PartialEq, Eq, Hash)]
pub(crate) struct Alike;

/// The earlier of two places, the one found first where neither is earlier.
pub(crate) fn earlier_place(found: Option<Pos>, place: Pos) -> Pos
    ensures { earlier found place ≡ Some result }
{
    let Some(first) = found else {
        return place;
    };
    if pos_before(place, first) {
        place
    } else {
        first
    }
}

/// Notes where a thing stands, among the earliest places of keys, and gives the place that its key
/// had before. The only error is want of memory.
pub(crate) fn note<K: Hash + Eq + Copy>(
    places: &mut IndexMap<K, Pos>,
    thing: &Thing<K>,
) -> Result<Option<Pos>, AllocError>
    ensures first { IfOk result (λ first. first ≡ get K.eq places.old thing.now.key) }
    ensures noted { OnOk result ((key : K) → get K.eq places.new key ≡
        (if K.eq key thing.now.key then earlier (get K.eq places.old key) thing.now.place else get
        K.eq places.old key)) }
{
    let first = places.get(&thing.key).copied();
    let place = earlier_place(first, thing.place);
    places.insert(thing.key, place)?;
    Ok(first)
}
