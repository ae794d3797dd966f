// Lists of names that begin with names of other lists.

ghost use Rattle.std.specs.Prelude.{◌≡◌, ◌≤◌, ◌+◌, ◌-◌, ◌++◌, take, length, slice_get, IfOk};
ghost use Rattle.std.specs.Option.{option_copied, option_map};
ghost use Rattle.pz_classes_code.specs.Places.{place_in};
ghost use Rattle.pz_classes_code.specs.NumberIn.{number_below};
ghost use Rattle.pz_classes_code.specs.devices.Above.{names_above};

use crate::Numbering;
use crate::numbering::first_places;
use pz_syntax::Name;
use pz_syntax::pz_items::{Items, Shared};
use std::alloc::{AllocError, Global};
use std::marker::Model;

/// A list of names. It may begin with the first names of another list, which it shares with others
/// and which stands above it; its own come behind. Contracts see all of them, and how many lists
/// stand above one another.
#[cycle(names)]
pub struct NameList {
    above: Option<NameFront>,
    own: Items<Name>,
    places: Numbering,
}

impl Model for NameList {
    ghost use Rattle.pz_classes_code.specs.Listed.{Listed};
    ghost use Rattle.pz_classes_code.specs.devices.Above.{extended, ArePlaced};
    ghost use Rattle.std.proofs.Common.{arith};

    ghost Value = { Listed };

    ghost view = { λ l. extended l.above l.own };

    ghost invariant = { λ l. ArePlaced l.own l.places };

    ghost size = { λ l. l.height };

    ghost size_decreases = { λ a h. Prim.grind arith };
}

/// So many of the first names of a list that several can own. Contracts see these names.
#[cycle(names)]
pub struct NameFront {
    list: Shared<NameList>,
    count: u32,
}

impl Model for NameFront {
    ghost use Rattle.std.specs.Prelude.{◌≤◌, length};
    ghost use Rattle.pz_classes_code.specs.Listed.{Listed};
    ghost use Rattle.pz_classes_code.specs.devices.Above.{front};
    ghost use Rattle.std.proofs.Common.{arith};

    ghost Value = { Listed };

    ghost view = { λ f. front f.count f.list };

    ghost invariant = { λ f. f.count ≤ length f.list.names };

    ghost size = { λ l. l.height };

    ghost size_decreases = { λ a h. Prim.grind arith };
}

// Written out, so that it is proved once, here, and not in each function that drops one.
impl Drop for NameList {
    #[cycle(drop_names)]
    fn drop(self) {
        let NameList { above, own, places } = self;
        std::mem::drop(above);
        std::mem::drop(own);
        std::mem::drop(places);
    }
}

impl Drop for NameFront {
    #[cycle(drop_names)]
    fn drop(self) {
        let NameFront { list, count: _ } = self;
        std::mem::drop(list);
    }
}

/// The number of a name, if it has one below the bound.
fn number_under(places: &Numbering, name: &[u8], bound: u32) -> Option<u32>
    ensures { result ≡ number_below bound places.now name.now }
{
    let number = places.get(name)?;
    if number < bound { Some(number) } else { None }
}

/// The place of a name that is numbered, where so many names stand before those, if it is below the
/// bound.
fn place_behind(places: &Numbering, name: &[u8], before: u32, bound: u32) -> Option<u32>
    requires { before ≤ bound }
    ensures { result ≡ option_map (λ n. before + n) (number_below (bound - before) places.now
        name.now) }
{
    let number = number_under(places, name, bound - before)?;
    Some(before + number)
}

impl NameList {
    /// The list of what is above and of names of its own. The only error is want of memory.
    pub fn new(
        alloc: Global,
        above: Option<NameFront>,
        own: Items<Name>,
    ) -> Result<NameList, AllocError>
        ensures { IfOk result (λ list. list.names ≡ names_above above ++ own) }
    {
        let places = first_places(alloc, own.as_slice())?;
        Ok(NameList { above, own, places })
    }

    /// The place of the first of so many of the first names that is this one, from 0. It looks into
    /// each list above once.
    fn place_below(&self, name: &[u8], bound: u32) -> Option<u32>
        ensures { result ≡ place_in (take bound self.now.names) name.now }
    {
        let Some(front) = &self.above else {
            return number_under(&self.places, name, bound);
        };
        let before = front.count.min(bound);
        match front.list.get().place_below(name, before) {
            Some(place) => Some(place),
            None => place_behind(&self.places, name, before, bound),
        }
    }

    /// The name at a place, from 0.
    fn name(&self, place: usize) -> Option<&Name>
        ensures { option_copied result ≡ slice_get self.now.names place }
    {
        let Some(front) = &self.above else {
            return self.own.as_slice().get(place);
        };
        let before = front.count as usize;
        if place < before {
            return front.list.get().name(place);
        }
        self.own.as_slice().get(place - before)
    }
}

impl NameFront {
    /// So many of the first names of a list. Takes constant time and no memory. The only error is
    /// that the list has as many owners as can be counted.
    pub fn new(list: &Shared<NameList>, count: u32) -> Result<NameFront, AllocError>
        requires { count ≤ length list.now.names }
        ensures { IfOk result (λ front. front.names ≡ take count list.now.names) }
    {
        Ok(NameFront {
            list: list.copy()?,
            count,
        })
    }

    /// The same names again. Takes constant time and no memory. The only error is that the list has
    /// as many owners as can be counted.
    pub fn copy(&self) -> Result<NameFront, AllocError>
        ensures { IfOk result (λ copy. copy ≡ self.now) }
    {
        Ok(NameFront {
            list: self.list.copy()?,
            count: self.count,
        })
    }

    /// How many names there are.
    pub fn len(&self) -> u32
        ensures { result ≡ length self.now.names }
    {
        self.count
    }

    /// The name at a place, from 0.
    pub fn name(&self, place: u32) -> Option<&Name>
        ensures { option_copied result ≡ slice_get self.now.names place }
    {
        if place < self.count {
            self.list.get().name(place as usize)
        } else {
            None
        }
    }

    /// The place of the first of the names that is this one, from 0.
    pub fn place(&self, name: &[u8]) -> Option<u32>
        ensures { result ≡ place_in self.now.names name.now }
    {
        self.list.get().place_below(name, self.count)
    }
}
