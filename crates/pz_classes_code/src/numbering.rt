ghost use Rattle.std.specs.Prelude.{◌≡◌, ◌<◌, ◌^◌, List, ℕ, None, Some, IfOk, OnOk, length, take, if◌then◌else◌};
ghost use Rattle.std.specs.Option.{option_or};
ghost use Rattle.std.specs.Str.{bytes_eq};
ghost use Rattle.pz_classes_code.specs.NumberIn.{number_in};
ghost use Rattle.pz_classes_code.specs.Places.{place_in};
ghost use Rattle.pz_classes_code.specs.devices.Above.{ArePlaced};

use indexmap::IndexMap;
use pz_syntax::Name;
use std::alloc::{AllocError, Global};

/// Numbers of names. A name keeps the first number that it is given.
pub struct Numbering {
    map: IndexMap<Vec<u8>, u32>,
}

// Written out, so that it is proved once, here, and not in each function that drops one.
impl Drop for Numbering {
    fn drop(self) {
        let Numbering { map } = self;
        std::mem::drop(map);
    }
}

impl Numbering {
    /// No name has a number yet. Takes no memory.
    pub fn new(alloc: Global) -> Numbering
        ensures { (name : List ℕ) → number_in result name ≡ None }
    {
        Numbering {
            map: IndexMap::new(alloc),
        }
    }

    /// The number of a name, if it has one.
    pub fn get(&self, name: &[u8]) -> Option<u32>
        ensures { result ≡ number_in self.now name.now }
    {
        self.map.get(name).copied()
    }

    /// Gives a name the number, unless it has one. The only error is want of memory.
    pub fn add(&mut self, alloc: Global, name: &Name, number: u32) -> Result<(), AllocError>
        ensures { OnOk result ((q : List ℕ) → number_in self.new q ≡ option_or
            (number_in self.old q) (if bytes_eq q name.now then Some number else None)) }
    {
        let bytes = name.as_str().as_bytes();
        if self.get(bytes).is_none() {
            self.map.insert(bytes.to_vec(alloc)?, number)?;
        }
        Ok(())
    }
}

/// The numbers of names by their places, from 0; of equal names the first counts. The only error is
/// want of memory.
pub fn places_of(alloc: Global, names: &[Name]) -> Result<Numbering, AllocError>
    requires { length names.now < 2 ^ 32 }
    ensures { IfOk result (λ n. (q : List ℕ) → number_in n q ≡ place_in names.now q) }
{
    let mut numbering = Numbering::new(alloc);
    let mut place = 0u32;
    for name in names {
        numbering.add(alloc, name, place)?;
        place += 1;
    }
    Ok(numbering)
}

/// The first of the names, so many of them; all where there are fewer.
fn first(names: &[Name], count: usize) -> &[Name]
    ensures { result.now ≡ take count names.now }
{
    if count < names.len() {
        &names[..count]
    } else {
        names
    }
}

/// The places of the first names, of as many as 32 bits number. The only error is want of memory.
pub(crate) fn first_places(alloc: Global, names: &[Name]) -> Result<Numbering, AllocError>
    ensures { IfOk result (ArePlaced names.now) }
{
    places_of(alloc, first(names, u32::MAX as usize))
}
