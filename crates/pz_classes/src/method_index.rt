// The methods that a class itself declares, to be found by name.

ghost use Rattle.std.specs.Prelude.{◌≡◌, ◌<◌, ◌+◌, ◌^◌, suc, None, Some, List, ℕ, [], ◌∷◌, ◌++◌, OnOk, if◌then◌else◌};
ghost use Rattle.std.specs.Option.{option_or};
ghost use Rattle.std.specs.Str.{bytes_eq};
ghost use Rattle.pz_classes_rules.specs.Methods as spec;
ghost use Rattle.pz_classes_rules.specs.Methods.{Signature, same_signature, method_id};
ghost use Rattle.pz_classes.specs.devices.MethodIn.{first_with_counts, overloads_in, method_in};

use crate::{Counts, MethodId};
use indexmap::IndexMap;
use pz_classes_code::pz_items::Items;
use pz_classes_code::pz_syntax::Name;
use std::alloc::{AllocError, Global};

/// One of the methods of a name.
#[derive(Clone, Copy, Debug)]
struct Overload {
    counts: Counts,
    id: MethodId,
}

/// The methods that a class itself declares, by their names.
pub(crate) struct Methods {
    by_name: IndexMap<Vec<u8>, Items<Overload>>,
    /// The number after theirs.
    pub(crate) next: u32,
}

// Written out, so that it is proved once, here, and not in each function that drops one.
impl Drop for Methods {
    fn drop(self) {
        let Methods { by_name, next: _ } = self;
        std::mem::drop(by_name);
    }
}

fn same_counts(a: Counts, b: Counts) -> bool
    ensures { result ≡ spec.same_counts a b }
{
    match (a, b) {
        (Counts::Data { inputs }, Counts::Data { inputs: ours }) => inputs == ours,
        (
            Counts::Process { inputs, outputs },
            Counts::Process {
                inputs: ours,
                outputs: results,
            },
        ) => inputs == ours && outputs == results,
        _ => false,
    }
}

/// The first of these with the counts.
fn with_counts(overloads: &[Overload], counts: Counts) -> Option<MethodId>
    ensures { result ≡ first_with_counts counts overloads.now }
{
    for overload in overloads {
        if same_counts(counts, overload.counts) {
            return Some(overload.id);
        }
    }
    None
}

impl Methods {
    /// No method yet; the first will have this number. Takes no memory.
    pub(crate) fn new(alloc: Global, first: u32) -> Methods
        ensures none { (s : Signature) → method_in result s ≡ None }
        ensures next { result.next ≡ first }
    {
        Methods {
            by_name: IndexMap::new(alloc),
            next: first,
        }
    }

    /// The first of them with this name and these counts.
    pub(crate) fn get(&self, name: &[u8], counts: Counts) -> Option<MethodId>
        ensures { result ≡ method_in self.now (record { name = name.now; counts = counts }) }
    {
        let overloads = self.by_name.get(name)?;
        with_counts(overloads.as_slice(), counts)
    }

    /// Puts a method behind the others of its name. The only error is want of memory.
    fn put(&mut self, alloc: Global, name: &[u8], overload: Overload) -> Result<(), AllocError>
        ensures put { OnOk result ((q : List ℕ) → overloads_in self.new q ≡
            (if bytes_eq q name.now then overloads_in self.old q ++ overload ∷ [] else overloads_in
            self.old q)) }
        ensures next { OnOk result (self.new.next ≡ self.old.next) }
    {
        if let Some(overloads) = self.by_name.get_mut(name) {
            return overloads.push(overload);
        }
        let mut overloads = Items::new(alloc);
        overloads.push(overload)?;
        self.by_name.insert(name.to_vec(alloc)?, overloads)?;
        Ok(())
    }

    /// Adds a method behind the others; it gets the number `next`. Where one before it has its name
    /// and its counts, that one is found. The only error is want of memory.
    pub(crate) fn add(
        &mut self,
        alloc: Global,
        name: &Name,
        counts: Counts,
    ) -> Result<(), AllocError>
        requires { self.now.next + 1 < 2 ^ 32 }
        ensures added { OnOk result ((s : Signature) →
            method_in self.new s ≡ option_or (method_in self.old s)
            (if same_signature s (record { name = name.now; counts = counts }) then Some
            (method_id self.old.next) else None)) }
        ensures next { OnOk result (self.new.next ≡ suc self.old.next) }
    {
        let id = MethodId(self.next);
        self.next += 1;
        let bytes = name.as_str().as_bytes();
        if self.get(bytes, counts).is_some() {
            return Ok(());
        }
        self.put(alloc, bytes, Overload { counts, id })
    }
}
