// What names stand for in a body.

ghost use Rattle.std.specs.Prelude.{◌≡◌, IfOk};
ghost use Rattle.pz_classes_code.specs.Resolution as spec;
ghost use Rattle.pz_classes_code.specs.ScopeView.{scope_view};

use crate::{NameFront, Numbering, Slot, is_array};
use pz_syntax::pz_items::Items;
use pz_syntax::{Id, Name};
use pz_value::ClassId;
use std::alloc::{AllocError, Global};

/// The number of a class or a port that is not there.
const UNKNOWN: u32 = u32::MAX;

/// The numbers of names: of inputs, outputs and locals, of the fields or variables of the class, of
/// its ports, and of the classes of the model.
#[derive(Drop)]
pub struct Scope<'a> {
    pub locals: &'a Numbering,
    pub shared: &'a NameFront,
    pub ports: &'a NameFront,
    pub classes: &'a Numbering,
}

impl Scope<'_> {
    /// What stands for a variable of this name.
    pub fn slot(&self, name: &Name) -> Slot
        ensures { result ≡ spec.slot_of (scope_view self.now) name.now }
    {
        let bytes = name.as_str().as_bytes();
        if let Some(number) = self.locals.get(bytes) {
            return Slot::Local(number);
        }
        match self.shared.place(bytes) {
            Some(number) => Slot::Shared(number),
            None => Slot::Unknown,
        }
    }

    /// The class of this name.
    pub fn class(&self, name: &Name) -> ClassId
        ensures { result ≡ spec.class_of (scope_view self.now) name.now }
    {
        if is_array(name) {
            return ClassId(0);
        }
        match self.classes.get(name.as_str().as_bytes()) {
            Some(number) => ClassId(number),
            None => ClassId(UNKNOWN),
        }
    }

    /// The number of the port of this name.
    pub fn port(&self, name: &Name) -> u32
        ensures { result ≡ spec.port_of (scope_view self.now) name.now }
    {
        match self.ports.place(name.as_str().as_bytes()) {
            Some(number) => number,
            None => UNKNOWN,
        }
    }

    /// What stands for each of these variables. The only error is want of memory.
    pub fn slots(&self, alloc: Global, ids: &[Id]) -> Result<Items<Slot>, AllocError>
        ensures { IfOk result (λ slots. slots ≡ spec.slots_of (scope_view self.now) ids.now) }
    {
        let mut slots = Items::with_capacity(alloc, ids.len())?;
        for id in ids {
            slots.push(self.slot(&id.name))?;
        }
        Ok(slots)
    }
}
