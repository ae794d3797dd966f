//! Objects.

ghost use Rattle.std.specs.Prelude.{◌≡◌, ◌<◌, ◌≤◌, ◌+◌, ◌-◌, ◌++◌, length, reverse, take, slice_get, slice_set, Some, IfOk, OnErr};
ghost use Rattle.pz_state.specs.States.{nils};

use crate::values::{copy_values, cut, grow, nil_values, replace, restore};
use pz_value::{ClassId, Value};
use std::alloc::{AllocError, Global};
use std::marker::Model;

/// The most items that an Array may have.
pub const ARRAY_LIMIT: u32 = 1_048_576;

/// An object: its class and its items, which of an Array are its elements and of any other object
/// the values of its fields. Contracts see the object, and how many items it can have before it
/// takes memory.
#[derive(Debug, Drop)]
pub struct Object {
    class: ClassId,
    items: Vec<Value>,
}

impl Model for Object {
    ghost use Rattle.std.specs.Prelude.{vec_capacity};
    ghost use Rattle.pz_state.specs.Objects.{StoredObject};

    ghost Value = { StoredObject };

    ghost view = { λ o. record { object = record { class = o.class; items = o.items.items }; room = vec_capacity o.items } };
}

impl Object {
    /// An object with these items.
    pub fn new(class: ClassId, items: Vec<Value>) -> Object
        ensures { result.object ≡ record { class = class; items = items.items } }
    {
        Object { class, items }
    }

    /// An object with so many items, all nil. The only error is want of memory.
    pub fn of_nils(alloc: Global, class: ClassId, count: u32) -> Result<Object, AllocError>
        ensures { IfOk result (λ made. made.object ≡ record { class = class; items = nils count }) }
    {
        let items = nil_values(alloc, count)?;
        Ok(Object { class, items })
    }

    pub fn class(&self) -> ClassId
        ensures { result ≡ self.now.object.class }
    {
        self.class
    }

    /// The items in order.
    pub fn items(&self) -> &[Value]
        ensures { result.now ≡ self.now.object.items }
    {
        self.items.as_slice()
    }

    /// An equal object. The only error is want of memory.
    pub fn copy(&self) -> Result<Object, AllocError>
        ensures { IfOk result (λ copy. copy.object ≡ self.now.object) }
    {
        let items = copy_values(&self.items)?;
        Ok(Object {
            class: self.class,
            items,
        })
    }

    /// Gives an item another value, and hands out the one before.
    pub(crate) fn replace(&mut self, place: usize, value: Value) -> Value
        requires { place < length self.old.object.items }
        ensures old { slice_get self.old.object.items place ≡ Some result }
        ensures new { self.new.object ≡ record {
          class = self.old.object.class;
          items = slice_set
              self.old.object.items place value;
        } }
        ensures room { self.new.room ≡ self.old.room }
    {
        replace(&mut self.items, place, value)
    }

    /// Adds nils until there are so many items. The only error is want of memory, and then the object
    /// stays.
    pub(crate) fn grow(&mut self, count: usize) -> Result<(), AllocError>
        requires { length self.old.object.items ≤ count }
        ensures ok { IfOk result (λ _. self.new.object ≡
            record {
              class = self.old.object.class;
              items = self.old.object.items ++ nils
                  (count - length self.old.object.items);
            }) }
        ensures err { OnErr result (self.new.object ≡ self.old.object) }
        ensures room { self.old.room ≤ self.new.room }
    {
        grow(&mut self.items, count)
    }

    /// Cuts the object, so that so many items stay, and gives those beyond them, in reverse. The only
    /// error is want of memory, and then the object stays.
    pub(crate) fn cut(&mut self, count: usize) -> Result<Vec<Value>, AllocError>
        requires { count ≤ length self.old.object.items }
        ensures ok { IfOk result (λ cut. self.new.object ≡
            record { class = self.old.object.class; items = take count self.old.object.items }) }
        ensures back { IfOk result (λ cut. self.new.object.items ++ reverse cut.items ≡
            self.old.object.items) }
        ensures fits { IfOk result (λ cut. length self.new.object.items + length cut.items ≤
            self.new.room) }
        ensures err { OnErr result (self.new.object ≡ self.old.object) }
        ensures room { self.new.room ≡ self.old.room }
    {
        cut(&mut self.items, count)
    }

    /// Leaves the first so many items. Takes no memory.
    pub(crate) fn truncate(&mut self, count: usize)
        ensures object { self.new.object ≡ record {
          class = self.old.object.class;
          items = take
              count self.old.object.items;
        } }
        ensures room { self.new.room ≡ self.old.room }
    {
        self.items.truncate(count);
    }

    /// Adds the items of a list in reverse, for which there is room. Takes no memory.
    pub(crate) fn restore(&mut self, cut: Vec<Value>)
        requires { length self.old.object.items + length cut.items ≤ self.old.room }
        ensures object { self.new.object ≡ record {
          class = self.old.object.class;
          items =
              self.old.object.items ++ reverse cut.items;
        } }
        ensures room { self.new.room ≡ self.old.room }
    {
        restore(&mut self.items, cut);
    }
}
