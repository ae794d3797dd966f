ghost use Rattle.std.specs.Prelude.{◌≡◌, [], IfOk};
ghost use Rattle.pz_copy.specs.Parcels.{plain_objects, IsParcel};

use crate::contents::Contents;
use pz_state::Object;
use pz_state::pz_value::Value;
use std::alloc::{AllocError, Global};
use std::marker::Model;

/// Values that were copied out of a state, with the objects that they lead to. A reference in it is
/// the number of one of these objects, from 0.
#[derive(Debug)]
pub struct Parcel {
    alloc: Global,
    contents: Contents,
}

// Written out, so that it is proved once, here, and not in each crate that drops one.
impl Drop for Parcel {
    fn drop(self) {
        let Parcel { alloc: _, contents } = self;
        std::mem::drop(contents);
    }
}

impl Model for Parcel {
    ghost use Rattle.pz_copy.specs.Parcels.{ParcelView, IsParcel};
    ghost use Rattle.pz_copy.specs.devices.Contents.{values_of, objects_of};

    ghost Value = { ParcelView };

    ghost view = { λ p. record { values = values_of p.contents; objects = objects_of p.contents } };

    ghost invariant = { λ p. IsParcel (record { values = values_of p.contents; objects = objects_of p.contents }) };
}

impl Parcel {
    /// A parcel of these values, which have no references. The only error is want of memory.
    pub(crate) fn of_values(alloc: Global, values: &[Value]) -> Result<Parcel, AllocError>
        requires { IsParcel (record { values = values.now; objects = [] }) }
        ensures { IfOk result (λ parcel. parcel ≡ record { values = values.now; objects = [] }) }
    {
        let contents = Contents::of_values(alloc, values)?;
        Ok(Parcel { alloc, contents })
    }

    /// A parcel of these values and objects, whose references are numbers of these objects. The only
    /// error is want of memory.
    pub(crate) fn new(
        alloc: Global,
        values: Vec<Value>,
        objects: Vec<Object>,
    ) -> Result<Parcel, AllocError>
        requires { IsParcel (record {
          values = values.items;
          objects = plain_objects objects.items;
        }) }
        ensures { IfOk result (λ parcel. parcel ≡
            record { values = values.items; objects = plain_objects objects.items }) }
    {
        let contents = Contents::sharing(alloc, values, objects)?;
        Ok(Parcel { alloc, contents })
    }

    /// The values in order.
    pub fn values(&self) -> &[Value]
        ensures values { result.now ≡ self.now.values }
        ensures contained { IsParcel self.now }
    {
        self.contents.values()
    }

    /// The objects in order.
    pub fn objects(&self) -> &[Object]
        ensures objects { plain_objects result.now ≡ self.now.objects }
        ensures contained { IsParcel self.now }
    {
        self.contents.objects()
    }

    pub(crate) fn allocator(&self) -> Global {
        self.alloc
    }

    /// An equal parcel. The only error is want of memory.
    pub fn copy(&self) -> Result<Parcel, AllocError>
        ensures { IfOk result (λ copy. copy ≡ self.now) }
    {
        let contents = self.contents.copy(self.alloc)?;
        Ok(Parcel {
            alloc: self.alloc,
            contents,
        })
    }
}
