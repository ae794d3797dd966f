//! What a parcel keeps: no memory is taken where there are no objects and at most one value.

ghost use Rattle.std.specs.Prelude.{◌≡◌, [], IfOk};
ghost use Rattle.pz_copy.specs.Parcels.{plain_objects};
ghost use Rattle.pz_copy.specs.devices.Contents.{values_of, objects_of};

use pz_state::Object;
use pz_state::pz_value::Value;
use std::alloc::{AllocError, Global};
use std::slice;

/// Values and objects, of which the second are not empty.
#[derive(Debug, Drop)]
pub(crate) struct Sharing {
    values: Vec<Value>,
    objects: Vec<Object>,
}

/// The values of a parcel and its objects, which all forms but the last have none of.
#[derive(Debug, Drop)]
pub(crate) enum Contents {
    Nothing,
    One(Value),
    Values(Vec<Value>),
    Sharing(Box<Sharing>),
}

impl Contents {
    /// These values and no objects. The only error is want of memory.
    pub(crate) fn of_values(alloc: Global, values: &[Value]) -> Result<Contents, AllocError>
        ensures values { IfOk result (λ contents. values_of contents ≡ values.now) }
        ensures objects { IfOk result (λ contents. objects_of contents ≡ []) }
    {
        match values {
            [] => Ok(Contents::Nothing),
            [value] => Ok(Contents::One(value.copy()?)),
            _ => Ok(Contents::Values(copy_values(alloc, values)?)),
        }
    }

    /// These values and objects. The only error is want of memory.
    pub(crate) fn sharing(
        alloc: Global,
        values: Vec<Value>,
        objects: Vec<Object>,
    ) -> Result<Contents, AllocError>
        ensures values { IfOk result (λ contents. values_of contents ≡ values.items) }
        ensures objects { IfOk result (λ contents. objects_of contents ≡
            plain_objects objects.items) }
    {
        let sharing = Box::new(alloc, Sharing { values, objects })?;
        Ok(Contents::Sharing(sharing))
    }

    pub(crate) fn values(&self) -> &[Value]
        ensures { result.now ≡ values_of self.now }
    {
        match self {
            Contents::Nothing => &[],
            Contents::One(value) => slice::from_ref(value),
            Contents::Values(values) => values.as_slice(),
            Contents::Sharing(sharing) => sharing.values.as_slice(),
        }
    }

    pub(crate) fn objects(&self) -> &[Object]
        ensures { plain_objects result.now ≡ objects_of self.now }
    {
        match self {
            Contents::Sharing(sharing) => sharing.objects.as_slice(),
            _ => &[],
        }
    }

    /// Equal values and objects. The only error is want of memory.
    pub(crate) fn copy(&self, alloc: Global) -> Result<Contents, AllocError>
        ensures values { IfOk result (λ copy. values_of copy ≡ values_of self.now) }
        ensures objects { IfOk result (λ copy. objects_of copy ≡ objects_of self.now) }
    {
        match self {
            Contents::Nothing => Ok(Contents::Nothing),
            Contents::One(value) => Ok(Contents::One(value.copy()?)),
            Contents::Values(values) => Ok(Contents::Values(copy_values(alloc, values)?)),
            Contents::Sharing(sharing) => sharing.copy(alloc),
        }
    }
}

impl Sharing {
    /// Equal values and objects. The only error is want of memory.
    fn copy(&self, alloc: Global) -> Result<Contents, AllocError>
        ensures values { IfOk result (λ copy. values_of copy ≡ self.now.values.items) }
        ensures objects { IfOk result (λ copy. objects_of copy ≡
            plain_objects self.now.objects.items) }
    {
        let values = copy_values(alloc, &self.values)?;
        let objects = copy_objects(alloc, &self.objects)?;
        Contents::sharing(alloc, values, objects)
    }
}

/// Equal values. The only error is want of memory.
fn copy_values(alloc: Global, values: &[Value]) -> Result<Vec<Value>, AllocError>
    ensures { IfOk result (λ copies. copies.items ≡ values.now) }
{
    let mut copies = Vec::with_capacity(alloc, values.len())?;
    for value in values {
        copies.push(value.copy()?)?;
    }
    Ok(copies)
}

/// Equal objects. The only error is want of memory.
fn copy_objects(alloc: Global, objects: &[Object]) -> Result<Vec<Object>, AllocError>
    ensures { IfOk result (λ copies. plain_objects copies.items ≡ plain_objects objects.now) }
{
    let mut copies = Vec::with_capacity(alloc, objects.len())?;
    for object in objects {
        copies.push(object.copy()?)?;
    }
    Ok(copies)
}
