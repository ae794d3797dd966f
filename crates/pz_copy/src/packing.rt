//! From a state into a parcel.

ghost use Rattle.std.specs.Prelude.{◌≡◌, ◌≤◌, ◌<◌, ◌^◌, ℕ, length, map, All, IfOk};
ghost use Rattle.pz_state.specs.States.{object};
ghost use Rattle.pz_state.specs.References.{RefersWithin};
ghost use Rattle.pz_copy.specs.References.{renumbered, renumbered_object};
ghost use Rattle.pz_copy.specs.Packing.{IsParcelOf, HasOneListing, place_in, packed_objects};
ghost use Rattle.pz_copy.specs.Parcels.{plain_objects};
ghost use Rattle.pz_state.specs.States.{object_limit};

use crate::listing::list_reached;
use crate::parcel::Parcel;
use indexmap::IndexSet;
use pz_state::pz_value::Value;
use pz_state::{Object, State};
use std::alloc::{AllocError, Global};

/// The place of a number in the list; how long the list is where it is not there.
fn place_of(listed: &IndexSet<u32>, r: u32) -> u32
    requires { length listed.now.keys ≤ object_limit }
    ensures { result ≡ place_in listed.now.keys r }
{
    listed.get_index_of(&r).unwrap_or(listed.len()) as u32
}

/// An equal value, but for a reference, which is its place in the list. The only error is want of
/// memory.
fn packed(value: &Value, listed: &IndexSet<u32>) -> Result<Value, AllocError>
    requires { length listed.now.keys ≤ object_limit }
    ensures { IfOk result (λ packed. packed ≡ renumbered (place_in listed.now.keys) value.now) }
{
    match value {
        Value::Ref(r) => Ok(Value::Ref(place_of(listed, *r))),
        _ => value.copy(),
    }
}

/// Equal values, but for references, which are places in the list. The only error is want of memory.
fn pack_values(
    alloc: Global,
    values: &[Value],
    listed: &IndexSet<u32>,
) -> Result<Vec<Value>, AllocError>
    requires { length listed.now.keys ≤ object_limit }
    ensures { IfOk result (λ copies. copies.items ≡ map
        (renumbered (place_in listed.now.keys)) values.now) }
{
    let mut copies = Vec::with_capacity(alloc, values.len())?;
    for value in values {
        copies.push(packed(value, listed)?)?;
    }
    Ok(copies)
}

/// The listed objects of a state, with places in the list for references. The only error is want of
/// memory.
fn pack_objects(
    alloc: Global,
    state: &State,
    listed: &IndexSet<u32>,
) -> Result<Vec<Object>, AllocError>
    requires few { length listed.now.keys ≤ object_limit }
    requires there { All (λ r. r < length state.now.held.objects) listed.now.keys }
    ensures objects { IfOk result (λ objects. plain_objects objects.items ≡
        packed_objects state.now.held listed.now.keys) }
    ensures sizes { IfOk result (λ objects. All (λ o. length o.items < 2 ^ 32)
        (plain_objects objects.items)) }
{
    let mut objects = Vec::with_capacity(alloc, listed.len())?;
    for place in 0..listed.len() {
        let object = state.object(listed[place]);
        let items = pack_values(alloc, object.items(), listed)?;
        objects.push(Object::new(object.class(), items))?;
    }
    Ok(objects)
}

/// The values in a parcel with all objects that they lead to: shared objects stay shared, and what
/// leads back to itself does so there. The time is that of what is copied, whatever else the state
/// has. The only error is want of memory.
///
/// The values' references name objects of the state.
pub fn pack(alloc: Global, state: &State, values: &[Value]) -> Result<Parcel, AllocError>
    requires { All (RefersWithin (length state.now.held.objects)) values.now }
    ensures parcel { IfOk result (λ parcel. IsParcelOf state.now.held values.now parcel) }
    ensures one { HasOneListing state.now.held values.now }
{
    let listed = list_reached(alloc, state, values)?;
    // Then no value has a reference.
    if listed.is_empty() {
        return Parcel::of_values(alloc, values);
    }
    let copies = pack_values(alloc, values, &listed)?;
    let objects = pack_objects(alloc, state, &listed)?;
    Parcel::new(alloc, copies, objects)
}
