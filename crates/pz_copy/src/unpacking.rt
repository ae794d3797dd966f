//! From a parcel into a state.

ghost use Rattle.std.specs.Prelude.{◌≡◌, ◌<◌, ◌≤◌, ◌+◌, ◌-◌, ◌^◌, ◌↔◌, ◌++◌, ℕ, List, length, take, map, All, Err, IfOk, OnOk, OnErr};
ghost use Rattle.pz_state.specs.pz_value.declared.value.Value.{Value};
ghost use Rattle.pz_state.specs.References.{RefersWithin};
ghost use Rattle.pz_state.specs.States.{StateView, object, nils};
ghost use Rattle.pz_state.specs.Marks.{changed};
ghost use Rattle.pz_copy.specs.References.{renumbered};
ghost use Rattle.pz_copy.specs.Parcels.{plain_objects, IsParcel};
ghost use Rattle.pz_copy.specs.Packing.{IsParcelOf};
ghost use Rattle.pz_copy.specs.Unpacking.{shifted_values, shifted_objects, unpacked, unpacked_values};
ghost use Rattle.pz_copy.specs.Sharing.{SameUpToNumbers};
ghost use Rattle.pz_copy.specs.devices.Filling.{blank_of, with_blanks, filled};
ghost use Rattle.pz_state.specs.States.{object_limit};

use crate::parcel::Parcel;
use pz_state::pz_value::Value;
use pz_state::{MakeError, OBJECT_LIMIT, Object, State};
use std::alloc::{AllocError, Global};

/// Why [`unpack`] copied nothing.
#[derive(Clone, Copy, Debug, PartialEq, Eq)]
pub enum UnpackError {
    /// Memory was wanting.
    NoMemory,
    /// There would be more objects than may be.
    StoreFull,
}

impl From<AllocError> for UnpackError {
    ghost use Rattle.std.specs.Prelude.{◌≡◌};
    ghost use Rattle.pz_copy.specs.declared.unpacking.UnpackError.TheVariants.{NoMemory};

    ghost from_gives = { λ _ error. error ≡ NoMemory };

    fn from(_: AllocError) -> UnpackError {
        UnpackError::NoMemory
    }
}

/// An equal value, but for a reference, which is so much greater. The only error is want of memory.
fn shifted(value: &Value, count: u32) -> Result<Value, AllocError>
    requires room { count ≤ object_limit }
    requires within { RefersWithin (object_limit - count) value.now }
    ensures { IfOk result (λ shifted. shifted ≡ renumbered (λ r. count + r) value.now) }
{
    match value {
        Value::Ref(r) => Ok(Value::Ref(count + *r)),
        _ => value.copy(),
    }
}

/// Equal values, but for references, which are so much greater. The only error is want of memory.
fn shift_values(alloc: Global, values: &[Value], count: u32) -> Result<Vec<Value>, AllocError>
    requires room { count ≤ object_limit }
    requires within { All (RefersWithin (object_limit - count)) values.now }
    ensures { IfOk result (λ copies. copies.items ≡ shifted_values count values.now) }
{
    let mut copies = Vec::with_capacity(alloc, values.len())?;
    for value in values {
        copies.push(shifted(value, count)?)?;
    }
    Ok(copies)
}

/// Makes an object without values for each of these. The only error is want of memory.
fn make_objects(state: &mut State, objects: &[Object]) -> Result<(), AllocError>
    requires sizes { All (λ o. length o.items < 2 ^ 32) (plain_objects objects.now) }
    requires room { length state.old.held.objects + length (plain_objects objects.now) ≤
        object_limit }
    ensures ok { OnOk result (state.new ≡ changed state.old
        (with_blanks state.old.held (plain_objects objects.now))) }
    ensures marks { state.new.marks ≡ state.old.marks }
{
    for object in objects {
        match state.make(object.class(), object.items().len() as u32) {
            Ok(_) => {}
            Err(MakeError::NoMemory) => return Err(AllocError),
            Err(MakeError::StoreFull) => unreachable!(),
        }
    }
    Ok(())
}

/// Gives an object these items, with references that are so much greater. The only error is want of
/// memory.
fn fill_object(state: &mut State, r: u32, items: &[Value], count: u32) -> Result<(), AllocError>
    requires there { r < length state.old.held.objects }
    requires blank { (object state.old.held r).items ≡ nils (length items.now) }
    requires size { length items.now < 2 ^ 32 }
    requires room { length state.old.held.objects ≤ object_limit }
    requires below { count ≤ length state.old.held.objects }
    requires within { All (RefersWithin (length state.old.held.objects - count)) items.now }
    ensures ok { OnOk result (state.new ≡ changed state.old
        (filled r (shifted_values count items.now) state.old.held)) }
    ensures marks { state.new.marks ≡ state.old.marks }
{
    for (place, item) in items.iter().enumerate() {
        let value = shifted(item, count)?;
        state.set_item(r, place as u32, value)?;
    }
    Ok(())
}

/// Gives the last objects, of which the first has this number, the items of these, with references
/// that are so much greater. The only error is want of memory.
fn fill_objects(state: &mut State, objects: &[Object], count: u32) -> Result<(), AllocError>
    requires blank { state.old.held.objects ≡ take count state.old.held.objects ++ map blank_of
        (plain_objects objects.now) }
    requires number { length (take count state.old.held.objects) ≡ count }
    requires room { length state.old.held.objects ≤ object_limit }
    requires within { All (λ o. All (RefersWithin (length (plain_objects objects.now))) o.items)
        (plain_objects objects.now) }
    requires sizes { All (λ o. length o.items < 2 ^ 32) (plain_objects objects.now) }
    ensures ok { OnOk result (state.new ≡ changed state.old
        (record state.old.held {
          objects = take count state.old.held.objects ++ shifted_objects
              count (plain_objects objects.now);
        })) }
    ensures marks { state.new.marks ≡ state.old.marks }
{
    for (place, object) in objects.iter().enumerate() {
        fill_object(state, count + place as u32, object.items(), count)?;
    }
    Ok(())
}

/// Puts the objects of a parcel, for which there is room, behind those of a state. The only error is
/// want of memory, and then the marks are as before.
fn append(state: &mut State, parcel: &Parcel, count: u32) -> Result<(), AllocError>
    requires number { count ≡ length state.old.held.objects }
    requires room { count + length parcel.now.objects ≤ object_limit }
    requires contained { IsParcel parcel.now }
    ensures ok { OnOk result (state.new ≡ changed state.old (unpacked state.old.held parcel.now)) }
    ensures marks { state.new.marks ≡ state.old.marks }
{
    let objects = parcel.objects();
    make_objects(state, objects)?;
    fill_objects(state, objects, count)
}

/// Puts a parcel into a state: its objects behind those that are there, with references to them there,
/// and gives its values in order, likewise. At a refusal all is as before.
pub fn unpack(alloc: Global, state: &mut State, parcel: &Parcel) -> Result<Vec<Value>, UnpackError>
    ensures values { IfOk result (λ values. values.items ≡
        unpacked_values state.old.held parcel.now) }
    ensures within { IfOk result (λ values. All (RefersWithin (length state.new.held.objects))
        values.items) }
    ensures ok { OnOk result (state.new ≡ changed state.old (unpacked state.old.held parcel.now)) }
    ensures err { OnErr result (state.new ≡ state.old) }
    ensures full { result ≡ Err UnpackError.StoreFull
        ↔ object_limit < length state.old.held.objects + length parcel.now.objects }
    ensures sharing { IfOk result (λ values. (s : StateView) (packed : List Value) →
        IsParcelOf s packed parcel.now → SameUpToNumbers s packed state.new.held values.items) }
{
    let count = state.objects();
    if parcel.objects().len() > (OBJECT_LIMIT - count) as usize {
        return Err(UnpackError::StoreFull);
    }
    let values = shift_values(alloc, parcel.values(), count)?;
    let mark = state.mark()?;
    match append(state, parcel, count) {
        Ok(()) => {
            state.keep(mark);
            Ok(values)
        }
        Err(_) => {
            state.undo_to(mark);
            Err(UnpackError::NoMemory)
        }
    }
}
