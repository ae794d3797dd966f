//! Lists of values in place.

ghost use Rattle.std.specs.Prelude.{◌≡◌, ◌<◌, ◌≤◌, ◌+◌, ◌-◌, ◌++◌, ℕ, [], length, reverse, take, slice_get, slice_set, Some, All, IfOk, OnErr, vec_len, vec_capacity};
ghost use Rattle.pz_state.specs.References.{RefersWithin};
ghost use Rattle.pz_state.specs.States.{nils};

use pz_value::Value;
use std::alloc::{AllocError, Global};
use std::mem;

/// Adds so many nils, for which there is room.
pub fn push_nils(values: &mut Vec<Value>, count: usize)
    requires { vec_len values.old + count ≤ vec_capacity values.old }
    ensures items { values.new.items ≡ values.old.items ++ nils count }
    ensures room { vec_capacity values.new ≡ vec_capacity values.old }
{
    for _done in 0..count {
        values.push_reserved(Value::Nil);
    }
}

/// So many nils. The only error is want of memory.
pub fn nil_values(alloc: Global, count: u32) -> Result<Vec<Value>, AllocError>
    ensures items { IfOk result (λ values. values.items ≡ nils count) }
    ensures within { (objects : ℕ) → IfOk result
        (λ values. All (RefersWithin objects) values.items) }
{
    let mut values = Vec::with_capacity(alloc, count as usize)?;
    push_nils(&mut values, count as usize);
    Ok(values)
}

/// Gives a place another value, and hands out the one before.
pub fn replace(values: &mut Vec<Value>, place: usize, value: Value) -> Value
    requires { place < length values.old.items }
    ensures old { slice_get values.old.items place ≡ Some result }
    ensures new { values.new.items ≡ slice_set values.old.items place value }
    ensures room { vec_capacity values.new ≡ vec_capacity values.old }
{
    mem::replace(&mut values[place], value)
}

/// Adds nils until there are so many values. The only error is want of memory, and then the values
/// stay.
pub fn grow(values: &mut Vec<Value>, count: usize) -> Result<(), AllocError>
    requires { length values.old.items ≤ count }
    ensures ok { IfOk result (λ _. values.new.items ≡ values.old.items ++ nils
        (count - length values.old.items)) }
    ensures err { OnErr result (values.new.items ≡ values.old.items) }
    ensures room { vec_capacity values.old ≤ vec_capacity values.new }
{
    let more = count - values.len();
    values.reserve(more)?;
    push_nils(values, more);
    Ok(())
}

/// Moves the last values over, so that the other list has them in reverse and so many stay.
fn move_last(values: &mut Vec<Value>, count: usize, cut: &mut Vec<Value>)
    requires within { count ≤ vec_len values.old }
    requires empty { cut.old.items ≡ [] }
    requires room { vec_len values.old - count ≤ vec_capacity cut.old }
    ensures items { values.new.items ≡ take count values.old.items }
    ensures back { values.new.items ++ reverse cut.new.items ≡ values.old.items }
    ensures room { vec_capacity values.new ≡ vec_capacity values.old }
{
    while values.len() > count {
        let Some(value) = values.pop() else {
            return;
        };
        cut.push_reserved(value);
    }
}

/// Cuts the list, so that so many values stay, and gives those that it had beyond them, in reverse.
/// The only error is want of memory, and then the values stay.
pub fn cut(values: &mut Vec<Value>, count: usize) -> Result<Vec<Value>, AllocError>
    requires { count ≤ length values.old.items }
    ensures items { IfOk result (λ cut. values.new.items ≡ take count values.old.items) }
    ensures back { IfOk result (λ cut. values.new.items ++ reverse cut.items ≡ values.old.items) }
    ensures fits { IfOk result (λ cut. length values.new.items + length cut.items ≤
        vec_capacity values.new) }
    ensures err { OnErr result (values.new.items ≡ values.old.items) }
    ensures room { vec_capacity values.new ≡ vec_capacity values.old }
{
    let mut cut = Vec::with_capacity(*values.allocator(), values.len() - count)?;
    move_last(values, count, &mut cut);
    Ok(cut)
}

/// Adds the values of a list in reverse, for which there is room.
pub fn restore(values: &mut Vec<Value>, mut cut: Vec<Value>)
    requires { length values.old.items + length cut.items ≤ vec_capacity values.old }
    ensures items { values.new.items ≡ values.old.items ++ reverse cut.items }
    ensures room { vec_capacity values.new ≡ vec_capacity values.old }
{
    while let Some(value) = cut.pop() {
        values.push_reserved(value);
    }
}

/// A list of equal values. The only error is want of memory.
pub fn copy_values(values: &Vec<Value>) -> Result<Vec<Value>, AllocError>
    ensures { IfOk result (λ copies. copies.items ≡ values.now.items) }
{
    let mut copies = Vec::with_capacity(*values.allocator(), values.len())?;
    for value in values.as_slice() {
        copies.push(value.copy()?)?;
    }
    Ok(copies)
}
