//! States of objects of one class.

use crate::conditions::refers_within;
use pz_copy::pz_state::State;
use pz_copy::pz_value::{ClassId, Text, Value};
use std::alloc::{AllocError, Global};

/// The class of the objects with two items.
const NODE: ClassId = ClassId(1);

/// Gives an item a value, where the item and what the value refers to are there.
pub fn set(state: &mut State, r: u32, item: u32, value: Value) -> Result<(), AllocError> {
    let count = state.objects();
    if r >= count || !refers_within(&value, count) {
        return Ok(());
    }
    if item as usize >= state.object(r).items().len() {
        return Ok(());
    }
    state.set_item(r, item, value)
}

/// Makes so many objects of two nil items. Where there would be too many, that counts as want of
/// memory.
pub fn make_nodes(state: &mut State, count: u32) -> Result<(), AllocError> {
    for _node in 0..count {
        if state.make(NODE, 2).is_err() {
            return Err(AllocError);
        }
    }
    Ok(())
}

/// A state with so many objects of two nil items.
pub fn nodes(alloc: Global, count: u32) -> Result<State, AllocError> {
    let mut state = State::new(alloc, Vec::new(alloc));
    make_nodes(&mut state, count)?;
    Ok(state)
}

/// The names of Array and of the class of nodes.
pub fn class_names(alloc: Global) -> Result<Vec<Text>, AllocError> {
    let mut names = Vec::with_capacity(alloc, 2)?;
    names.push(Text::new(Vec::from_slice(alloc, b"Array")?))?;
    names.push(Text::new(Vec::from_slice(alloc, b"N")?))?;
    Ok(names)
}
