//! A state that is full.

use pz_copy::pz_state::{MakeError, State};
use pz_copy::pz_value::ClassId;
use std::io;

/// Makes objects without items until none is made, and gives why.
fn fill(state: &mut State) -> Result<(), MakeError> {
    for _ in 0..u32::MAX {
        state.make(ClassId(1), 0)?;
    }
    Ok(())
}

/// Shows how many objects a full state has, and why there are no more.
pub fn show_full(rt: &HostRuntime) -> io::Result<()> {
    let mut state = State::new(rt.alloc(), Vec::new(rt.alloc()));
    match fill(&mut state) {
        Ok(()) => println!(rt; "never full"),
        Err(error) => println!(rt; "full: {} objects, {error:?}", state.objects()),
    }
}
