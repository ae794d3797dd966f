ghost use Rattle.std.specs.Prelude.{◌≡◌, IfOk};

use crate::Place;
use std::alloc::AllocError;

/// A part of a process: the number of the process, from 0 in the order of the text, and the place
/// in its term.
#[derive(Drop)]
pub struct End {
    pub process: u32,
    pub place: Place,
}

impl End {
    /// An equal end. The only error is want of memory.
    pub fn copy(&self) -> Result<End, AllocError>
        ensures { IfOk result (λ copy. copy ≡ self.now) }
    {
        let place = self.place.copy()?;
        Ok(End {
            process: self.process,
            place,
        })
    }
}
