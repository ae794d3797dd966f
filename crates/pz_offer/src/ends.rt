ghost use Rattle.std.specs.Prelude.{◌≡◌, IfOk};

use crate::{Place, Trouble};
use pz_copy::Parcel;
use pz_syntax::Name;
use std::alloc::AllocError;

/// A send that a process offers, with the values that it has for the message.
#[derive(Drop)]
pub struct SendOffer {
    /// The number of the wire that its port reaches; none where the port reaches no wire.
    pub wire: Option<u32>,
    /// Where it stands in the term of the process.
    pub place: Place,
    pub message: Name,
    pub parcel: Parcel,
}

impl SendOffer {
    /// An equal offer. The only error is want of memory.
    pub fn copy(&self) -> Result<SendOffer, AllocError>
        ensures { IfOk result (λ copy. copy ≡ self.now) }
    {
        let place = self.place.copy()?;
        let message = self.message.copy()?;
        let parcel = self.parcel.copy()?;
        Ok(SendOffer {
            wire: self.wire,
            place,
            message,
            parcel,
        })
    }
}

/// A receive that a process offers.
#[derive(Drop)]
pub struct ReceiveOffer {
    /// The number of the wire that its port reaches; none where the port reaches no wire.
    pub wire: Option<u32>,
    /// Where it stands in the term of the process.
    pub place: Place,
    pub message: Name,
    /// How many values it takes.
    pub count: usize,
    /// Whether it has a condition on these values.
    pub conditional: bool,
    /// Whether it has a condition that names the clock.
    pub uses_clock: bool,
}

impl ReceiveOffer {
    /// An equal offer. The only error is want of memory.
    pub fn copy(&self) -> Result<ReceiveOffer, AllocError>
        ensures { IfOk result (λ copy. copy ≡ self.now) }
    {
        let place = self.place.copy()?;
        let message = self.message.copy()?;
        Ok(ReceiveOffer {
            wire: self.wire,
            place,
            message,
            count: self.count,
            conditional: self.conditional,
            uses_clock: self.uses_clock,
        })
    }
}

/// What a receive says to the values of a send.
#[derive(Clone, Copy, Debug, PartialEq, Eq)]
pub enum Verdict {
    /// It has no condition, or its condition is true.
    Yes,
    /// Its condition is false.
    No,
    /// Its condition has no value.
    Trouble(Trouble),
}
