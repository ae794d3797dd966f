ghost use Rattle.std.specs.Prelude.{◌≡◌, IfOk};

use pz_offer::End;
use pz_offer::pz_copy::Parcel;
use pz_syntax::Name;
use std::alloc::AllocError;

/// A send that a process offers over a wire.
#[derive(Drop)]
pub struct Sender {
    pub end: End,
    /// The number of the wire.
    pub wire: u32,
    pub message: Name,
    pub parcel: Parcel,
}

impl Sender {
    /// An equal send. The only error is want of memory.
    pub fn copy(&self) -> Result<Sender, AllocError>
        ensures { IfOk result (λ copy. copy ≡ self.now) }
    {
        let end = self.end.copy()?;
        let message = self.message.copy()?;
        let parcel = self.parcel.copy()?;
        Ok(Sender {
            end,
            wire: self.wire,
            message,
            parcel,
        })
    }
}

/// A receive of so many values that a process offers over a wire.
#[derive(Drop)]
pub struct Receiver {
    pub end: End,
    /// The number of the wire.
    pub wire: u32,
    pub message: Name,
    /// How many values it takes.
    pub count: usize,
    /// Whether it has a condition on these values.
    pub conditional: bool,
}
