use pz_offer::End;
use pz_offer::pz_copy::Parcel;
use pz_syntax::Name;

/// A send that is offered over a wire.
#[derive(Drop)]
pub struct Sender {
    pub end: End,
    /// The number of the wire.
    pub wire: u32,
    pub message: Name,
    pub parcel: Parcel,
}

/// A receive of so many values over a wire.
#[derive(Drop)]
pub struct Receiver {
    pub end: End,
    /// The number of the wire.
    pub wire: u32,
    pub message: Name,
    /// How many values it takes.
    pub count: usize,
}

/// A send and a receive that fit, each by its place in its list, from 0.
#[derive(Clone, Copy, Debug, PartialEq, Eq)]
pub struct Pair {
    pub sender: usize,
    pub receiver: usize,
}
