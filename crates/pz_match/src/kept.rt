use crate::groups::Tally;
use crate::offers::{Receiver, Sender};
use crate::rows::Rows;

/// A send as it is kept.
#[derive(Drop)]
pub(crate) struct Sending {
    pub(crate) sender: Sender,
    /// The number of its group.
    pub(crate) group: usize,
    /// What the conditional receives that fit said, those of a process in their order.
    pub(crate) rows: Rows,
}

/// A receive as it is kept.
#[derive(Drop)]
pub(crate) struct Receiving {
    pub(crate) receiver: Receiver,
    /// The number of its group.
    pub(crate) group: usize,
}

/// What a process offers, in the order of the places.
#[derive(Drop)]
pub(crate) struct Offers {
    /// The number of the process.
    pub(crate) process: u32,
    pub(crate) sends: Vec<Sending>,
    pub(crate) receives: Vec<Receiving>,
}

/// What an offer that stays in its group counts there.
#[derive(Clone, Copy)]
pub(crate) struct Stay {
    pub(crate) group: usize,
    pub(crate) tally: Tally,
}
