// Where what is sought stands.

use pz_offer::Verdict;

/// A place in a list, and the number that is left there.
#[derive(Clone, Copy)]
pub(crate) struct Seat {
    pub(crate) place: usize,
    pub(crate) rest: u64,
}

/// A receive by its place in its process, and what it says.
#[derive(Clone, Copy)]
pub(crate) struct Hit {
    pub(crate) place: usize,
    pub(crate) verdict: Verdict,
}

/// A receive by its process, its place there, and what it says.
#[derive(Clone, Copy)]
pub(crate) struct Taker {
    pub(crate) process: usize,
    pub(crate) hit: Hit,
}

/// A send and a receive with their places, and what the receive says to the send.
#[derive(Clone, Copy)]
pub(crate) struct Couple {
    pub(crate) sender: (usize, usize),
    pub(crate) receiver: (usize, usize),
    pub(crate) verdict: Verdict,
}
