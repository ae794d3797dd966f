use pz_rules::Moment;

/// Why an offer was not chosen.
#[derive(Clone, Copy, Debug, PartialEq, Eq)]
pub enum ChooseError {
    /// Memory was wanting, and the simulator is broken from now on.
    NoMemory,
    /// There are only so many offers, numbered from 0.
    NoSuchOffer { offers: u64 },
    /// The moment is this one, and not `Actions`.
    NotNow(Moment),
}

/// Why no time passed.
#[derive(Clone, Copy, Debug, PartialEq, Eq)]
pub enum PassError {
    /// Memory was wanting, and the simulator is broken from now on.
    NoMemory,
    /// The moment is this one, and not `Time`.
    NotNow(Moment),
}
