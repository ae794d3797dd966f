use pz_rules::pz_offer::Trouble;

/// How a trace ends.
#[derive(Clone, Copy, Debug, PartialEq, Eq)]
pub enum Ending {
    /// Every process is done.
    End,
    /// Nothing can be done any more, and some process is not done.
    Deadlock,
    /// The run was stopped where it could go on.
    Stop,
    /// An evaluation has no value, or a term is too high.
    Trouble(Trouble),
}
