use pz_offer::Trouble;

/// What may happen next: the first of these that applies.
#[derive(Clone, Copy, Debug, PartialEq, Eq)]
pub enum Moment {
    /// There are so many offers, at least one.
    Actions(u64),
    /// There is no offer, and so much time passes, in clock units, at least one.
    Time(u128),
    /// There is no offer and no active delay, and every process is done.
    Finished,
    /// There is no offer and no active delay, and some process is not done.
    Deadlock,
    /// What an active part is asked has no answer.
    Faulty(Trouble),
    /// The last action ended in a trouble, and did not take place; or, before any action, what stands at
    /// the start is too high.
    Stopped(Trouble),
    /// No moment of a configuration: a simulator says it after want of memory.
    Broken,
}
