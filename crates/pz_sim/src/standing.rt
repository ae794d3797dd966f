use pz_rules::Moment;
use pz_rules::pz_offer::Trouble;

/// How it is with a simulator.
#[derive(Drop)]
pub enum Standing {
    /// This may happen next.
    Whole(Moment),
    /// The start is too high: of the first such process this trouble is told, and no tree was built.
    High(Trouble),
    /// The last action ended in this trouble, and did not take place.
    Stopped(Trouble),
    /// Memory was wanting.
    Broken,
}
