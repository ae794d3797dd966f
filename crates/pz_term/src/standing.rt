use pz_rules::pz_offer::Trouble;
use pz_term_enabled::Outlook;

/// How it is with a simulator.
#[derive(Drop)]
pub enum Standing {
    /// This may happen next.
    Whole(Outlook),
    /// The start is too high: of the first such process this trouble is told, and no process was built.
    High(Trouble),
    /// The last action ended in this trouble, and did not take place.
    Stopped(Trouble),
    /// Memory was wanting.
    Broken,
}
