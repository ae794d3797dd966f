use pz_run_output::Status;
use pz_sim::Sim;

/// How a call of the program ended.
#[derive(Drop)]
pub struct Finish {
    pub status: Status,
    /// The simulator of the run, where that ended; none where no run has begun.
    pub sim: Option<Sim>,
}
