//! The command line: which list of words asks for which job.
#![tactic(auto)]

mod jobs;
mod names;
mod numbers;
mod options;
mod reading;
mod values;
mod words;

pub use jobs::{Choice, DEFAULT_STEPS, DEFAULT_UNITS, FileName, Job, MOST_STATIONS, RunLimits};
pub use options::{MOST_STEPS, MOST_UNITS};
pub use words::{job_is_computed, one_job, read_words};
