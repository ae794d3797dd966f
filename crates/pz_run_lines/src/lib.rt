//! The lines that the program prints beside those of a trace.
#![tactic(auto)]

mod lines;

pub use lines::{
    accepted_line, model_refused_line, read_fault_line, script_refused_line, too_long_line,
    usage_line, watch_refused_line,
};
pub use pz_run_reading;
