//! The plain simulator: it stands for a configuration of the rules, and finds all anew at each moment.
#![tactic(auto)]

mod copying;
mod plain;
mod simulating;
mod standing;
mod vector;

pub use plain::Plain;
pub use pz_term_processes::pz_part_actions::pz_part_opening::open_term;
pub use pz_term_simulator::{
    Action, ChooseError, Edition, End, Kind, Limits, Moment, Parcel, PassError, Place, Simulator,
    Steps, Term, Trouble, shown_at_start,
};
