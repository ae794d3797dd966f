//! What simulators have in common: each stands for a configuration of the rules, and goes on as they say.
#![tactic(auto)]

pub mod laws;
mod refusal;
mod showing;
mod simulator;

pub use pz_nodes::Steps;
pub use pz_rules::pz_copy::Parcel;
pub use pz_rules::pz_offer::{End, Place, Trouble};
pub use pz_rules::{Action, Edition, Kind, Limits, Moment, Term};
pub use refusal::{ChooseError, PassError};
pub use showing::{shown_at_start, shown_in};
pub use simulator::Simulator;
