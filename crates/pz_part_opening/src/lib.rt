//! How statements become terms, without an action, and how high these are.
#![tactic(auto)]

mod done;
mod heights;
mod home;
mod opening;
mod spot;

pub use done::{all_done, is_bare, is_done};
pub use heights::{opens_bare, opens_done, stays_within, step_within};
pub use home::Home;
pub use opening::{open_all, open_rest, open_step, open_term};
