//! What is declared twice, what is connected twice, and that there is one system.
#![tactic(auto)]

mod again;
mod declaring;
mod ends;
mod inherited;
mod messages;
mod methods;
mod names;
mod places;
mod repeats;
mod systems;
mod walk;

pub use ends::least_double_end;
pub use repeats::least_repeat;
pub use systems::least_system;
