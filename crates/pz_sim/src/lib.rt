//! The simulator over execution trees: it stands for a configuration of a model, says what may happen next there, and
//! goes on to the next one. A step looks at what it touches, and at no more.
#![tactic(auto)]

mod acting;
mod choosing;
mod deciding;
mod judging;
mod offering;
mod passing;
mod scene;
mod showing;
mod sim;
mod simulating;
mod standing;
mod starting;
mod summing;
mod telling;

pub use pz_term_simulator;
pub use sim::Sim;
pub use standing::Standing;
