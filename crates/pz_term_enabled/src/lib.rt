//! One walk of a term, which lists what its active parts can do, send and receive, what is left of
//! active delays, and what is wrong, in the order of places.
//!
//! What the active parts of all processes of a model can do and are asked at a moment.
//!
//! The moment of a configuration, and its offers.
#![tactic(auto)]

mod adding;
mod findings;
mod found;
mod judging;
mod looking;
mod noting;
mod surveying;
mod walking;

pub use findings::Survey;
pub use found::{ActiveReceive, ActiveSend, Doing, Found};
pub use looking::{Outlook, look};
pub use surveying::survey;
pub use walking::walk;
