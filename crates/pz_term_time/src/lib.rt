//! What the passing of time leaves of a term.
#![tactic(auto)]

mod passing;

pub use passing::pass;
