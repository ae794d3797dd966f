//! What the nodes of a process stand for, what a term can do in short, which nodes keep that rightly, and which frames
//! stand; what is so of these when time passes, a part acts or a child becomes another.
#![tactic(auto)]

pub mod laws;

pub use pz_rules;
