//! What is noted for keys in nested scopes.
#![tactic(auto)]

mod nested;

pub use nested::Nested;
