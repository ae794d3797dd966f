//! What opens where a method opens, and the rules on it.
#![tactic(auto)]
