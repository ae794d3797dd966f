//! Tests of `pz_io` over its public calls.
#![tactic(auto)]

#[cfg(test)]
mod tests;
