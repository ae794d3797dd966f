//! Tests of the top call: command lines, texts and failing calls.
#![tactic(auto)]

#[cfg(test)]
mod failures;
#[cfg(test)]
mod programs;
#[cfg(test)]
mod simulators;
