//! Tests of the top call over a second file: a trace, watches, a script.
#![tactic(auto)]

#[cfg(test)]
mod replays;
#[cfg(test)]
mod scripts;
#[cfg(test)]
mod watches;
