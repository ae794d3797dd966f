//! The commands of a stepping session, read line by line from the front of a text.
#![tactic(auto)]

mod command;
mod commands;
mod cutting;
pub mod laws;
mod numbers;
mod reading;

pub use command::{Command, Numbered};
pub use commands::Commands;
pub use reading::read_command;
