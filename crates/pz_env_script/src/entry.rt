// One line of a script.

use pz_syntax::Name;
use pz_syntax::pz_items::Items;
use pz_value::Value;

/// What the environment does once: it waits, and then it offers one communication, without a condition
/// and for as long as it takes.
#[derive(Drop)]
pub struct Entry {
    /// How long it waits first, in clock units: 0 or more.
    pub wait: i64,
    /// The instance of the system that it speaks to.
    pub instance: Name,
    /// The port of that instance.
    pub port: Name,
    pub message: Name,
    pub transfer: Transfer,
}

/// Which way a message goes, and what with.
#[derive(Drop)]
pub enum Transfer {
    /// To the system, with these values, each a number, a truth value or nil.
    Send(Items<Value>),
    /// From the system, with so many values.
    Receive(u32),
}
