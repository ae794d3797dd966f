//! The processes of a checked model's system, and the wires between them.
#![tactic(auto)]

mod bindings;
mod declared;
mod naming;
mod net;
mod nodes;
mod plans;
mod sites;

pub use net::Net;
pub use pz_bind_rules::pz_value::{ClassId, Value};
pub use pz_bind_rules::{pz_classes_code, pz_classes_rules, pz_items, pz_syntax, pz_value};
pub use pz_classes;
