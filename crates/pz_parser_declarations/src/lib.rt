//! The rules of the parser for data classes, and for the sections of process classes that hold no
//! statements.
//!
//! The rules of the parser for instances, channels, cluster classes and the system.
#![tactic(auto)]

mod channels;
mod data_classes;
mod declarations;
mod instances;
mod messages;
mod sections;

pub use data_classes::data_class;
pub use declarations::{cluster_class, system};
pub use messages::messages_section;
pub use sections::{parent_section, start_section, variables_section};
