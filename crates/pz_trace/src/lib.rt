//! The lines of a trace.
#![tactic(auto)]

mod ending;
mod forms;
mod headings;
mod labels;
pub mod laws;
mod lines;
mod names;
mod numbers;
mod words;

pub use ending::Ending;
pub use forms::{Form, form_of, form_told, header, limits_of, read_header};
pub use headings::{Heading, first_line, read_line};
pub use labels::label;
pub use lines::{
    action_line, end_line, end_words, put_action_line, put_end_line, put_time_line, time_line,
};
pub use pz_rules;
pub use pz_rules::pz_classes_rules;
