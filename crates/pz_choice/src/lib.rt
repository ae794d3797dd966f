//! Who chooses offers: the first one always, the words that a seed makes, or a list.
#![tactic(auto)]

mod choices;
mod chooser;
mod generator;

pub use choices::Choices;
pub use chooser::Chooser;
pub use generator::Generator;
