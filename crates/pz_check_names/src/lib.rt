//! The rules of the checker that are broken at a word: on types, variables, methods, selectors,
//! ports and messages, and on words that only some classes may use.
#![tactic(auto)]

mod class_scope;
mod declared;
mod inherited;
mod least;
mod messages;
mod methods;
mod names;
mod rules;
mod scopes;
mod selectors;
mod sizes;
mod stretch;
mod words;

pub use least::least_misuse;
pub use sizes::has_unsized_words;
