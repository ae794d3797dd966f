//! What a declaration mentions: every word of it that a rule of the checker may speak of, in the
//! order of the text. Nothing is said of right or wrong.
#![tactic(auto)]

mod classes;
mod expressions;
mod groups;
mod instances;
mod listener;
mod local_scope;
mod locals;
mod mention;
mod part;
mod parts;
mod statements;
mod word;

pub use listener::Listener;
pub use local_scope::LocalScope;
pub use locals::Locals;
pub use mention::Mention;
pub use part::Part;
pub use parts::parts_of;
pub use word::Word;
