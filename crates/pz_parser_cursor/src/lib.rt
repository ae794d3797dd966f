//! What every rule of the parser is made of: a cursor over tokens with its look-ahead, and the
//! rules for names and variables.
#![tactic(auto)]

mod ahead;
mod cursor;
mod naming;
mod refusal;

pub use ahead::Next;
pub use cursor::Cursor;
pub use naming::{
    formal, names, optional_formal, optional_locals, optional_names, optional_variables,
    ports_section, variables,
};
pub use refusal::Refusal;
