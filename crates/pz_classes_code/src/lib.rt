//! The bodies of methods with slots in place of variables and numbers in place of classes and
//! ports, and how a body of the syntax is resolved to one; names that no model declares, and numberings of names.
#![tactic(auto)]

mod body;
mod code;
mod literals;
mod names;
mod numbering;
mod reserved;
mod resolving;
mod scope;
mod slot;
mod step;

pub use body::Body;
pub use code::{Code, CodeForm, CodeLink, CodeSending};
pub use literals::constant;
pub use names::{NameFront, NameList};
pub use numbering::{Numbering, places_of};
pub use pz_syntax;
pub use pz_syntax::pz_items;
pub use pz_value;
pub use reserved::{is_array, is_object, is_primitive, is_unsupported};
pub use resolving::{resolve_list, resolve_statements};
pub use scope::Scope;
pub use slot::Slot;
pub use step::{Step, StepForm};
