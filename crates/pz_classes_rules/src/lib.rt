//! What the classes of a model are: what each inherits, the bodies of its methods with slots in place of
//! names, and all rules of the checker. Definitions and their laws; nothing here runs.
#![tactic(auto)]

pub mod laws;
mod method_id;

pub use method_id::{Counts, MethodId};
pub use pz_check_violations;
pub use pz_classes_code;
pub use pz_classes_code::{pz_items, pz_syntax, pz_value};
