//! The classes of a model: what each inherits, and the bodies of its methods with slots in place of
//! names.
#![tactic(auto)]

mod ancestry;
mod bodies;
mod checked;
mod checking;
mod classes;
mod declarations;
mod descent;
mod entry;
mod error;
mod finding;
mod front;
mod instances;
mod line;
mod lists;
mod members;
mod method_index;
mod methods;
mod sharing;
mod starting;
mod surroundings;
mod tabling;

pub use checked::Checked;
pub use classes::Classes;
pub use declarations::{declaration, extended};
pub use error::BuildError;
pub use instances::{channels_of, class_of_instance, instances_of, is_cluster};
pub use methods::{count_names, count_section};
pub use pz_check_violations;
pub use pz_check_violations::Violation;
pub use pz_classes_code;
pub use pz_classes_code::{
    Body, Code, CodeForm, CodeLink, CodeSending, Slot, Step, StepForm, pz_items, pz_syntax,
    pz_value,
};
pub use pz_classes_lineage::Visit;
pub use pz_classes_rules::{Counts, MethodId};
