//! Who descends from whom, where each class has at most one parent: which classes are among their
//! own ancestors, and an order in which each comes after its parent.
#![tactic(auto)]

mod cycles;
mod visit;
mod walk;

pub use cycles::go_round;
pub use visit::Visit;
pub use walk::preorder;
