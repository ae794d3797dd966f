//! Single operations of evaluation, which wait for no other expression: what variables hold and get,
//! new objects, operators, what a receiver does with a selector, and what simple expressions come to.
//! What a method that runs has left to do has its types here.
#![tactic(auto)]

mod assigning;
mod attempts;
mod creating;
mod operating;
mod reading;
mod replying;
mod stop;
mod task;
mod units;
mod writing;

pub use assigning::{assign_at_once, assign_number};
pub use attempts::{at_once, self_at, truth_at_once};
pub use creating::{create, time};
pub use operating::{apply, apply_counted};
pub use pz_classes;
pub use pz_eval_rules;
pub use reading::{copy, read};
pub use replying::{Method, Reply, ask};
pub use stop::Stop;
pub use task::{Activation, Request, Site, Task};
pub use units::tick;
pub use writing::write;
