//! The nodes of an execution tree: what each is and keeps; how they are made for a term, sought by place or number, and
//! freed.
#![tactic(auto)]

mod children;
mod clocks;
mod dropping;
mod found;
mod hand;
mod heads;
mod inside;
mod kept;
mod kth;
pub mod laws;
mod leaves;
mod listing;
mod node;
mod parts;
mod planting;

pub use clocks::{names_clock, part_names_clock};
pub use dropping::{drop_part, drop_parts};
pub use found::{ActingPart, Offering, Part};
pub use hand::{hollow, put_back};
pub use inside::{behind_inside, clock_inside, frame_inside, reaches};
pub use kept::{Kept, fuel_for, later};
pub use kth::kth_internal;
pub use listing::list_offering;
pub use node::{Head, Node, What};
pub use parts::{Spot, part_at};
pub use planting::plant;
pub use pz_tree_standing;
