//! Lists, boxes, shared values and texts that contracts see as what they hold, so that a tree made of
//! them is plain data: a copy can equal what it copies, though it lies elsewhere in memory.
#![tactic(auto)]

mod boxed;
mod items;
mod pairs;
mod shared;
mod text;

pub use boxed::Boxed;
pub use items::Items;
pub use pairs::both;
pub use shared::Shared;
pub use text::Text;
