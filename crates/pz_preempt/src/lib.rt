//! Guards, aborts and interrupts: what is seen of them from what is seen of their parts, and what becomes of
//! them when a part has acted.
#![tactic(auto)]

mod changes;
mod summaries;

pub use changes::{Change, abort_after, interrupt_after};
pub use summaries::{Gate, Mode, abort_summary, guard_summary, interrupt_summary};
