//! How high a term becomes once a part of it has become another, one form on one level.
#![tactic(auto)]

mod heights;
mod outline;

pub use heights::height_of;
pub use outline::{
    Outline, outline_above, outline_done, outline_first, outline_frame, outline_of,
    outline_parallel, outline_second, outline_sequence,
};
