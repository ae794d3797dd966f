use pz_nodes::Key;
use pz_state::FrameId;

/// Where a node stands.
#[derive(Clone, Copy)]
pub struct Spot {
    /// Its key.
    pub key: Key,
    /// The frame in which it stands.
    pub frame: FrameId,
    /// What its clock shows, in clock units.
    pub clock: u128,
}
