use pz_nodes::{Key, Nodes};
use pz_rules::Limits;
use pz_rules::pz_state::State;
use pz_rules::pz_value::ClassId;
use pz_tree_acting::pz_tree_regrowing::pz_tree_nodes::Node;
use std::alloc::Global;

/// What is left of one process, as nodes that keep in short what can be done below them, and its state.
pub struct Tree {
    pub(crate) alloc: Global,
    pub(crate) nodes: Nodes<Node>,
    /// The key of the topmost node. None where nothing is left.
    pub(crate) root: Option<Key>,
    pub(crate) state: State,
    /// What the clock shows, in clock units from the start of the run.
    pub(crate) clock: u128,
    /// The number of the process, from 0 in the order of the text.
    pub(crate) process: u32,
    pub(crate) class: ClassId,
    pub(crate) limits: Limits,
}

// Written out, so that it is proved once, here, and not in each crate that drops one.
impl Drop for Tree {
    fn drop(self) {
        let Tree {
            alloc: _,
            nodes,
            root: _,
            state,
            clock: _,
            process: _,
            class: _,
            limits: _,
        } = self;
        std::mem::drop(nodes);
        std::mem::drop(state);
    }
}
