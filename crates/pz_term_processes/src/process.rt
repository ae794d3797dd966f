use pz_rules::Term;
use pz_rules::pz_state::State;

/// A process: what is left of it, and its state.
pub struct Process {
    pub term: Term,
    pub state: State,
}

// Written out, so that it is proved once, here, and not in each function that drops one.
impl Drop for Process {
    fn drop(self) {
        let Process { term, state } = self;
        std::mem::drop(term);
        std::mem::drop(state);
    }
}
