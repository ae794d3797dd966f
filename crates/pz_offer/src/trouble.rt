use pz_copy::pz_state::FaultKind;
use pz_syntax::Pos;

/// Why a process cannot do what it is about to do. It names the process by its number, from 0 in the
/// order of the text, and a place of the text.
#[derive(Clone, Copy, Debug, PartialEq, Eq)]
pub enum Trouble {
    /// An evaluation has no value.
    Fault {
        kind: FaultKind,
        process: u32,
        pos: Pos,
    },
    /// An evaluation is not over within its allowance.
    Spent {
        process: u32,
        pos: Pos,
    },
    /// A term is higher than its limit.
    High {
        process: u32,
        pos: Pos,
    },
}
