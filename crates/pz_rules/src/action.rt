use pz_bind_rules::pz_syntax::{Name, Pos};
use pz_offer::End;
use pz_offer::pz_copy::Parcel;

/// The kinds of internal actions.
#[derive(Clone, Copy, Debug, PartialEq, Eq)]
pub enum Kind {
    /// A `skip`.
    Skip,
    /// An expression, an assignment or a block is evaluated.
    Eval,
    /// The test of an `if` or a `while` is evaluated.
    Test,
    /// A delay ends, of which nothing is left.
    Expire,
    /// A method is called.
    Call,
}

/// One event of a model.
#[derive(Drop)]
pub enum Action {
    /// An internal step of one process, at the place of the first token of its statement.
    Internal {
        at: End,
        kind: Kind,
        pos: Pos,
    },
    /// A communication of two processes over a wire, which has its number from 0.
    Comm {
        wire: u32,
        sender: End,
        receiver: End,
        message: Name,
        parcel: Parcel,
    },
}
