use pz_syntax::{Id, Pos};

/// A word of a declaration, by what it is there.
#[derive(Drop)]
pub enum Mention {
    /// The name of the class that is declared.
    Declared(Id),
    /// The parent, behind `extends`.
    Extended(Id),
    /// A type, where it is named.
    Typed(Id),
    /// A variable that is read, assigned, received into or given a result of a call, and a name
    /// that is given to an instance.
    Variable(Id),
    /// The class of a `new`.
    Created(Id),
    /// A selector that is sent, and how many arguments it has: none if no brackets are written.
    Selector {
        name: Id,
        count: usize,
    },
    /// A process method, in a call or behind `init`, and how many arguments and results it has.
    Called {
        name: Id,
        inputs: usize,
        outputs: usize,
    },
    /// The port of a message, where it is declared, sent or received.
    Port(Id),
    /// A message that is sent, and how many arguments it has: none if no brackets are written.
    Sent {
        port: Id,
        name: Id,
        count: usize,
    },
    /// A message that is received, and into how many variables: none if no brackets are written.
    Received {
        port: Id,
        name: Id,
        count: usize,
    },
    /// The class of an instance.
    Instantiated(Id),
    /// `currentTime`, at its place.
    Clock(Pos),
    /// `self`, at its place.
    Me(Pos),
    /// `return`, at its place.
    Return(Pos),
    /// A float, at the place of its token.
    Float(Pos),
}
