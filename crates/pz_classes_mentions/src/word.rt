use pz_syntax::{Id, Name, Pos};

/// A word of a declaration where it stands in the tree, by what it is there: the forms are those of
/// `Mention`.
#[derive(Clone, Copy)]
pub enum Word<'a> {
    Declared(&'a Id),
    Extended(&'a Id),
    Typed(&'a Id),
    Variable {
        name: &'a Name,
        pos: Pos,
    },
    Created(&'a Id),
    Selector {
        name: &'a Id,
        count: usize,
    },
    Called {
        name: &'a Id,
        inputs: usize,
        outputs: usize,
    },
    Port(&'a Id),
    Sent {
        port: &'a Id,
        name: &'a Id,
        count: usize,
    },
    Received {
        port: &'a Id,
        name: &'a Id,
        count: usize,
    },
    Instantiated(&'a Id),
    Clock(Pos),
    Me(Pos),
    Return(Pos),
    Float(Pos),
}
