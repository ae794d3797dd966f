// The points of a run. They are made of what a run has at hand, and take no memory.

/// A point of a run: what one line of its trace tells, and the clock that this line shows. The clock
/// of a time line is the one before time passes.
#[derive(Clone, Copy)]
pub struct Spot<'a> {
    pub clock: u128,
    pub event: Event<'a>,
}

/// What a line of the trace tells, in the words of the trace.
#[derive(Clone, Copy)]
pub enum Event<'a> {
    /// Time passes.
    Pass,
    /// A process does something by itself: the path of the process, and the word of what it does.
    Internal {
        path: &'a [u8],
        kind: &'a [u8],
    },
    /// A message goes from one process to another: its name, and both paths.
    Comm {
        message: &'a [u8],
        from: &'a [u8],
        to: &'a [u8],
    },
}
