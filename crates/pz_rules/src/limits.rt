/// The rules by which a model runs: what a plain call is, one of a process method without inputs and
/// without results.
#[derive(Clone, Copy, Debug, PartialEq, Eq)]
pub enum Edition {
    /// It is an action of its own, like any other call.
    One,
    /// It opens at once, as the frame of its method's body, and is no action.
    Two,
}

/// What evaluations and terms may take, and the rules by which a model runs.
#[derive(Clone, Copy, Debug, PartialEq, Eq)]
pub struct Limits {
    /// The units of one evaluation.
    pub units: u64,
    /// The depth of one evaluation.
    pub depth: u32,
    /// The height of a term.
    pub height: u32,
    /// The edition of the rules.
    pub edition: Edition,
}
