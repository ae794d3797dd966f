use pz_trace::Ending;

/// How the replay of a trace has ended.
#[derive(Clone, Copy, Debug, PartialEq, Eq)]
pub enum Replayed {
    /// The trace is that of a run, which has ended so.
    Ended(Ending),
    /// The trace is that of no run, and is refused at the line of this number, from 1.
    Refused { line: u64 },
}
