/// How much an evaluation may need: the units that it may count, and how deep expressions may stand.
/// The expression that is asked for has depth 1.
#[derive(Clone, Copy, Debug, PartialEq, Eq)]
pub struct Allowance {
    pub units: u64,
    pub depth: u32,
}
