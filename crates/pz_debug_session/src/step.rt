/// A step of a session.
#[derive(Clone, Copy, Debug, PartialEq, Eq)]
pub enum Step {
    /// The offer of this number, from 0, was chosen; its action took place, or ended in a trouble.
    Pick(u64),
    /// Time passed.
    Pass,
}
