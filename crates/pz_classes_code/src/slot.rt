/// What stands for a variable in a body: an input, output or local of the method by its number
/// there, a field or variable of the class by its number there, or none of these.
#[derive(Clone, Copy, Debug, PartialEq, Eq)]
pub enum Slot {
    Local(u32),
    Shared(u32),
    Unknown,
}
