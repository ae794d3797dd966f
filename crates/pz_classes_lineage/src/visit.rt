/// A class as a walk comes to it that goes from each class to those that extend it.
#[derive(Clone, Copy, Debug, PartialEq, Eq)]
pub struct Visit {
    /// The number of the class.
    pub class: u32,
    /// How many ancestors it has.
    pub depth: usize,
}
