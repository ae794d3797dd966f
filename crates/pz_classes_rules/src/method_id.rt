/// How many inputs and outputs a method has; one of a data class has inputs alone.
#[derive(Clone, Copy, Debug, PartialEq, Eq)]
pub enum Counts {
    Data { inputs: usize },
    Process { inputs: usize, outputs: usize },
}

/// The number of a method. The methods of a model are numbered through from 0, in the order of the
/// text.
#[derive(Clone, Copy, Debug, PartialEq, Eq)]
pub struct MethodId(pub u32);
