/// How large the system of a model is, each cluster expanded.
#[derive(Clone, Copy, Debug, PartialEq, Eq)]
pub struct Size {
    pub processes: u32,
    pub wires: u32,
}
