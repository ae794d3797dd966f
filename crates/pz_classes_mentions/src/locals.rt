use pz_syntax::VarGroup;

/// The variables that a part of a declaration declares, in the order of the text.
#[derive(Clone, Copy)]
pub struct Locals<'a> {
    pub inputs: &'a [VarGroup],
    pub outputs: &'a [VarGroup],
    /// Those of the body, or the parameters of a cluster.
    pub others: &'a [VarGroup],
}
