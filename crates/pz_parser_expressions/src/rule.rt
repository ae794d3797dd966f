/// The rules of the grammar for expressions that are read by themselves, from the loosest on. A
/// rule has what the later ones have. From `Value` to `Product` they are chains of operators.
#[derive(Clone, Copy, Debug, PartialEq, Eq)]
pub enum Rule {
    /// An assignment, a `return`, or a value.
    Expression,
    /// A chain of `|`.
    Value,
    /// A chain of `&`.
    Conjunction,
    Comparison,
    Sum,
    Product,
    /// Signs before what sends and what is sent to.
    Operand,
}
