use pz_classes_rules::pz_items::Items;
use pz_classes_rules::pz_syntax::Pos;
use pz_state::FaultKind;
use pz_state::pz_value::Value;

/// What an evaluation finds.
#[derive(Drop)]
pub enum Outcome {
    Value(Value),
    /// What is wrong, and where.
    Fault(FaultKind, Pos),
    /// More units, or a greater depth, are needed than are allowed.
    Spent,
}

/// What the evaluation of a list finds.
#[derive(Drop)]
pub enum Listed {
    /// The values of the expressions in order.
    Values(Items<Value>),
    /// What is wrong, and where.
    Fault(FaultKind, Pos),
    /// More units, or a greater depth, are needed than are allowed.
    Spent,
}
