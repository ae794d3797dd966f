use pz_state::FaultKind;
use pz_state::pz_value::Value;

/// What a value answers to a selector.
#[derive(Drop)]
pub enum Prim {
    /// This value.
    Value(Value),
    /// What is wrong.
    Fault(FaultKind),
    /// The receiver is an object that is no Array, and not every value has the selector: its class
    /// may have a method.
    Other,
}

/// What a row of the table gives.
pub type Answer = Result<Value, FaultKind>;
