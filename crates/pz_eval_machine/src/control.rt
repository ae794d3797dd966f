//! What is done next, and with what an evaluation ends.

use pz_classes_code::Code;
use pz_classes_code::pz_value::Value;
use pz_eval_operations::Request;

/// What is done next.
#[derive(Drop)]
pub(crate) enum Control<'a> {
    /// An expression is evaluated.
    Evaluate { depth: u32, code: &'a Code },
    /// A value is given to the latest task.
    Give(Value),
    /// A selector is sent, all its arguments being there.
    Send(Box<Request<'a>>),
    /// The method that runs ends with a value.
    Leave(Value),
}

/// What an evaluation ends with.
#[derive(Drop)]
pub enum Finish {
    Value(Value),
    /// A `return` outside data methods.
    Return(Value),
}

/// How a step leaves an evaluation.
#[derive(Drop)]
pub(crate) enum Progress<'a> {
    On(Control<'a>),
    Over(Finish),
}
