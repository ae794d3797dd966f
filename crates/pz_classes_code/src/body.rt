use crate::{Code, Step};
use pz_syntax::pz_items::{Items, Shared};

/// The body of a method. `locals` is how many inputs, outputs and locals there are; they are
/// numbered in this order.
#[derive(Drop)]
pub enum Body {
    Data {
        locals: u32,
        code: Items<Code>,
    },
    Process {
        locals: u32,
        stmts: Shared<Items<Step>>,
    },
}
