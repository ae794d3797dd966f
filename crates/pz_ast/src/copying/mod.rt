// Copies of trees, each equal to its source. The only error is want of memory.
mod classes;
mod expressions;
mod models;
mod parts;
mod statements;

pub use expressions::copy_expression;
pub use models::copy_model;
pub use statements::{copy_statement, copy_statements};
