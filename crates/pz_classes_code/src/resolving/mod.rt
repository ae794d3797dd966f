// Trees with slots and numbers in place of names. The only error is want of memory.
mod expressions;
mod statements;

pub use expressions::resolve_list;
pub use statements::resolve_statements;
