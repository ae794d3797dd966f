//! The values of constants.

ghost use Rattle.std.specs.Prelude.{◌≡◌, IfOk};
ghost use Rattle.pz_classes_code.specs.Literals as spec;

use pz_syntax::Literal;
use pz_value::{Text, Value};
use std::alloc::{AllocError, Global};

/// The value of a constant. The only error is want of memory.
pub fn constant(alloc: Global, literal: &Literal) -> Result<Value, AllocError>
    ensures { IfOk result (λ value. value ≡ spec.constant literal.now) }
{
    Ok(match literal {
        Literal::Int(n) => Value::Int(*n),
        Literal::Float | Literal::Nil => Value::Nil,
        Literal::Char(byte) => Value::Char(*byte),
        Literal::Str(text) => Value::Str(Text::new(text.get().as_bytes().to_vec(alloc)?)),
        Literal::True => Value::Bool(true),
        Literal::False => Value::Bool(false),
    })
}
