ghost use Rattle.std.specs.Prelude.{◌≡◌, IfOk};

use pz_items::Text;
use std::alloc::AllocError;

/// The number of a class: 0 is Array, and the classes of a model are numbered from 1 in the order
/// of its text.
#[derive(Clone, Copy, Debug, PartialEq, Eq)]
pub struct ClassId(pub u32);

/// What a variable holds. `Ref` is the number of an object, from 0.
#[derive(Debug, Drop)]
pub enum Value {
    Nil,
    Bool(bool),
    Int(i64),
    Char(u8),
    Str(Text),
    Ref(u32),
}

impl Value {
    /// An equal value. The only error is want of memory.
    pub fn copy(&self) -> Result<Value, AllocError>
        ensures { IfOk result (λ copy. copy ≡ self.now) }
    {
        Ok(match self {
            Value::Nil => Value::Nil,
            Value::Bool(b) => Value::Bool(*b),
            Value::Int(n) => Value::Int(*n),
            Value::Char(c) => Value::Char(*c),
            Value::Str(text) => Value::Str(text.copy()?),
            Value::Ref(r) => Value::Ref(*r),
        })
    }
}
