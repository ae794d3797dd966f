ghost use Rattle.std.specs.Prelude.{◌≡◌, Ok, IfOk};

use std::alloc::{AllocError, Global};
use std::marker::Model;

/// A value on the heap, which contracts see as the value itself. Recursive types hold their
/// parts in it.
#[derive(Debug, Drop)]
pub struct Boxed<T> {
    inner: Box<T>,
}

impl<T> Model for Boxed<T> {
    ghost Value = { T };

    ghost coded = { T.code };

    ghost view = { λ b. b.inner.value };
}

impl<T> Boxed<T> {
    /// The value.
    pub fn get(&self) -> &T
        ensures { result.now ≡ self.now }
    {
        &self.inner
    }

    /// Gives the value back. Takes no memory.
    pub fn into_inner(self) -> T
        ensures { result ≡ self }
    {
        let Boxed { inner } = self;
        Box::into_inner(inner)
    }
}

impl<T: Drop> Boxed<T> {
    /// Puts the value on the heap. The only error is want of memory, and then the value is gone.
    pub fn new(alloc: Global, value: T) -> Result<Boxed<T>, AllocError>
        ensures { IfOk result (λ b. b ≡ value) }
    {
        Ok(Boxed {
            inner: Box::new(alloc, value)?,
        })
    }

    /// Puts on the heap what was made, if it was. The only error is want of memory.
    pub fn of_result(alloc: Global, made: Result<T, AllocError>) -> Result<Boxed<T>, AllocError>
        ensures { IfOk result (λ b. made ≡ Ok b) }
    {
        Boxed::new(alloc, made?)
    }

    /// Puts the value on the heap, if there is one. The only error is want of memory, and then the value
    /// is gone.
    pub fn of_option(alloc: Global, value: Option<T>) -> Result<Option<Boxed<T>>, AllocError>
        ensures { IfOk result (λ b. b ≡ value) }
    {
        match value {
            None => Ok(None),
            Some(value) => Ok(Some(Boxed::new(alloc, value)?)),
        }
    }
}
