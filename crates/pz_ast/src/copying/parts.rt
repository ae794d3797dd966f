ghost use Rattle.std.specs.Prelude.{◌≡◌, IfOk};

use pz_syntax::Id;
use pz_syntax::pz_items::{Boxed, Items, both};
use std::alloc::{AllocError, Global};

/// What can be copied.
pub(crate) trait Copied {
    /// An equal value. The only error is want of memory.
    fn copied(&self, alloc: Global) -> Result<Self, AllocError>
        ensures { IfOk result (λ copy. copy ≡ self.now) };
}

impl Copied for Id {
    fn copied(&self, _alloc: Global) -> Result<Id, AllocError> {
        self.copy()
    }
}

impl<T: Copied + Drop> Copied for Boxed<T> {
    fn copied(&self, alloc: Global) -> Result<Boxed<T>, AllocError> {
        Boxed::of_result(alloc, self.get().copied(alloc))
    }
}

impl<T: Copied + Drop> Copied for Items<T> {
    fn copied(&self, alloc: Global) -> Result<Items<T>, AllocError> {
        let mut copy = Items::new(alloc);
        for item in self.as_slice() {
            copy.push(item.copied(alloc)?)?;
        }
        Ok(copy)
    }
}

impl<T: Copied + Drop> Copied for Option<T> {
    fn copied(&self, alloc: Global) -> Result<Option<T>, AllocError> {
        match self {
            None => Ok(None),
            Some(value) => Ok(Some(value.copied(alloc)?)),
        }
    }
}

/// Two equal values: one call for two fields, so that the tree that the first is and the want of memory
/// at the second meet in one proof, here, for all types. The only error is want of memory.
pub(crate) fn copy_two<A: Copied + Drop, B: Copied + Drop>(
    alloc: Global,
    first: &A,
    second: &B,
) -> Result<(A, B), AllocError>
    ensures { IfOk result (λ copies. (copies.0 ≡ first.now) × (copies.1 ≡ second.now)) }
{
    both(first.copied(alloc), second.copied(alloc))
}

/// Four equal values. The only error is want of memory.
pub(crate) fn copy_four<A: Copied + Drop, B: Copied + Drop, C: Copied + Drop, D: Copied + Drop>(
    alloc: Global,
    first: &A,
    second: &B,
    third: &C,
    fourth: &D,
) -> Result<((A, B), (C, D)), AllocError>
    ensures { IfOk result (λ copies. (copies.0.0 ≡ first.now) × (copies.0.1 ≡ second.now) ×
        (copies.1.0 ≡ third.now) × (copies.1.1 ≡ fourth.now)) }
{
    both(
        copy_two(alloc, first, second),
        copy_two(alloc, third, fourth),
    )
}

/// Five equal values. The only error is want of memory.
pub(crate) fn copy_five<
    A: Copied + Drop,
    B: Copied + Drop,
    C: Copied + Drop,
    D: Copied + Drop,
    E: Copied + Drop,
>(
    alloc: Global,
    first: &A,
    second: &B,
    third: &C,
    fourth: &D,
    fifth: &E,
) -> Result<(((A, B), (C, D)), E), AllocError>
    ensures { IfOk result (λ copies. (copies.0.0.0 ≡ first.now) × (copies.0.0.1 ≡ second.now) ×
        (copies.0.1.0 ≡ third.now) × (copies.0.1.1 ≡ fourth.now) × (copies.1 ≡ fifth.now)) }
{
    both(
        copy_four(alloc, first, second, third, fourth),
        fifth.copied(alloc),
    )
}
