ghost use Rattle.std.specs.Prelude.{◌≡◌, Ok, IfOk};

use std::alloc::AllocError;

/// Both, where both are there. So the drop of one where the other is not there is proved here, once
/// for all types, and not for each tree that is made of several.
pub fn both<T: Drop, U: Drop>(
    first: Result<T, AllocError>,
    second: Result<U, AllocError>,
) -> Result<(T, U), AllocError>
    ensures { IfOk result (λ pair. (first ≡ Ok pair.0) × (second ≡ Ok pair.1)) }
{
    let first = first?;
    let second = second?;
    Ok((first, second))
}
