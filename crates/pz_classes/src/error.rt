use crate::Violation;
use std::alloc::AllocError;

/// Why a model has no table of classes.
#[derive(Clone, Copy, Debug, PartialEq, Eq)]
pub enum BuildError {
    /// Memory ran out.
    NoMemory,
    /// One of the rules C1 to C3 is violated; this is the least violation of them.
    Refused(Violation),
}

impl From<AllocError> for BuildError {
    ghost use Rattle.std.specs.Prelude.{◌≡◌};
    ghost use Rattle.pz_classes.specs.declared.error.BuildError.TheVariants.{NoMemory};

    ghost from_gives = { λ _ error. error ≡ NoMemory };

    fn from(_: AllocError) -> BuildError {
        BuildError::NoMemory
    }
}
