use pz_classes::pz_check_violations::Violation;
use std::alloc::AllocError;

/// Why a model is not accepted.
#[derive(Clone, Copy, Debug, PartialEq, Eq)]
pub enum CheckError {
    /// Memory ran out. It says nothing of the model.
    NoMemory,
    /// One of the rules that were asked is violated; this is the violation that is told.
    Refused(Violation),
}

impl From<AllocError> for CheckError {
    ghost use Rattle.std.specs.Prelude.{◌≡◌};
    ghost use Rattle.pz_check.specs.declared.error.CheckError.TheVariants.{NoMemory};

    ghost from_gives = { λ _ error. error ≡ NoMemory };

    fn from(_: AllocError) -> CheckError {
        CheckError::NoMemory
    }
}
