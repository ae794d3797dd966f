use std::alloc::AllocError;

/// Why a session did not go back.
#[derive(Clone, Copy, Debug, PartialEq, Eq)]
pub enum BackError {
    /// Memory was wanting.
    NoMemory,
    /// So many steps were taken, and no more.
    TooFar { steps: u64 },
}

impl From<AllocError> for BackError {
    ghost use Rattle.std.specs.Prelude.{◌≡◌};
    ghost use Rattle.pz_debug_session.specs.declared.refusal.BackError.TheVariants.{NoMemory};

    ghost from_gives = { λ _ error. error ≡ NoMemory };

    fn from(_error: AllocError) -> BackError {
        BackError::NoMemory
    }
}
