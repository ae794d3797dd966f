use pz_classes_code::pz_syntax::Pos;
use pz_state::FaultKind;
use std::alloc::{AllocError, AllocFailed};

/// Why an evaluation has no value.
#[derive(Clone, Copy, Debug)]
pub enum Stop {
    /// Memory was wanting.
    NoMemory,
    /// The allowance is spent.
    Spent,
    /// What is wrong, and where.
    Fault(FaultKind, Pos),
}

impl From<AllocError> for Stop {
    ghost use Rattle.std.specs.Prelude.{◌≡◌};
    ghost use Rattle.pz_eval_operations.specs.declared.stop.Stop.TheVariants.{NoMemory};

    ghost from_gives = { λ _ stop. stop ≡ NoMemory };

    fn from(_: AllocError) -> Stop {
        Stop::NoMemory
    }
}

impl<T: Drop> From<AllocFailed<T>> for Stop {
    ghost use Rattle.std.specs.Prelude.{◌≡◌};
    ghost use Rattle.pz_eval_operations.specs.declared.stop.Stop.TheVariants.{NoMemory};

    ghost from_gives = { λ _ stop. stop ≡ NoMemory };

    fn from(_: AllocFailed<T>) -> Stop {
        Stop::NoMemory
    }
}
