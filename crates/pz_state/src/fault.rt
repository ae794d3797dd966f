ghost use Rattle.std.specs.Prelude.{◌≡◌};
ghost use Rattle.pz_state.specs.Faults.{number_of};

/// Why an evaluation has no value.
#[derive(Clone, Copy, Debug, PartialEq, Eq)]
pub enum FaultKind {
    Overflow = 1,
    DivideByZero = 2,
    NotUnderstood = 3,
    Index = 4,
    NegativeDelay = 5,
    NotBoolean = 6,
    NotInteger = 7,
    StoreFull = 8,
    ClockTooLarge = 9,
}

impl FaultKind {
    /// The number of the fault, from 1.
    pub fn number(self) -> u8
        ensures { result ≡ number_of self }
    {
        self as u8
    }
}
