ghost use Rattle.std.specs.Prelude.{◌≡◌};
ghost use Rattle.pz_debug.specs.Status.{number_of};
ghost use Rattle.pz_debug.specs.devices.Saying.{halted_as};

use pz_io::Halt;

/// How the program ends.
#[derive(Clone, Copy, Debug, PartialEq, Eq)]
pub enum DebugStatus {
    /// Each command has its reply.
    Done,
    /// The words are not two names.
    Usage,
    /// The model is refused.
    ModelRefused,
    /// A file is longer than its limit.
    TooLong,
    /// A file could not be read.
    ReadFault,
    /// The output failed.
    WriteFault,
    /// Memory was wanting.
    NoMemory,
}

impl DebugStatus {
    /// The exit status.
    pub fn number(self) -> u8
        ensures { result ≡ number_of self }
    {
        match self {
            DebugStatus::Done => 0,
            DebugStatus::Usage => 2,
            DebugStatus::ModelRefused => 3,
            DebugStatus::TooLong => 7,
            DebugStatus::ReadFault => 8,
            DebugStatus::WriteFault => 9,
            DebugStatus::NoMemory => 10,
        }
    }

    /// That of a session in which this halted.
    pub(crate) fn halted(halt: Halt) -> DebugStatus
        ensures { result ≡ halted_as halt }
    {
        match halt {
            Halt::NoMemory => DebugStatus::NoMemory,
            Halt::WriteFault => DebugStatus::WriteFault,
        }
    }
}
