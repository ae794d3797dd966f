ghost use Rattle.std.specs.Prelude.{◌≡◌, IsOkUnless};
ghost use Rattle.std.specs.Result.{result_err};
ghost use Rattle.pz_io.specs.Writing.{Wrote};

use crate::outside::Sink;
use crate::whole::write_all;
use std::alloc::AllocError;

/// Why nothing more is written.
#[derive(Clone, Copy, Debug, PartialEq, Eq)]
pub enum Halt {
    /// Memory was wanting.
    NoMemory,
    /// The sink failed.
    WriteFault,
}

impl From<AllocError> for Halt {
    ghost use Rattle.pz_io.specs.declared.writing.Halt.TheVariants.{NoMemory};

    ghost from_gives = { λ _ halt. halt ≡ NoMemory };

    fn from(_: AllocError) -> Self {
        Halt::NoMemory
    }
}

/// Writes the bytes, in one `write_all`. Takes no memory.
///
/// # Errors
///
/// The sink failed, and took a front of the bytes. Nothing is written after a write that failed.
pub fn put<W: Sink>(out: &mut W, bytes: &[u8]) -> Result<(), Halt>
    ensures wrote { Wrote (W.state out.old) (W.state out.new) bytes.now (result_err result) }
    ensures fault { IsOkUnless result Halt.WriteFault }
{
    match write_all(out, bytes) {
        Ok(()) => Ok(()),
        Err(_) => Err(Halt::WriteFault),
    }
}
