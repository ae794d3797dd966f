// The last lines of a session that is none.
ghost use Rattle.std.specs.Prelude.{◌≡◌, ◌≢◌, List, ℕ, IfOk};
ghost use Rattle.pz_debug.specs.devices.Saying.{Said};

use crate::DebugStatus;
use pz_io::{Sink, put};
use std::alloc::AllocError;

/// Writes the last bytes, in one `write_all`, and gives the status.
pub(crate) fn say<W: Sink>(out: &mut W, bytes: &[u8], status: DebugStatus) -> DebugStatus
    requires ordinary { status ≢ DebugStatus.WriteFault }
    ensures { Said (W.state out.old) (W.state out.new) bytes.now status result }
{
    match put(out, bytes) {
        Ok(()) => status,
        Err(halt) => DebugStatus::halted(halt),
    }
}

/// The same for bytes that were made, if memory was there.
pub(crate) fn say_made<W: Sink>(
    out: &mut W,
    made: Result<Vec<u8>, AllocError>,
    status: DebugStatus,
) -> DebugStatus
    requires ordinary { status ≢ DebugStatus.WriteFault }
    ensures { (text : List ℕ) → IfOk made (λ bytes. bytes.items ≡ text) →
        Said (W.state out.old) (W.state out.new) text status result }
{
    match made {
        Ok(bytes) => say(out, bytes.as_slice(), status),
        Err(_) => DebugStatus::NoMemory,
    }
}
