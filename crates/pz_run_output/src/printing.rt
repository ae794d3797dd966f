// The last lines of a job.
ghost use Rattle.std.specs.Prelude.{◌≡◌, ◌≢◌, List, ℕ, IfOk};
ghost use Rattle.pz_run_output.specs.devices.Saying.{Said};

use crate::Status;
use pz_io::{Sink, put};
use std::alloc::AllocError;

/// Writes the last bytes of a job, in one `write_all`, and gives its status.
pub fn say<W: Sink>(out: &mut W, bytes: &[u8], status: Status) -> Status
    requires ordinary { status ≢ Status.WriteFault }
    ensures { Said (W.state out.old) (W.state out.new) bytes.now status result }
{
    match put(out, bytes) {
        Ok(()) => status,
        Err(halt) => Status::halted(halt),
    }
}

/// The same for bytes that were made, if memory was there.
pub fn say_made<W: Sink>(out: &mut W, made: Result<Vec<u8>, AllocError>, status: Status) -> Status
    requires ordinary { status ≢ Status.WriteFault }
    ensures { (text : List ℕ) → IfOk made (λ bytes. bytes.items ≡ text) →
        Said (W.state out.old) (W.state out.new) text status result }
{
    match made {
        Ok(bytes) => say(out, bytes.as_slice(), status),
        Err(_) => Status::NoMemory,
    }
}
