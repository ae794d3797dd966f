// Why there is no session.
ghost use Rattle.pz_debug.specs.devices.Reading.{SaysUnread};
ghost use Rattle.pz_debug.specs.devices.Debugging.{SaysRefusal};

use crate::DebugStatus;
use crate::printing::say_made;
use pz_io::{ReadError, Sink};
use pz_run_lines::pz_run_reading::ReadModelError;
use pz_run_lines::{model_refused_line, read_fault_line, too_long_line};
use std::alloc::Global;

/// Says why a file was not read.
pub(crate) fn say_unread<W: Sink>(
    alloc: Global,
    error: ReadError,
    name: &str,
    out: &mut W,
) -> DebugStatus
    ensures { SaysUnread error name.now (W.state out.old) (W.state out.new) result }
{
    match error {
        ReadError::NoMemory => DebugStatus::NoMemory,
        ReadError::TooLong => say_made(out, too_long_line(alloc, name), DebugStatus::TooLong),
        ReadError::Fault => say_made(out, read_fault_line(alloc, name), DebugStatus::ReadFault),
    }
}

/// Says why a text is refused.
pub(crate) fn say_refused<W: Sink>(alloc: Global, error: ReadModelError, out: &mut W) -> DebugStatus
    ensures { SaysRefusal error (W.state out.old) (W.state out.new) result }
{
    match error {
        ReadModelError::NoMemory => DebugStatus::NoMemory,
        ReadModelError::Refused(refusal) => say_made(
            out,
            model_refused_line(alloc, refusal),
            DebugStatus::ModelRefused,
        ),
    }
}
