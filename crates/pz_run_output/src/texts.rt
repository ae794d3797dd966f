// The text of a model that is checked, and what is said of one that is refused.
ghost use Rattle.std.specs.Prelude.{◌-◌, ◌<◌, ◌^◌, length};
ghost use Rattle.pz_run_output.specs.devices.Saying.{Answers};
ghost use Rattle.pz_run_output.specs.devices.Texts.{PrintsCheck, SaysRefusal};

use crate::Status;
use crate::printing::say_made;
use pz_io::Sink;
use pz_run_lines::pz_run_reading::{ReadModelError, measure};
use pz_run_lines::{accepted_line, model_refused_line};
use std::alloc::Global;

/// Says how large the system of the model of this text is, or why that is refused.
pub fn check_text<W: Sink>(alloc: Global, text: &[u8], out: &mut W) -> Status
    requires { length text.now < 2 ^ 32 - 1 }
    ensures { Answers (PrintsCheck text.now) (W.state out.old) (W.state out.new) result }
{
    pz_run_lines::pz_run_reading::laws::open_or_refused();
    match measure(alloc, text) {
        Ok(size) => say_made(out, accepted_line(alloc, size), Status::Done),
        Err(error) => say_refused(alloc, error, out),
    }
}

/// Says why a text is refused.
pub fn say_refused<W: Sink>(alloc: Global, error: ReadModelError, out: &mut W) -> Status
    ensures { SaysRefusal error (W.state out.old) (W.state out.new) result }
{
    match error {
        ReadModelError::NoMemory => Status::NoMemory,
        ReadModelError::Refused(refusal) => say_made(
            out,
            model_refused_line(alloc, refusal),
            Status::ModelRefused,
        ),
    }
}
