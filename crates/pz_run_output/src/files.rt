// The file of a model that is checked, and what is said of a file that was not read.
ghost use Rattle.pz_run_output.specs.Files.{model_file};
ghost use Rattle.pz_run_output.specs.devices.Reading.{ReadsFile, SaysUnread};
ghost use Rattle.pz_run_output.specs.devices.Texts.{PrintsCheck};

use crate::Status;
use crate::limits::MODEL_LIMIT;
use crate::printing::say_made;
use crate::texts::check_text;
use pz_io::{Files, ReadError, Sink, read_all};
use pz_run_lines::{read_fault_line, too_long_line};
use std::alloc::Global;

/// Says how large the system of the model of this file is.
pub fn check_file<F: Files, W: Sink>(
    alloc: Global,
    name: &str,
    files: &mut F,
    out: &mut W,
) -> Status
    ensures { ReadsFile (model_file name.now) PrintsCheck (F.state files.old) (F.state files.new)
        (W.state out.old) (W.state out.new) result }
{
    match read_all(alloc, files, name, MODEL_LIMIT) {
        Ok(text) => check_text(alloc, text.as_slice(), out),
        Err(error) => say_unread(alloc, error, name, out),
    }
}

/// Says why a file was not read.
pub fn say_unread<W: Sink>(alloc: Global, error: ReadError, name: &str, out: &mut W) -> Status
    ensures { SaysUnread error name.now (W.state out.old) (W.state out.new) result }
{
    match error {
        ReadError::NoMemory => Status::NoMemory,
        ReadError::TooLong => say_made(out, too_long_line(alloc, name), Status::TooLong),
        ReadError::Fault => say_made(out, read_fault_line(alloc, name), Status::ReadFault),
    }
}
