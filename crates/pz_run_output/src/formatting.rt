// The layout of a model.
ghost use Rattle.std.specs.Prelude.{◌-◌, ◌<◌, ◌^◌, length};
ghost use Rattle.pz_run_output.specs.Files.{model_file};
ghost use Rattle.pz_run_output.specs.devices.Reading.{ReadsFile};
ghost use Rattle.pz_run_output.specs.devices.Saying.{Answers};
ghost use Rattle.pz_run_output.specs.devices.Formatting.{PrintsFormat};

use crate::Status;
use crate::files::say_unread;
use crate::limits::MODEL_LIMIT;
use crate::printing::say;
use crate::texts::say_refused;
use pz_io::{Files, Sink, read_all};
use pz_run_formatting::layout_text;
use std::alloc::Global;

/// Prints the model of this file in one layout.
pub fn format_file<F: Files, W: Sink>(
    alloc: Global,
    name: &str,
    files: &mut F,
    out: &mut W,
) -> Status
    ensures { ReadsFile (model_file name.now) PrintsFormat (F.state files.old) (F.state files.new)
        (W.state out.old) (W.state out.new) result }
{
    match read_all(alloc, files, name, MODEL_LIMIT) {
        Ok(text) => format_text(alloc, text.as_slice(), out),
        Err(error) => say_unread(alloc, error, name, out),
    }
}

// The same of the text of a model, or why that is refused.
fn format_text<W: Sink>(alloc: Global, text: &[u8], out: &mut W) -> Status
    requires { length text.now < 2 ^ 32 - 1 }
    ensures { Answers (PrintsFormat text.now) (W.state out.old) (W.state out.new) result }
{
    pz_run_lines::pz_run_reading::laws::open_or_refused();
    match layout_text(alloc, text) {
        Ok(layout) => say(out, layout.as_slice(), Status::Done),
        Err(error) => say_refused(alloc, error, out),
    }
}
