// What is done with the two files of a session. The commands are opened once the model is accepted.
ghost use Rattle.std.specs.Prelude.{◌≡◌, ◌-◌, ◌<◌, ◌^◌, length};
ghost use Rattle.pz_bind.specs.pz_classes.CheckedView.{checked_model};
ghost use Rattle.pz_bind.specs.pz_classes_rules.Soundness.{IsSound};
ghost use Rattle.pz_classes_openings.specs.OpeningRules.{Opens};
ghost use Rattle.pz_debug.specs.Files.{command_file};
ghost use Rattle.pz_debug.specs.Output.{PrintsSession};
ghost use Rattle.pz_debug.specs.devices.Reading.{ReadsFile};
ghost use Rattle.pz_debug.specs.devices.Debugging.{DebugsText, DebugsFiles};

use crate::DebugStatus;
use crate::engine::Trees;
use crate::limits::{COMMAND_LIMIT, MODEL_LIMIT};
use crate::refusing::{say_refused, say_unread};
use crate::sessions::debug_model;
use pz_bind::pz_classes::Checked;
use pz_io::{Files, Sink, read_all};
use pz_run_lines::pz_run_reading::read_open_model;
use std::alloc::Global;
use std::mem::drop;

/// Does what the commands of a file ask for, in a session on the model of another.
pub(crate) fn debug_files<F: Files, W: Sink>(
    alloc: Global,
    model: &str,
    commands: &str,
    files: &mut F,
    out: &mut W,
) -> DebugStatus
    ensures { DebugsFiles model.now commands.now (F.state files.old) (F.state files.new)
        (W.state out.old) (W.state out.new) result }
{
    match read_all(alloc, files, model, MODEL_LIMIT) {
        Ok(text) => debug_text(alloc, text.as_slice(), commands, files, out),
        Err(error) => say_unread(alloc, error, model, out),
    }
}

// The same of the text of a model.
fn debug_text<F: Files, W: Sink>(
    alloc: Global,
    text: &[u8],
    commands: &str,
    files: &mut F,
    out: &mut W,
) -> DebugStatus
    requires { length text.now < 2 ^ 32 - 1 }
    ensures { DebugsText commands.now (F.state files.old) (F.state files.new) (W.state out.old)
        (W.state out.new) result text.now }
{
    pz_run_lines::pz_run_reading::laws::open_or_refused();
    match read_open_model(alloc, text) {
        Ok(checked) => debug_commands(alloc, checked, commands, files, out),
        Err(error) => say_refused(alloc, error, out),
    }
}

// The same of a model that opens.
fn debug_commands<F: Files, W: Sink>(
    alloc: Global,
    checked: Checked,
    commands: &str,
    files: &mut F,
    out: &mut W,
) -> DebugStatus
    requires opens { Opens (checked_model checked) }
    requires sound { IsSound (checked_model checked) }
    ensures { ReadsFile (command_file commands.now) (PrintsSession (checked_model checked))
        (F.state files.old) (F.state files.new) (W.state out.old) (W.state out.new) result }
{
    match read_all(alloc, files, commands, COMMAND_LIMIT) {
        Ok(text) => debug_model::<Trees, W>(alloc, checked, text.as_slice(), out),
        Err(error) => {
            drop(checked);
            say_unread(alloc, error, commands, out)
        }
    }
}
