// Runs of models: of a file, of a text, of a ring.
ghost use Rattle.std.specs.Prelude.{◌-◌, ◌≤◌, ◌<◌, ◌^◌, length, ◌≡◌, None};
ghost use Rattle.pz_run_output.specs.pz_trace.pz_rules.Clocks.{most_actions};
ghost use Rattle.pz_words.specs.Jobs.{IsRingSize};
ghost use Rattle.pz_gen.specs.Ring.{model as ring_text};
ghost use Rattle.pz_run_output.specs.Files.{model_file};
ghost use Rattle.pz_run.specs.HandedOut.{RunHandsOut, OpenModelHandsOut, left_in, NeverBegun};
ghost use Rattle.pz_run_output.specs.devices.Saying.{Answers};
ghost use Rattle.pz_run.specs.devices.Handing.{Hands, FileHands};
ghost use Rattle.pz_run_output.specs.devices.Reading.{ReadsFile};
ghost use Rattle.pz_run_output.specs.devices.Texts.{PrintsPlay};

use crate::finish::Finish;
use crate::playing::run_model;
use pz_gen::make;
use pz_io::{Files, Sink, read_all};
use pz_run_output::{MODEL_LIMIT, Play, Status, laws, read_open_model, say_refused, say_unread};
use std::alloc::Global;

/// Runs the model of this file.
pub fn run_file<F: Files, W: Sink>(
    alloc: Global,
    name: &str,
    play: Play,
    files: &mut F,
    out: &mut W,
) -> Finish
    requires { play.limits.steps ≤ most_actions }
    ensures printed { ReadsFile (model_file name.now) (PrintsPlay play) (F.state files.old)
        (F.state files.new) (W.state out.old) (W.state out.new) result.status }
    ensures simulator { FileHands (model_file name.now) (OpenModelHandsOut (RunHandsOut play))
        (F.state files.old) (F.state files.new) result.status (left_in result) }
    ensures unbegun { NeverBegun result.status → result.sim ≡ None }
{
    match read_all(alloc, files, name, MODEL_LIMIT) {
        Ok(text) => run_text(alloc, text.as_slice(), play, out),
        Err(error) => Finish {
            status: say_unread(alloc, error, name, out),
            sim: None,
        },
    }
}

/// Runs the model of this text, or says why that is refused.
pub fn run_text<W: Sink>(alloc: Global, text: &[u8], play: Play, out: &mut W) -> Finish
    requires short { length text.now < 2 ^ 32 - 1 }
    requires few { play.limits.steps ≤ most_actions }
    ensures printed { Answers (PrintsPlay play text.now) (W.state out.old) (W.state out.new)
        result.status }
    ensures simulator { Hands (OpenModelHandsOut (RunHandsOut play) text.now) result.status
        (left_in result) }
    ensures unbegun { NeverBegun result.status → result.sim ≡ None }
{
    laws::one_run();
    laws::open_or_refused();
    match read_open_model(alloc, text) {
        Ok(checked) => run_model(alloc, checked, play, out),
        Err(error) => Finish {
            status: say_refused(alloc, error, out),
            sim: None,
        },
    }
}

/// Runs the model of a ring with this many stations.
pub fn run_ring<W: Sink>(alloc: Global, n: u32, play: Play, out: &mut W) -> Finish
    requires size { IsRingSize n }
    requires few { play.limits.steps ≤ most_actions }
    ensures printed { Answers (PrintsPlay play (ring_text n)) (W.state out.old) (W.state out.new)
        result.status }
    ensures simulator { Hands (OpenModelHandsOut (RunHandsOut play) (ring_text n)) result.status
        (left_in result) }
    ensures unbegun { NeverBegun result.status → result.sim ≡ None }
{
    match make(alloc, n) {
        Ok(ring) => run_text(alloc, ring.as_slice(), play, out),
        Err(_) => Finish {
            status: Status::NoMemory,
            sim: None,
        },
    }
}
