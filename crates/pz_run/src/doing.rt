// Jobs.
ghost use Rattle.std.specs.Prelude.{◌≡◌, true, Some, None};
ghost use Rattle.pz_run_output.specs.Promises.{CameThrough};
ghost use Rattle.pz_run.specs.HandedOut.{JobHandsOut, left_in, NeverBegun};
ghost use Rattle.pz_run_output.specs.devices.Words.{HasRingSize, HasFewActions, HasUnits};
ghost use Rattle.pz_run_output.specs.devices.Keeping.{KeepsPromises};

use crate::driving::drive_file;
use crate::finish::Finish;
use crate::replaying::replay_file;
use crate::running::{run_file, run_ring};
use crate::watching::watch_file;
use pz_io::{Files, Sink};
use pz_run_output::{Play, Telling, check_file, format_file, make_ring};
use pz_words::Job;
use std::alloc::Global;

/// Does the job, over the files, and prints to the sink.
pub fn do_job<F: Files, W: Sink>(alloc: Global, job: Job, files: &mut F, out: &mut W) -> Finish
    requires size { HasRingSize job }
    requires few { HasFewActions job }
    requires units { HasUnits job }
    ensures kept { KeepsPromises (Some job) (F.state files.old) (F.state files.new)
        (W.state out.old) (W.state out.new) result.status }
    ensures simulator { (F.state files.old).told ≡ true →
        CameThrough (F.state files.old) (F.state files.new) result.status →
        JobHandsOut (F.state files.old).held job (left_in result) }
    ensures unbegun { NeverBegun result.status → result.sim ≡ None }
{
    match job {
        Job::Run {
            model,
            choice,
            limits,
            summary,
        } => {
            let telling = Telling::when(summary);
            let run = Play {
                choice,
                limits,
                telling,
            };
            run_file(alloc, model.as_str(), run, files, out)
        }
        Job::Menu {
            model,
            choice,
            limits,
        } => {
            let menu = Play {
                choice,
                limits,
                telling: Telling::Menu,
            };
            run_file(alloc, model.as_str(), menu, files, out)
        }
        Job::Replay {
            model,
            trace,
            units,
        } => replay_file(alloc, model.as_str(), trace.as_str(), units, files, out),
        Job::Check { model } => Finish {
            status: check_file(alloc, model.as_str(), files, out),
            sim: None,
        },
        Job::Make { n } => Finish {
            status: make_ring(alloc, n, out),
            sim: None,
        },
        Job::Ring { n, choice, limits } => {
            let run = Play {
                choice,
                limits,
                telling: Telling::Summary,
            };
            run_ring(alloc, n, run, out)
        }
        Job::Format { model } => Finish {
            status: format_file(alloc, model.as_str(), files, out),
            sim: None,
        },
        Job::Watch {
            model,
            watches,
            choice,
            limits,
        } => {
            let run = Play {
                choice,
                limits,
                telling: Telling::Trace,
            };
            watch_file(alloc, model.as_str(), watches.as_str(), run, files, out)
        }
        Job::Drive {
            model,
            script,
            choice,
            limits,
        } => {
            let run = Play {
                choice,
                limits,
                telling: Telling::Trace,
            };
            drive_file(alloc, model.as_str(), script.as_str(), run, files, out)
        }
    }
}
