// The top call.
ghost use Rattle.std.specs.Prelude.{◌≡◌, ◌≢◌, ◌⊎◌, ◌<◌, ◌+◌, ℕ, true, None, length, map, string_bytes};
ghost use Rattle.pz_io.specs.Outside.{Rose};
ghost use Rattle.pz_run_output.specs.pz_trace.pz_offer.declared.trouble.Trouble.{Trouble};
ghost use Rattle.pz_run_output.specs.pz_trace.pz_rules.Runs.{Ending, deadlocked, troubled, refused};
ghost use Rattle.pz_run_output.specs.Words.{OfAsked};
ghost use Rattle.pz_run_output.specs.Files.{files_of};
ghost use Rattle.pz_run_output.specs.Status.{status_of};
ghost use Rattle.pz_run_output.specs.Promises.{CameThrough, PrintsAll, PrintsFront, OpensFiles, EndsReading, EndsWriting, SaysFault, IsPastLimit, Lacks, IsLonger, IsNoModel, HasModelText, RunEnds, IsNoTrace, IsBrokenAt, IsNoWatches, IsNoScript, CanEnd};
ghost use Rattle.pz_run.specs.HandedOut.{HandsOut, left_in, NeverBegun};
ghost use Rattle.pz_run_output.specs.devices.Keeping.{KeepsPromises};

use crate::doing::do_job;
use crate::finish::Finish;
use pz_io::{Files, Sink};
use pz_run_output::{Status, say, usage_line};
use pz_words::read_words;
use std::alloc::Global;

/// Does the job that the words ask for, over the files, and prints to the sink.
///
/// The words are those of the command line after the program's name. `run MODEL` reads the named model,
/// runs it and prints its trace or a summary, `menu MODEL` the trace and what there is to choose from at
/// its end, `check MODEL` how many processes and wires it has. `replay MODEL TRACE` reads a trace too, once
/// the model is accepted: it is printed again if it is that of a run of the model, of the edition, depth and
/// units that its first line tells, and refused at the first line that differs if not. `watch MODEL WATCHES` reads a file of
/// watches once the model is accepted, runs that, and prints behind each line of the trace a line for each
/// watch that is broken there; a file that is no list of watches is refused. `drive MODEL SCRIPT` reads a script once
/// the model is accepted, and prints the text of the run in which the script drives the ends of the system that are
/// in no channel; a file that is no script, or one that cannot drive the system, is refused. `make N` prints the
/// model of a ring, and `ring N` runs that and prints a summary; these read no file. A model that violates a
/// rule is refused: in a replay by C23 and C24 once the trace was read, and not by these where that is of the
/// first edition.
///
/// What is promised of the bytes that are printed holds over a sink that tells what it took, and what
/// is promised of the contents of files over files that tell; the rest holds always. Want of memory,
/// `NoMemory`, is the one answer without a cause.
///
/// A file is kept whole, and a trace that is printed line by line. The time is that of reading and of the
/// run's moments.
pub fn run_program<F: Files, W: Sink>(
    alloc: Global,
    words: &[String],
    files: &mut F,
    out: &mut W,
) -> Finish
    // What holds of the job that the words ask for, which is one or none: the status, and what is printed,
    // are those of the definitions, the text of the run of a sound model that the words choose, or a trace
    // tells, by the rules, or what else is to be said.
    ensures output { OfAsked (map string_bytes words.now) (λ a.
        (F.state files.old).told ≡ true →
        CameThrough (F.state files.old) (F.state files.new) result.status →
        PrintsAll a (F.state files.old).held (W.state out.old) (W.state out.new) result.status) }
    // Where the files failed, the line that says so names the last file that was opened.
    ensures read_fault { OfAsked (map string_bytes words.now) (λ a.
        result.status ≡ Status.ReadFault → Rose (F.state files.old).faults
        (F.state files.new).faults →
        SaysFault (files_of a) (F.state files.old) (F.state files.new) (W.state out.old)
        (W.state out.new)) }
    // The files of the job are opened in their order and no others; without a file nothing is, also not
    // before the usage line.
    ensures opens { OfAsked (map string_bytes words.now) (λ a.
        OpensFiles (files_of a) (F.state files.old) (F.state files.new) result.status) }
    // What is printed before a write fails, or memory is wanting, is a front of what is to be printed.
    ensures write_fault { OfAsked (map string_bytes words.now) (λ a.
        (F.state files.old).told ≡ true → (W.state out.old).told ≡ true →
        result.status ≡ Status.WriteFault →
        PrintsFront a (F.state files.old) (F.state files.new) (W.state out.old) (W.state out.new)) }
    ensures no_memory { OfAsked (map string_bytes words.now) (λ a.
        (F.state files.old).told ≡ true → (W.state out.old).told ≡ true →
        result.status ≡ Status.NoMemory →
        PrintsFront a (F.state files.old) (F.state files.new) (W.state out.old) (W.state out.new)) }
    // After a call that failed no more is asked of the files or of the sink.
    ensures last_read { (F.state files.new).faults ≢ (F.state files.old).faults →
        EndsReading (F.state files.old) (F.state files.new) result.status }
    ensures last_write { EndsWriting (W.state out.old) (W.state out.new) result.status }

    // When each answer comes.
    ensures statuses { OfAsked (map string_bytes words.now) (λ a.
        CanEnd a result.status) }
    ensures usage { OfAsked (map string_bytes words.now) (λ a.
        result.status ≡ Status.Usage → a ≡ None) }
    ensures no_job { OfAsked (map string_bytes words.now) (λ a.
        a ≡ None → result.status ≢ Status.WriteFault → result.status ≢ Status.NoMemory →
        result.status ≡ Status.Usage) }
    // A model is refused exactly where its text is.
    ensures model_refused { OfAsked (map string_bytes words.now) (λ a.
        (F.state files.old).told ≡ true → result.status ≡ Status.ModelRefused →
        IsNoModel a (F.state files.old).held) }
    ensures no_model { OfAsked (map string_bytes words.now) (λ a.
        IsNoModel a (F.state files.old).held → (F.state files.old).told ≡ true →
        CameThrough (F.state files.old) (F.state files.new) result.status →
        result.status ≡ Status.ModelRefused) }
    ensures deadlock { OfAsked (map string_bytes words.now) (λ a.
        (F.state files.old).told ≡ true → result.status ≡ Status.Deadlock →
        RunEnds a (F.state files.old).held deadlocked) }
    ensures model_fault { OfAsked (map string_bytes words.now) (λ a.
        (F.state files.old).told ≡ true → result.status ≡ Status.ModelFault →
        (trouble : Trouble) × RunEnds a (F.state files.old).held (troubled trouble)) }
    ensures choice_refused { OfAsked (map string_bytes words.now) (λ a.
        (F.state files.old).told ≡ true → result.status ≡ Status.ChoiceRefused →
        (entry : ℕ) × (count : ℕ) × RunEnds a (F.state files.old).held (refused entry count)) }
    // These three come exactly there: the run that is asked for, by a choice or by its trace, gives its own
    // status.
    ensures run_end { OfAsked (map string_bytes words.now) (λ a.
        (ending : Ending) → RunEnds a (F.state files.old).held ending →
        (F.state files.old).told ≡ true →
        CameThrough (F.state files.old) (F.state files.new) result.status →
        result.status ≡ status_of ending) }
    // A trace is refused exactly where it is the text of no run of the model.
    ensures trace_refused { OfAsked (map string_bytes words.now) (λ a.
        (F.state files.old).told ≡ true → result.status ≡ Status.TraceRefused →
        IsNoTrace a (F.state files.old).held) }
    ensures no_trace { OfAsked (map string_bytes words.now) (λ a.
        IsNoTrace a (F.state files.old).held → (F.state files.old).told ≡ true →
        CameThrough (F.state files.old) (F.state files.new) result.status →
        result.status ≡ Status.TraceRefused) }
    // Broken watches are told exactly where the run has ended or was stopped, and a watch is broken at one of
    // its lines.
    ensures watch_broken { OfAsked (map string_bytes words.now) (λ a.
        (F.state files.old).told ≡ true → result.status ≡ Status.WatchBroken →
        IsBrokenAt a (F.state files.old).held) }
    ensures broken_watch { OfAsked (map string_bytes words.now) (λ a.
        IsBrokenAt a (F.state files.old).held → (F.state files.old).told ≡ true →
        CameThrough (F.state files.old) (F.state files.new) result.status →
        result.status ≡ Status.WatchBroken) }
    // Watches are refused exactly where their file is no list of watches.
    ensures watch_refused { OfAsked (map string_bytes words.now) (λ a.
        (F.state files.old).told ≡ true → result.status ≡ Status.WatchRefused →
        IsNoWatches a (F.state files.old).held) }
    ensures no_watches { OfAsked (map string_bytes words.now) (λ a.
        IsNoWatches a (F.state files.old).held → (F.state files.old).told ≡ true →
        CameThrough (F.state files.old) (F.state files.new) result.status →
        result.status ≡ Status.WatchRefused) }
    // A script is refused exactly where the file is none, or that cannot drive the system.
    ensures script_refused { OfAsked (map string_bytes words.now) (λ a.
        (F.state files.old).told ≡ true → result.status ≡ Status.ScriptRefused →
        IsNoScript a (F.state files.old).held) }
    ensures no_script { OfAsked (map string_bytes words.now) (λ a.
        IsNoScript a (F.state files.old).held → (F.state files.old).told ≡ true →
        CameThrough (F.state files.old) (F.state files.new) result.status →
        result.status ≡ Status.ScriptRefused) }
    // A second file is opened only once C1 to C22 accept the model, and but for a replay C23 and C24 too.
    ensures trace_opened { OfAsked (map string_bytes words.now) (λ a.
        (F.state files.old).told ≡ true →
        length (F.state files.old).opened + 1 < length (F.state files.new).opened →
        HasModelText a (F.state files.old).held) }
    ensures too_long { OfAsked (map string_bytes words.now) (λ a.
        result.status ≡ Status.TooLong → IsPastLimit (files_of a) (F.state files.old)
        (F.state files.new)) }
    ensures longer { OfAsked (map string_bytes words.now) (λ a.
        (F.state files.old).told ≡ true → result.status ≡ Status.TooLong →
        IsLonger (files_of a) (F.state files.old).held) }
    ensures read_cause { OfAsked (map string_bytes words.now) (λ a.
        result.status ≡ Status.ReadFault → Rose (F.state files.old).faults
        (F.state files.new).faults
        ⊎ (((F.state files.old).told ≡ true) × Lacks (files_of a) (F.state files.old).held)) }
    ensures write_cause { result.status ≡ Status.WriteFault →
        Rose (W.state out.old).faults (W.state out.new).faults }
    // Where neither count rose, the output is whole and the status is its own, or memory was wanting.
    ensures complete { OfAsked (map string_bytes words.now) (λ a.
        (F.state files.old).told ≡ true →
        ¬ Rose (F.state files.old).faults (F.state files.new).faults →
        ¬ Rose (W.state out.old).faults (W.state out.new).faults → result.status ≢ Status.NoMemory →
        PrintsAll a (F.state files.old).held (W.state out.old) (W.state out.new) result.status) }
    // Over files that tell, unless the files or a write failed or memory was wanting, the simulator is there exactly where
    // a run has begun: of the model that was read or made, or of the closed model that a script drives, and it stands
    // where that run ended.
    ensures simulator { OfAsked (map string_bytes words.now) (λ a.
        (F.state files.old).told ≡ true →
        CameThrough (F.state files.old) (F.state files.new) result.status →
        HandsOut (F.state files.old).held a (left_in result)) }
    // None is there where words, a model, watches, a script or a file's size or reading end the job before.
    ensures unbegun { NeverBegun result.status → result.sim ≡ None }
{
    run_words(alloc, words, files, out)
}

// The same, with all that is promised in one record.
fn run_words<F: Files, W: Sink>(
    alloc: Global,
    words: &[String],
    files: &mut F,
    out: &mut W,
) -> Finish
    ensures kept { OfAsked (map string_bytes words.now) (λ a.
        KeepsPromises a (F.state files.old) (F.state files.new) (W.state out.old) (W.state out.new)
        result.status) }
    ensures reading { (F.state files.new).faults ≢ (F.state files.old).faults →
        EndsReading (F.state files.old) (F.state files.new) result.status }
    ensures writing { EndsWriting (W.state out.old) (W.state out.new) result.status }
    ensures simulator { OfAsked (map string_bytes words.now) (λ a.
        (F.state files.old).told ≡ true →
        CameThrough (F.state files.old) (F.state files.new) result.status →
        HandsOut (F.state files.old).held a (left_in result)) }
    ensures unbegun { NeverBegun result.status → result.sim ≡ None }
{
    match read_words(alloc, words) {
        Ok(Some(job)) => do_job(alloc, job, files, out),
        Ok(None) => Finish {
            status: say(out, usage_line(), Status::Usage),
            sim: None,
        },
        Err(_) => Finish {
            status: Status::NoMemory,
            sim: None,
        },
    }
}
