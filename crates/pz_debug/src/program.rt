// The call of the program.
ghost use Rattle.std.specs.Prelude.{◌≡◌, ◌≢◌, ◌⊎◌, ◌<◌, ◌+◌, true, None, length, map, string_bytes};
ghost use Rattle.pz_io.specs.Outside.{Rose};
ghost use Rattle.pz_debug.specs.Asked.{OfAsked};
ghost use Rattle.pz_debug.specs.Files.{files_of};
ghost use Rattle.pz_debug.specs.Promises.{CameThrough, PrintsAll, PrintsFront, OpensFiles, EndsReading, EndsWriting, SaysFault, IsPastLimit, Lacks, IsLonger, IsNoModel, HasModelText, CanEnd};
ghost use Rattle.pz_debug.specs.devices.Keeping.{KeepsPromises};

use crate::DebugStatus;
use crate::asking::{names_in, usage_line};
use crate::debugging::debug_files;
use crate::printing::say;
use pz_io::{Files, Sink};
use std::alloc::Global;

/// Does what the commands of a file ask for, in a session on a model, and prints the replies.
///
/// The words are those of the command line after the program's name: the names of the model and of the file
/// of commands. The model is one of the second edition, that violates no rule; its evaluations have 100,000
/// units and the depth 20,000, its terms the height 1,000. The file of commands is opened once the model is
/// accepted, and has at most 1,048,576 bytes.
///
/// What is promised of the bytes that are printed holds over a sink that tells what it took, and what is
/// promised of the contents of files over files that tell; the rest holds always. Want of memory,
/// `NoMemory`, is the one answer without a cause.
pub fn run_debug<F: Files, W: Sink>(
    alloc: Global,
    words: &[String],
    files: &mut F,
    out: &mut W,
) -> DebugStatus
    // What holds of the session that the words ask for, which is one or none: the status, and what is printed,
    // are those of the definitions.
    ensures output { OfAsked (map string_bytes words.now) (λ a.
        (F.state files.old).told ≡ true →
        CameThrough (F.state files.old) (F.state files.new) result →
        PrintsAll a (F.state files.old).held (W.state out.old) (W.state out.new) result) }
    // Where the files failed, the line that says so names the last file that was opened.
    ensures read_fault { OfAsked (map string_bytes words.now) (λ a.
        result ≡ DebugStatus.ReadFault →
        Rose (F.state files.old).faults (F.state files.new).faults →
        SaysFault (files_of a) (F.state files.old) (F.state files.new) (W.state out.old)
        (W.state out.new)) }
    // The model is opened first, then the commands, and no other file; without two names none is.
    ensures opens { OfAsked (map string_bytes words.now) (λ a.
        OpensFiles (files_of a) (F.state files.old) (F.state files.new) result) }
    // What is printed before a write fails, or memory is wanting, is a front of what is to be printed.
    ensures write_fault { OfAsked (map string_bytes words.now) (λ a.
        (F.state files.old).told ≡ true → (W.state out.old).told ≡ true →
        result ≡ DebugStatus.WriteFault →
        PrintsFront a (F.state files.old) (F.state files.new) (W.state out.old) (W.state out.new)) }
    ensures no_memory { OfAsked (map string_bytes words.now) (λ a.
        (F.state files.old).told ≡ true → (W.state out.old).told ≡ true →
        result ≡ DebugStatus.NoMemory →
        PrintsFront a (F.state files.old) (F.state files.new) (W.state out.old) (W.state out.new)) }
    // After a call that failed no more is asked of the files or of the sink.
    ensures last_read { (F.state files.new).faults ≢ (F.state files.old).faults →
        EndsReading (F.state files.old) (F.state files.new) result }
    ensures last_write { EndsWriting (W.state out.old) (W.state out.new) result }

    // When each answer comes.
    ensures statuses { OfAsked (map string_bytes words.now) (λ a.
        CanEnd a result) }
    ensures usage { OfAsked (map string_bytes words.now) (λ a.
        result ≡ DebugStatus.Usage → a ≡ None) }
    ensures no_job { OfAsked (map string_bytes words.now) (λ a.
        a ≡ None → result ≢ DebugStatus.WriteFault → result ≢ DebugStatus.NoMemory →
        result ≡ DebugStatus.Usage) }
    // A model is refused exactly where its text is.
    ensures model_refused { OfAsked (map string_bytes words.now) (λ a.
        (F.state files.old).told ≡ true → result ≡ DebugStatus.ModelRefused →
        IsNoModel a (F.state files.old).held) }
    ensures no_model { OfAsked (map string_bytes words.now) (λ a.
        IsNoModel a (F.state files.old).held → (F.state files.old).told ≡ true →
        CameThrough (F.state files.old) (F.state files.new) result →
        result ≡ DebugStatus.ModelRefused) }
    // The commands are opened only once the model is accepted.
    ensures commands_opened { OfAsked (map string_bytes words.now) (λ a.
        (F.state files.old).told ≡ true →
        length (F.state files.old).opened + 1 < length (F.state files.new).opened →
        HasModelText a (F.state files.old).held) }
    ensures too_long { OfAsked (map string_bytes words.now) (λ a.
        result ≡ DebugStatus.TooLong → IsPastLimit (files_of a) (F.state files.old)
        (F.state files.new)) }
    ensures longer { OfAsked (map string_bytes words.now) (λ a.
        (F.state files.old).told ≡ true → result ≡ DebugStatus.TooLong →
        IsLonger (files_of a) (F.state files.old).held) }
    ensures read_cause { OfAsked (map string_bytes words.now) (λ a.
        result ≡ DebugStatus.ReadFault → Rose (F.state files.old).faults (F.state files.new).faults
        ⊎ (((F.state files.old).told ≡ true) × Lacks (files_of a) (F.state files.old).held)) }
    ensures write_cause { result ≡ DebugStatus.WriteFault →
        Rose (W.state out.old).faults (W.state out.new).faults }
    // Where neither count rose, the output is whole and the status is its own, or memory was wanting.
    ensures complete { OfAsked (map string_bytes words.now) (λ a.
        (F.state files.old).told ≡ true →
        ¬ Rose (F.state files.old).faults (F.state files.new).faults →
        ¬ Rose (W.state out.old).faults (W.state out.new).faults →
        result ≢ DebugStatus.NoMemory →
        PrintsAll a (F.state files.old).held (W.state out.old) (W.state out.new) result) }
{
    run_words(alloc, words, files, out)
}

// The same, with all that is promised in one record.
fn run_words<F: Files, W: Sink>(
    alloc: Global,
    words: &[String],
    files: &mut F,
    out: &mut W,
) -> DebugStatus
    ensures kept { OfAsked (map string_bytes words.now) (λ a.
        KeepsPromises a (F.state files.old) (F.state files.new) (W.state out.old) (W.state out.new)
        result) }
    ensures reading { (F.state files.new).faults ≢ (F.state files.old).faults →
        EndsReading (F.state files.old) (F.state files.new) result }
    ensures writing { EndsWriting (W.state out.old) (W.state out.new) result }
{
    match names_in(words) {
        Some(names) => debug_files(alloc, names.model, names.commands, files, out),
        None => say(out, usage_line(), DebugStatus::Usage),
    }
}
