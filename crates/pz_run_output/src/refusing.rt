// What is said where the first line of a trace is no header.
ghost use Rattle.std.specs.Prelude.{◌≡◌, IfOk, Some};
ghost use Rattle.std.specs.Result.{result_err};
ghost use Rattle.pz_io.specs.Writing.{Wrote};
ghost use Rattle.pz_trace.specs.Lines as lines;
ghost use Rattle.pz_run_replaying.specs.Lines.{expected_line};
ghost use Rattle.pz_run_replaying.specs.Replays.{refusal_text};
ghost use Rattle.pz_run_output.specs.devices.Saying.{Said};

use crate::Status;
use pz_io::{Halt, Sink, put};
use pz_trace::Form;
use std::alloc::{AllocError, Global};

/// Refuses a trace at its first line. The header of a run with so many units is expected there.
pub fn refuse_header<W: Sink>(alloc: Global, units: u64, out: &mut W) -> Status
    ensures { Said (W.state out.old) (W.state out.new)
        (refusal_text 1 (Some (lines.header (Form.Three units)))) Status.TraceRefused result }
{
    match put_refusal(alloc, units, out) {
        Ok(()) => Status::TraceRefused,
        Err(halt) => Status::halted(halt),
    }
}

// Writes the lines that say so.
fn put_refusal<W: Sink>(alloc: Global, units: u64, out: &mut W) -> Result<(), Halt>
    ensures { Wrote (W.state out.old) (W.state out.new)
        (refusal_text 1 (Some (lines.header (Form.Three units)))) (result_err result) }
{
    pz_io::laws::pieces_join();
    let expected = expected_header(alloc, units)?;
    put(out, b"refused line 1\n")?;
    put(out, expected.as_slice())
}

// The only error is want of memory.
fn expected_header(alloc: Global, units: u64) -> Result<Vec<u8>, AllocError>
    ensures { IfOk result (λ line. line.items ≡ expected_line
        (lines.header (Form.Three units))) }
{
    Ok(format!(in alloc; "expected poosl-trace 3 {units}\n")?.into_bytes())
}
