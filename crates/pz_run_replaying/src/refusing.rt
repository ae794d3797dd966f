// What is said where a line of a trace is not taken, and where a run has ended.

ghost use Rattle.std.specs.Prelude.{◌≡◌, ◌<◌, ◌+◌, ◌^◌, IfOk, None, length};
ghost use Rattle.std.specs.Option.{option_map};
ghost use Rattle.std.specs.Result.{result_err};
ghost use Rattle.pz_io.specs.Writing.{Wrote};
ghost use Rattle.pz_run_replaying.specs.Lines as lines;
ghost use Rattle.pz_run_replaying.specs.Replays.{refusal_text};
ghost use Rattle.pz_run_replaying.specs.devices.Judging.{Concludes};

use crate::Replayed;
use crate::laws::rules_are_known;
use crate::lines::{expected_line, refused_line};
use pz_io::{Halt, Sink, put};
use pz_trace::Ending;
use std::alloc::Global;

// Writes the line of the rules in the place of one that is refused.
fn say_expected<W: Sink>(alloc: Global, line: &[u8], out: &mut W) -> Result<(), Halt>
    ensures { Wrote (W.state out.old) (W.state out.new) (lines.expected_line line.now)
        (result_err result) }
{
    rules_are_known();
    let whole = expected_line(alloc, line)?;
    put(out, whole.as_slice())
}

// Writes at which line the trace is refused, counted from 1.
fn say_refused<W: Sink>(alloc: Global, number: u64, out: &mut W) -> Result<(), Halt>
    ensures { Wrote (W.state out.old) (W.state out.new) (lines.refused_line number)
        (result_err result) }
{
    rules_are_known();
    let line = refused_line(alloc, number)?;
    put(out, line.as_slice())
}

/// Refuses the trace at the line of this number, from 1, where the rules have that line, if any.
pub(crate) fn refuse<W: Sink>(
    alloc: Global,
    number: u64,
    expected: Option<Vec<u8>>,
    out: &mut W,
) -> Result<Replayed, Halt>
    ensures wrote { Wrote (W.state out.old) (W.state out.new)
        (refusal_text number (option_map (λ line. line.items) expected)) (result_err result) }
    ensures refused { IfOk result (λ replayed. replayed ≡ Replayed.Refused number) }
{
    rules_are_known();
    say_refused(alloc, number, out)?;
    match expected {
        Some(line) => {
            say_expected(alloc, line.as_slice(), out)?;
            Ok(Replayed::Refused { line: number })
        }
        None => Ok(Replayed::Refused { line: number }),
    }
}

/// Ends a replay after the last line of a run: what is left is no more of a trace.
pub(crate) fn conclude<W: Sink>(
    alloc: Global,
    ending: Ending,
    number: u64,
    rest: &[u8],
    out: &mut W,
) -> Result<Replayed, Halt>
    ensures { Concludes ending number rest.now (W.state out.old) (W.state out.new) result }
{
    rules_are_known();
    if rest.is_empty() {
        Ok(Replayed::Ended(ending))
    } else {
        refuse(alloc, number, None, out)
    }
}
