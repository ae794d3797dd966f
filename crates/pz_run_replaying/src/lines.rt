// The lines of a replay that are none of a trace. The only error is want of memory.

ghost use Rattle.std.specs.Prelude.{◌≡◌, IfOk};
ghost use Rattle.pz_run_replaying.specs.Lines as lines;

use std::alloc::{AllocError, Global};

/// A trace is refused at the line of this number, from 1.
pub(crate) fn refused_line(alloc: Global, number: u64) -> Result<Vec<u8>, AllocError>
    ensures { IfOk result (λ line. line.items ≡ lines.refused_line number) }
{
    Ok(format!(in alloc; "refused line {number}\n")?.into_bytes())
}

/// The line of the rules, with its LF, in the place of one that is refused.
pub(crate) fn expected_line(alloc: Global, line: &[u8]) -> Result<Vec<u8>, AllocError>
    ensures { IfOk result (λ whole. whole.items ≡ lines.expected_line line.now) }
{
    let mut whole = Vec::new(alloc);
    whole.extend_from_slice(b"expected ")?;
    whole.extend_from_slice(line)?;
    Ok(whole)
}
