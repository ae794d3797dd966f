// The lines, each with its LF. The only error is want of memory.

ghost use Rattle.std.specs.Prelude.{◌≡◌, IfOk};
ghost use Rattle.pz_run_lines.specs.Lines as lines;

use pz_check_violations::Violation;
use pz_run_reading::{Refusal, Size};
use pz_syntax::Pos;
use std::alloc::{AllocError, Global};

/// How the program is called. Takes no memory.
pub fn usage_line() -> &'static [u8]
    ensures { result.now ≡ lines.usage_line }
{
    b"usage: poosl_run run MODEL | menu MODEL | replay MODEL TRACE | check MODEL | make N | ring N | watch MODEL WATCHES | drive MODEL SCRIPT | format MODEL\n"
}

/// A file of this name cannot be opened or read. The only error is want of memory.
pub fn read_fault_line(alloc: Global, name: &str) -> Result<Vec<u8>, AllocError>
    ensures { IfOk result (λ line. line.items ≡ lines.read_fault_line name.now) }
{
    Ok(format!(in alloc; "read fault: {name}\n")?.into_bytes())
}

/// A file of this name is longer than its limit. The only error is want of memory.
pub fn too_long_line(alloc: Global, name: &str) -> Result<Vec<u8>, AllocError>
    ensures { IfOk result (λ line. line.items ≡ lines.too_long_line name.now) }
{
    Ok(format!(in alloc; "too long: {name}\n")?.into_bytes())
}

/// A file is no list of watches: the number of the line that is to blame, from 1. The only error is want of
/// memory.
pub fn watch_refused_line(alloc: Global, number: u32) -> Result<Vec<u8>, AllocError>
    ensures { IfOk result (λ line. line.items ≡ lines.watch_refused_line number) }
{
    Ok(format!(in alloc; "watch refused line {number}\n")?.into_bytes())
}

/// A script cannot drive a system, or a file is no script: the number of the line that is to blame, from 1.
/// The only error is want of memory.
pub fn script_refused_line(alloc: Global, number: u32) -> Result<Vec<u8>, AllocError>
    ensures { IfOk result (λ line. line.items ≡ lines.script_refused_line number) }
{
    Ok(format!(in alloc; "script refused line {number}\n")?.into_bytes())
}

/// A model is accepted, and its system is so large. The only error is want of memory.
pub fn accepted_line(alloc: Global, size: Size) -> Result<Vec<u8>, AllocError>
    ensures { IfOk result (λ line. line.items ≡ lines.accepted_line size.processes size.wires) }
{
    let Size { processes, wires } = size;
    Ok(format!(in alloc; "accepted {processes} processes {wires} wires\n")?.into_bytes())
}

/// A model is refused: what kind of refusal, and where. The only error is want of memory.
pub fn model_refused_line(alloc: Global, refusal: Refusal) -> Result<Vec<u8>, AllocError>
    ensures { IfOk result (λ line. line.items ≡ lines.model_refused_line refusal) }
{
    match refusal {
        Refusal::BadByte(at) => kind_line(alloc, "BadByte", at),
        Refusal::OpenComment(at) => kind_line(alloc, "OpenComment", at),
        Refusal::OpenString(at) => kind_line(alloc, "OpenString", at),
        Refusal::BadNumber(at) => kind_line(alloc, "BadNumber", at),
        Refusal::Syntax(at) => kind_line(alloc, "Syntax", at),
        Refusal::TooNested(at) => kind_line(alloc, "TooNested", at),
        Refusal::Violates(violation) => rule_line(alloc, violation),
    }
}

// The kind is the rule by its number.
fn rule_line(alloc: Global, violation: Violation) -> Result<Vec<u8>, AllocError>
    ensures { IfOk result (λ line. line.items ≡ lines.kind_line
        (lines.rule_name violation.rule) violation.pos) }
{
    let rule = violation.rule;
    let kind = format!(in alloc; "C{rule}")?;
    kind_line(alloc, kind.as_str(), violation.pos)
}

fn kind_line(alloc: Global, kind: &str, at: Pos) -> Result<Vec<u8>, AllocError>
    ensures { IfOk result (λ line. line.items ≡ lines.kind_line kind.now at) }
{
    let (line, column) = (at.line, at.column);
    Ok(format!(in alloc; "model refused: {kind} {line}:{column}\n")?.into_bytes())
}
