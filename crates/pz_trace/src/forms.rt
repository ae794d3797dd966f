// The first line of a trace, and what it tells of the runs whose text it begins.

ghost use Rattle.std.specs.Prelude.{◌≡◌, ◌++◌, ℕ, List, IfOk, MatchOption};
ghost use Rattle.std.specs.Fmt.{decimal};
ghost use Rattle.pz_trace.specs.Lines as lines;
ghost use Rattle.pz_trace.specs.Lines.{newline};
ghost use Rattle.pz_trace.specs.Forms as forms;
ghost use Rattle.pz_trace.specs.Forms.{AreUnits, IsForm, HasHeader};

use crate::headings::{first_line, place_of, value_of};
use pz_rules::{Edition, Limits};
use std::alloc::{AllocError, Global};

/// What the first line of a trace tells.
#[derive(Clone, Copy, Debug, PartialEq, Eq)]
pub enum Form {
    /// A run by the first edition of the rules, with the early depth.
    One,
    /// A run by the second edition, with the early depth.
    Two,
    /// A run by the second edition, with the greater depth and so many units for each evaluation.
    Three { units: u64 },
}

// The depth of an evaluation in a run whose header tells no units.
const EARLY_DEPTH: u32 = 400;

// The depth in any other.
const DEPTH: u32 = 20_000;

// The height of a term, in all.
const HEIGHT: u32 = 1_000;

// The most units that a header is read with.
const MOST_UNITS: u64 = 1_000_000_000;

/// The first line of a trace of this form. The only error is want of memory.
pub fn header(alloc: Global, form: Form) -> Result<Vec<u8>, AllocError>
    ensures { IfOk result (λ line. line.items ≡ lines.header form) }
{
    match form {
        Form::One => plain_header(alloc, b"poosl-trace 1\n"),
        Form::Two => plain_header(alloc, b"poosl-trace 2\n"),
        Form::Three { units } => Ok(format!(in alloc; "poosl-trace 3 {units}\n")?.into_bytes()),
    }
}

fn plain_header(alloc: Global, text: &[u8]) -> Result<Vec<u8>, AllocError>
    ensures { IfOk result (λ line. line.items ≡ text.now) }
{
    let mut line = Vec::new(alloc);
    line.extend_from_slice(text)?;
    Ok(line)
}

/// The form whose header this line is, with its LF. None where it is the header of no form with from 1
/// to 1,000,000,000 units. Takes no memory.
pub fn read_header(line: &[u8]) -> Option<Form>
    ensures { MatchOption result ((f : Form) → IsForm f → line.now ≡ lines.header f →
        ⊥) (λ f. IsForm f × (line.now ≡ lines.header f)) }
{
    if line == b"poosl-trace 1\n".as_slice() {
        return Some(Form::One);
    }
    if line == b"poosl-trace 2\n".as_slice() {
        return Some(Form::Two);
    }
    let units = third_told(line)?;
    Some(Form::Three { units })
}

/// The form that the first line of a text tells, as [`read_header`] reads it. None where the text begins with
/// no such header, with its LF. Takes no memory.
pub fn form_told(text: &[u8]) -> Option<Form>
    ensures { MatchOption result ((f : Form) → HasHeader f text.now → ⊥)
        (λ f. HasHeader f text.now) }
{
    let line = first_line(text)?;
    read_header(line)
}

// The units that the header of the third form tells.
fn third_told(line: &[u8]) -> Option<u64>
    ensures { MatchOption result ((units : ℕ) → AreUnits units →
        line.now ≡ lines.header (Form.Three units) → ⊥) (λ units. AreUnits units
        × (line.now ≡ lines.header (Form.Three units))) }
{
    let told = behind(line, b"poosl-trace 3 ")?;
    units_told(told)
}

// What stands behind the front of a text, if it begins so.
fn behind<'a>(text: &'a [u8], front: &[u8]) -> Option<&'a [u8]>
    ensures { MatchOption result ((rest : List ℕ) → text.now ≡ front.now ++ rest →
        ⊥) (λ rest. text.now ≡ front.now ++ rest.now) }
{
    if text.starts_with(front) {
        let (_front, rest) = text.split_at(front.len());
        Some(rest)
    } else {
        None
    }
}

// The units that are told at the end of a line.
fn units_told(told: &[u8]) -> Option<u64>
    ensures { MatchOption result ((units : ℕ) → AreUnits units →
        told.now ≡ decimal units ++ newline → ⊥) (λ units. AreUnits units
        × (told.now ≡ decimal units ++ newline)) }
{
    let end = place_of(told, b'\n')?;
    if end + 1 < told.len() {
        return None;
    }
    let (digits, _end) = told.split_at(end);
    units_of(digits)
}

// The units that these digits write.
fn units_of(digits: &[u8]) -> Option<u64>
    ensures { MatchOption result ((units : ℕ) → AreUnits units → digits.now ≡ decimal units →
        ⊥) (λ units. AreUnits units × (digits.now ≡ decimal units)) }
{
    let units = value_of(digits)?;
    match u64::try_from(units) {
        Ok(units) => if 1 <= units && units <= MOST_UNITS {
            Some(units)
        } else {
            None
        }
        Err(_) => None,
    }
}

/// The form of the traces of runs with these limits. Takes no memory.
pub fn form_of(limits: Limits) -> Form
    ensures { result ≡ forms.form_of limits }
{
    match limits.edition {
        Edition::One => Form::One,
        Edition::Two => {
            if limits.depth == EARLY_DEPTH {
                Form::Two
            } else {
                Form::Three {
                    units: limits.units,
                }
            }
        }
    }
}

/// The limits of the runs whose traces have this form, with so many units for each evaluation where the
/// header tells none. Takes no memory.
pub fn limits_of(form: Form, units: u64) -> Limits
    ensures { result ≡ forms.limits_of form units }
{
    match form {
        Form::One => with_limits(units, EARLY_DEPTH, Edition::One),
        Form::Two => with_limits(units, EARLY_DEPTH, Edition::Two),
        Form::Three { units: told } => with_limits(told, DEPTH, Edition::Two),
    }
}

fn with_limits(units: u64, depth: u32, edition: Edition) -> Limits
    ensures { result ≡ forms.with_limits units depth edition }
{
    Limits {
        units,
        depth,
        height: HEIGHT,
        edition,
    }
}
