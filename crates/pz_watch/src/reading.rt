// Watches, read from their lines.

ghost use Rattle.std.specs.Prelude.{◌≡◌, ◌≢◌, IfOk, IfErr};
ghost use Rattle.pz_watch.specs.declared.errors.ReadWatchError.TheVariants.{Malformed};
ghost use Rattle.pz_watch.specs.Files.{NamedFormula, IsWatch, watch_text};
ghost use Rattle.pz_lines.specs.Identifiers.{is_identifier};
ghost use Rattle.pz_watch.specs.devices.Taking.{is_front, IsReadFrom, IsMadeFrom, AreOfNoWatch, IsOfFormula, AreOfNoFormula};

use crate::formulas::formula;
use crate::{Monitor, ReadWatchError, Watch};
use pz_lines::{Words, is_identifier, split, text_of};
use std::alloc::Global;

/// The most words of a formula.
const MOST_WORDS: usize = 1000;

impl Watch {
    /// The watch of a line, which is given without its LF. Takes a time that is linear in the line.
    pub fn read(alloc: Global, line: &[u8]) -> Result<Watch, ReadWatchError>
        ensures found { IfOk result (λ watch. IsReadFrom line.now watch) }
        ensures malformed { IfErr result (λ e. e ≡ Malformed →
            (w : NamedFormula) → IsWatch is_identifier w → line.now ≢ watch_text w) }
    {
        let words = split(alloc, line, b' ')?;
        take_watch(alloc, &mut Words::new(words.as_slice()))
    }
}

/// The watch that all these words are: its name, a colon and its formula.
fn take_watch(alloc: Global, words: &mut Words<'_>) -> Result<Watch, ReadWatchError>
    ensures found { IfOk result (λ watch. IsMadeFrom words.old watch) }
    ensures malformed { IfErr result (λ e. e ≡ Malformed → AreOfNoWatch words.old) }
{
    let Some(name) = words.next() else {
        return Err(ReadWatchError::Malformed);
    };
    let Some(colon) = words.next() else {
        return Err(ReadWatchError::Malformed);
    };
    if !is_front(name, colon, words.left()) {
        return Err(ReadWatchError::Malformed);
    }
    let name = text_of(alloc, name)?;
    Ok(Watch::new(name, take_formula(alloc, words)?))
}

/// Whether these stand in front of a formula with so many words.
fn is_front(name: &[u8], colon: &[u8], words: usize) -> bool
    ensures { result ≡ is_front name.now colon.now words }
{
    is_identifier(name) && colon == ":".as_bytes() && words <= MOST_WORDS
}

/// The monitor of the formula that all these words are.
fn take_formula(alloc: Global, words: &mut Words<'_>) -> Result<Monitor, ReadWatchError>
    ensures found { IfOk result (λ monitor. IsOfFormula words.old monitor) }
    ensures malformed { IfErr result (λ e. e ≡ Malformed → AreOfNoFormula words.old) }
{
    let most = words.left();
    let monitor = formula(alloc, words, most)?;
    if words.is_over() {
        return Ok(monitor);
    }
    drop(monitor);
    Err(ReadWatchError::Malformed)
}
