// Scripts, read from their text.

ghost use Rattle.std.specs.Prelude.{◌≡◌, ℕ, [], ◌∷◌, ◌++◌, IfOk, IfErr, OnOk, false};
ghost use Rattle.std.specs.List.{join_with_byte};
ghost use Rattle.pz_lines.specs.Words.{over};
ghost use Rattle.pz_lines.specs.devices.Lacking.{EachLacks};
ghost use Rattle.pz_env_script.specs.declared.errors.ReadScriptError.TheVariants.{Malformed};
ghost use Rattle.pz_env_script.specs.Scripts.{IsScript, IsWritten, IsMalformedAt, BeginsWithNone};
ghost use Rattle.pz_env_script.specs.devices.Taking.{IsTaken, AreTaken};

use crate::errors::ReadEntryError;
use crate::reading::read_entry;
use crate::{Entry, ReadScriptError};
use pz_lines::{Words, split};
use pz_syntax::pz_items::Items;
use std::alloc::Global;
use std::marker::Model;

/// The most entries of a script.
const MOST_ENTRIES: u32 = 100_000;

/// What an environment does, one entry after the other. Contracts see the list of the entries, of which
/// that of line L stands at place L - 1.
#[derive(Drop)]
pub struct Script {
    entries: Items<Entry>,
}

impl Model for Script {
    ghost use Rattle.std.specs.Prelude.{List};
    ghost use Rattle.pz_env_script.specs.declared.entry.Entry.{Entry};
    ghost use Rattle.pz_env_script.specs.Scripts.{IsWritten};

    ghost Value = { List Entry };

    ghost view = { λ s. s.entries };

    ghost invariant = { λ s. ∥ IsWritten s.entries ∥₁ };
}

impl Script {
    /// The script of a text: 1 to 100,000 lines, each with its LF and each an entry. Takes a time that
    /// is linear in the text.
    pub fn read(alloc: Global, text: &[u8]) -> Result<Script, ReadScriptError>
        ensures found { IfOk result (λ script. IsScript text.now script) }
        ensures malformed { IfErr result (λ e. (line : ℕ) → e ≡ Malformed line →
            IsMalformedAt text.now line) }
    {
        if text.is_empty() {
            return Err(ReadScriptError::Malformed { line: 1 });
        }
        let lines = split(alloc, text, b'\n')?;
        let mut entries = Items::new(alloc);
        take_entries(alloc, &mut Words::new(lines.as_slice()), &mut entries)?;
        Ok(Script { entries })
    }

    /// The entries, in order. They are those of some text.
    pub fn entries(&self) -> &[Entry]
        ensures list { result.now ≡ self.now }
        ensures written { ∥ IsWritten self.now ∥₁ }
    {
        self.entries.as_slice()
    }
}

/// Adds the entries that these lines are.
fn take_entries(
    alloc: Global,
    lines: &mut Words<'_>,
    entries: &mut Items<Entry>,
) -> Result<(), ReadScriptError>
    requires none { entries.old ≡ [] }
    requires lines { EachLacks 10 lines.old }
    requires some { over lines.old ≡ false }
    ensures taken { OnOk result (AreTaken (join_with_byte 10 lines.old) entries.new) }
    ensures malformed { IfErr result (λ e. (line : ℕ) → e ≡ Malformed line →
        IsMalformedAt (join_with_byte 10 lines.old) line) }
{
    for before in 0..MOST_ENTRIES {
        if lines.is_end() {
            return Ok(());
        }
        take_line(alloc, lines, entries, before + 1)?;
    }
    if lines.is_end() {
        Ok(())
    } else {
        Err(ReadScriptError::Malformed {
            line: MOST_ENTRIES + 1,
        })
    }
}

/// Adds the entry of the next line, which has this number.
fn take_line(
    alloc: Global,
    lines: &mut Words<'_>,
    entries: &mut Items<Entry>,
    number: u32,
) -> Result<(), ReadScriptError>
    requires { EachLacks 10 lines.old }
    ensures taken { OnOk result (IsTaken (join_with_byte 10 lines.old)
        (join_with_byte 10 lines.new) entries.old entries.new) }
    ensures lines { OnOk result (EachLacks 10 lines.new) }
    ensures some { OnOk result (over lines.new ≡ false) }
    ensures malformed { IfErr result (λ e. (line : ℕ) → e ≡ Malformed line →
        (line ≡ number) × BeginsWithNone (join_with_byte 10 lines.old)) }
{
    let Some(line) = lines.next() else {
        return Err(ReadScriptError::Malformed { line: number });
    };
    if lines.is_over() {
        return Err(ReadScriptError::Malformed { line: number });
    }
    match read_entry(alloc, line) {
        Ok(entry) => Ok(entries.push(entry)?),
        Err(ReadEntryError::Malformed) => Err(ReadScriptError::Malformed { line: number }),
        Err(ReadEntryError::NoMemory) => Err(ReadScriptError::NoMemory),
    }
}
