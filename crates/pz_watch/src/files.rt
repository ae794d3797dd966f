// Files of watches.

ghost use Rattle.std.specs.Prelude.{◌≡◌, ℕ, [], IfOk, IfErr, OnOk, false};
ghost use Rattle.std.specs.List.{join_with_byte};
ghost use Rattle.pz_watch.specs.declared.errors.ReadWatchesError.TheVariants.{Refused};
ghost use Rattle.pz_watch.specs.Files.{IsRefusedAt, BeginsWithNone};
ghost use Rattle.pz_lines.specs.Words.{over};
ghost use Rattle.pz_lines.specs.Identifiers.{is_identifier};
ghost use Rattle.pz_lines.specs.devices.Lacking.{EachLacks};
ghost use Rattle.pz_watch.specs.devices.Taking.{AreReadFrom, AreTaken, IsTaken};

use crate::{ReadWatchError, ReadWatchesError, Watch};
use pz_items::Items;
use pz_lines::{Words, split};
use std::alloc::Global;

/// The most watches of a file.
const MOST_WATCHES: u32 = 100;

/// The watches of a file, in its order: a line each, 1 to 100 of them, each with its LF. Takes a
/// time that is linear in the text.
pub fn read_watches(alloc: Global, text: &[u8]) -> Result<Items<Watch>, ReadWatchesError>
    ensures found { IfOk result (λ watches. AreReadFrom text.now watches) }
    ensures refused { IfErr result (λ e. (line : ℕ) → e ≡ Refused line →
        IsRefusedAt is_identifier text.now line) }
{
    if text.is_empty() {
        return Err(ReadWatchesError::Refused(1));
    }
    let lines = split(alloc, text, b'\n')?;
    let mut watches = Items::new(alloc);
    take_watches(alloc, &mut Words::new(lines.as_slice()), &mut watches)?;
    Ok(watches)
}

/// Adds the watches that these lines are.
fn take_watches(
    alloc: Global,
    lines: &mut Words<'_>,
    watches: &mut Items<Watch>,
) -> Result<(), ReadWatchesError>
    requires none { watches.old ≡ [] }
    requires lines { EachLacks 10 lines.old }
    requires some { over lines.old ≡ false }
    ensures taken { OnOk result (AreTaken (join_with_byte 10 lines.old) watches.new) }
    ensures refused { IfErr result (λ e. (line : ℕ) → e ≡ Refused line →
        IsRefusedAt is_identifier (join_with_byte 10 lines.old) line) }
{
    for before in 0..MOST_WATCHES {
        if lines.is_end() {
            return Ok(());
        }
        take_line(alloc, lines, watches, before + 1)?;
    }
    if lines.is_end() {
        Ok(())
    } else {
        Err(ReadWatchesError::Refused(MOST_WATCHES + 1))
    }
}

/// Adds the watch of the next line, which has this number.
fn take_line(
    alloc: Global,
    lines: &mut Words<'_>,
    watches: &mut Items<Watch>,
    number: u32,
) -> Result<(), ReadWatchesError>
    requires { EachLacks 10 lines.old }
    ensures taken { OnOk result (IsTaken (join_with_byte 10 lines.old)
        (join_with_byte 10 lines.new) watches.old watches.new) }
    ensures lines { OnOk result (EachLacks 10 lines.new) }
    ensures some { OnOk result (over lines.new ≡ false) }
    ensures refused { IfErr result (λ e. (line : ℕ) → e ≡ Refused line →
        (line ≡ number) × BeginsWithNone is_identifier (join_with_byte 10 lines.old)) }
{
    let Some(line) = lines.next() else {
        return Err(ReadWatchesError::Refused(number));
    };
    if lines.is_over() {
        return Err(ReadWatchesError::Refused(number));
    }
    match Watch::read(alloc, line) {
        Ok(watch) => Ok(watches.push(watch)?),
        Err(ReadWatchError::Malformed) => Err(ReadWatchesError::Refused(number)),
        Err(ReadWatchError::NoMemory) => Err(ReadWatchesError::NoMemory),
    }
}
