//! The words behind the names of a command line: its options.

ghost use Rattle.std.specs.Prelude.{◌≡◌, IfOk, Option, Some, None, map, string_bytes, IsTrue};
ghost use Rattle.pz_words.specs.Options.{nothing_said};
ghost use Rattle.pz_words.specs.devices.Reading as device;

use crate::names::{Valued, flag, option_named};
use crate::options::{OptionWord, Options};
use crate::values::value;
use std::alloc::{AllocError, Global};

/// What a word says.
#[derive(Drop)]
pub enum Heard {
    /// What its option says.
    Says(OptionWord),
    /// That the value of this option comes next.
    Names(Valued),
    Nothing,
}

/// What a word says that stands where the value of an option is awaited, or else where an option
/// begins. The only error is want of memory.
fn hear(alloc: Global, awaited: Option<Valued>, word: &str) -> Result<Heard, AllocError>
    ensures { IfOk result (λ heard. heard ≡ device.heard awaited word.now) }
{
    if let Some(option) = awaited {
        return match value(alloc, option, word)? {
            Some(setting) => Ok(Heard::Says(setting)),
            None => Ok(Heard::Nothing),
        };
    }
    if let Some(setting) = flag(word) {
        return Ok(Heard::Says(setting));
    }
    match option_named(word) {
        Some(option) => Ok(Heard::Names(option)),
        None => Ok(Heard::Nothing),
    }
}

/// Adds what the words say to the options, and tells whether they are those of options that nothing
/// before spoke of. The only error is want of memory.
fn add_options(alloc: Global, options: &mut Options, words: &[String]) -> Result<bool, AllocError>
    ensures { IfOk result (λ good. device.read_on options.old None (map string_bytes words.now) ≡
        device.if_so good options.new) }
{
    let mut awaited = None;
    for word in words {
        match hear(alloc, awaited, word.as_str())? {
            Heard::Names(option) => awaited = Some(option),
            Heard::Says(setting) => {
                awaited = None;
                if !options.add(setting) {
                    return Ok(false);
                }
            }
            Heard::Nothing => return Ok(false),
        }
    }
    Ok(awaited.is_none())
}

/// What the options say that the words are. The only error is want of memory.
pub fn read_options(alloc: Global, words: &[String]) -> Result<Option<Options>, AllocError>
    ensures { IfOk result (λ found. found ≡ device.read_on nothing_said None
        (map string_bytes words.now)) }
{
    let mut options = Options::new();
    if add_options(alloc, &mut options, words)? {
        Ok(Some(options))
    } else {
        Ok(None)
    }
}
