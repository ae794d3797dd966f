// An entry, read from a line.

ghost use Rattle.std.specs.Prelude.{◌≡◌, true, None, Some, IfOk, IfErr, IfSome, length, map};
ghost use Rattle.pz_env_script.specs.declared.errors.ReadEntryError.TheVariants.{Malformed};
ghost use Rattle.pz_lines.specs.Identifiers.{is_identifier};
ghost use Rattle.pz_env_script.specs.devices.Reading.{entry_of, entry_in, are_names, transfer_of, values_of, literals_of, count_in, texts};

use crate::errors::ReadEntryError;
use crate::literals::{literal, number_up_to, wait_in};
use crate::{Entry, Transfer};
use pz_lines::{is_identifier, split};
use pz_syntax::Name;
use pz_syntax::pz_items::Items;
use pz_value::Value;
use std::alloc::{AllocError, Global};

/// The most values of a message.
const MOST_VALUES: usize = 100;

/// The entry of a line, which is given without its LF. Takes a time that is linear in the line.
pub fn read_entry(alloc: Global, line: &[u8]) -> Result<Entry, ReadEntryError>
    ensures found { IfOk result (λ entry. entry_in line.now ≡ Some entry) }
    ensures malformed { IfErr result (λ e. e ≡ Malformed → entry_in line.now ≡ None) }
{
    let words = split(alloc, line, b' ')?;
    entry(alloc, words.as_slice())
}

/// The entry that all these words are.
fn entry(alloc: Global, words: &[&[u8]]) -> Result<Entry, ReadEntryError>
    ensures found { IfOk result (λ entry. entry_of (texts words.now) ≡ Some entry) }
    ensures malformed { IfErr result (λ e. e ≡ Malformed → entry_of (texts words.now) ≡ None) }
{
    match words {
        [wait, action, instance, port, message, rest @ ..] => {
            let Some(wait) = wait_in(wait) else {
                return Err(ReadEntryError::Malformed);
            };
            if !are_names(instance, port, message) {
                return Err(ReadEntryError::Malformed);
            }
            let instance = name(alloc, instance)?;
            let port = name(alloc, port)?;
            let message = name(alloc, message)?;
            let transfer = transfer(alloc, action, rest)?;
            Ok(Entry {
                wait,
                instance,
                port,
                message,
                transfer,
            })
        }
        _ => Err(ReadEntryError::Malformed),
    }
}

/// Whether these may name an instance, its port and a message.
fn are_names(instance: &[u8], port: &[u8], message: &[u8]) -> bool
    ensures { result ≡ are_names instance.now port.now message.now }
{
    is_identifier(instance) && is_identifier(port) && is_identifier(message)
}

/// The name that is spelled so. The only error is want of memory.
fn name(alloc: Global, word: &[u8]) -> Result<Name, AllocError>
    requires { is_identifier word.now ≡ true }
    ensures { IfOk result (λ name. name ≡ word.now) }
{
    match str::from_utf8(word) {
        Ok(text) => Name::new(alloc, text),
        Err(_) => unreachable!(),
    }
}

/// What is sent or received: the word of it, and all words behind the message.
fn transfer(alloc: Global, action: &[u8], rest: &[&[u8]]) -> Result<Transfer, ReadEntryError>
    ensures found { IfOk result (λ t. transfer_of action.now (texts rest.now) ≡ Some t) }
    ensures malformed { IfErr result (λ e. e ≡ Malformed →
        transfer_of action.now (texts rest.now) ≡ None) }
{
    if action == "send".as_bytes() {
        return Ok(Transfer::Send(values(alloc, rest)?));
    }
    if action != "receive".as_bytes() {
        return Err(ReadEntryError::Malformed);
    }
    match count(rest) {
        Some(count) => Ok(Transfer::Receive(count)),
        None => Err(ReadEntryError::Malformed),
    }
}

/// How many values all these words say.
fn count(words: &[&[u8]]) -> Option<u32>
    ensures { result ≡ count_in (texts words.now) }
{
    match words {
        [word] => match number_up_to(word, MOST_VALUES as u64) {
            Some(count) => Some(count as u32),
            None => None,
        },
        _ => None,
    }
}

/// The values that these words write, one each.
fn values(alloc: Global, words: &[&[u8]]) -> Result<Items<Value>, ReadEntryError>
    ensures found { IfOk result (λ vs. values_of (texts words.now) ≡ Some vs) }
    ensures malformed { IfErr result (λ e. e ≡ Malformed → values_of (texts words.now) ≡ None) }
{
    if words.len() > MOST_VALUES {
        return Err(ReadEntryError::Malformed);
    }
    let mut values = Items::new(alloc);
    for word in words {
        let Some(value) = literal(word) else {
            return Err(ReadEntryError::Malformed);
        };
        values.push(value)?;
    }
    Ok(values)
}
