// Commands, read from their lines. Takes no memory.

ghost use Rattle.std.specs.Prelude.{◌≡◌};
ghost use Rattle.pz_debug_commands.specs.Commands.{IsCommand};
ghost use Rattle.pz_debug_commands.specs.CommandView.{command_of};
ghost use Rattle.pz_debug_commands.specs.devices.Reading as device;

use crate::Command;
use crate::cutting::cut;
use crate::numbers::{count, number};

/// The command of a line, which is given without its LF. Takes a time that is linear in the line.
pub fn read_command(line: &[u8]) -> Command<'_>
    ensures { IsCommand line.now (command_of result) }
{
    match cut(line, b' ') {
        None => alone(line),
        Some((first, behind)) => match cut(behind, b' ') {
            None => with_one(first, behind),
            Some((second, third)) => match cut(third, b' ') {
                None => with_two(first, second, third),
                Some(_) => Command::Unknown,
            },
        },
    }
}

/// The command that is this word.
fn alone(word: &[u8]) -> Command<'_>
    ensures { command_of result ≡ device.alone word.now }
{
    if word == "menu".as_bytes() {
        return Command::Menu;
    }
    if word == "pass".as_bytes() {
        return Command::Pass;
    }
    Command::Unknown
}

/// The command of this name with this number.
fn with_one<'a>(name: &'a [u8], word: &'a [u8]) -> Command<'a>
    ensures { command_of result ≡ device.with_one name.now word.now }
{
    if name == "pick".as_bytes() {
        return match number(word) {
            Some(k) => Command::Pick(k),
            None => Command::Unknown,
        };
    }
    if name == "run".as_bytes() {
        return match count(word) {
            Some(n) => Command::Run(n),
            None => Command::Unknown,
        };
    }
    if name == "back".as_bytes() {
        return match count(word) {
            Some(n) => Command::Back(n),
            None => Command::Unknown,
        };
    }
    Command::Unknown
}

/// The command of this name with these words.
fn with_two<'a>(name: &'a [u8], first: &'a [u8], second: &'a [u8]) -> Command<'a>
    ensures { command_of result ≡ device.with_two name.now first.now second.now }
{
    if !is_word(first) {
        return Command::Unknown;
    }
    if name == "until".as_bytes() {
        return match count(second) {
            Some(most) => Command::Until {
                message: first,
                most,
            },
            None => Command::Unknown,
        };
    }
    if name == "show".as_bytes() && is_word(second) {
        return Command::Show {
            path: first,
            name: second,
        };
    }
    Command::Unknown
}

/// Whether this may be a word, in which no blank stands: it has a byte, and no LF.
fn is_word(text: &[u8]) -> bool
    ensures { result ≡ device.is_word text.now }
{
    has_bytes(text) && is_unbroken(text)
}

fn has_bytes(text: &[u8]) -> bool
    ensures { result ≡ device.has_bytes text.now }
{
    match text {
        [] => false,
        [_, ..] => true,
    }
}

fn is_unbroken(text: &[u8]) -> bool
    ensures { result ≡ device.is_unbroken text.now }
{
    text.iter().all(|b| *b != b'\n')
}
