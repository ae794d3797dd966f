ghost use Rattle.std.specs.Prelude.{◌≡◌, ◌≢◌, ◌+◌, ◌<◌, ◌^◌, [], length, IfNone, IfSome};
ghost use Rattle.pz_debug_commands.specs.Lines.{BeginsWithLine};
ghost use Rattle.pz_debug_commands.specs.CommandView.{command_of};
ghost use Rattle.pz_debug_commands.specs.Texts.{BeginsWithCommand};

use crate::Numbered;
use crate::cutting::cut;
use crate::reading::read_command;
use std::marker::Model;

/// The commands of a text, one by one from its front. It borrows the text and takes no memory, so a text
/// that comes line by line is read by one of these for each line.
#[derive(Drop)]
pub struct Commands<'a> {
    text: &'a [u8],
    line: u64,
}

impl<'a> Model for Commands<'a> {
    ghost use Rattle.std.specs.Prelude.{◌+◌, ◌<◌, ◌^◌, length};
    ghost use Rattle.pz_debug_commands.specs.Texts.{Left};

    ghost Value = { Left };

    ghost view = { λ c. record { text = c.text.now; line = c.line } };

    ghost invariant = { λ c. c.line + length c.text.now < 2 ^ 64 };
}

impl<'a> Commands<'a> {
    /// The commands of a text whose first line has this number.
    pub fn new(text: &'a [u8], line: u64) -> Commands<'a>
        requires { line + length text.now < 2 ^ 64 }
        ensures text { result.text ≡ text.now }
        ensures line { result.line ≡ line }
    {
        Commands { text, line }
    }

    /// Takes the command of the next line, with the number of that line; at the end there is none. Takes
    /// a time that is linear in the line.
    pub fn next(&mut self) -> Option<Numbered<'a>>
        ensures none { IfNone result (self.old.text ≡ []) }
        ensures found { IfSome result (λ next. BeginsWithCommand self.old.text
            (command_of next.command) self.new.text) }
        ensures number { IfSome result (λ next. next.line ≡ self.old.line) }
        ensures counted { IfSome result (λ next. self.new.line ≡ self.old.line + 1) }
        ensures over { IfNone result (self.new ≡ self.old) }
    {
        if self.text.is_empty() {
            return None;
        }
        let number = self.line;
        let line = self.take_line();
        Some(Numbered {
            line: number,
            command: read_command(line),
        })
    }

    // Takes the next line, which is given without its LF.
    fn take_line(&mut self) -> &'a [u8]
        requires { self.old.text ≢ [] }
        ensures line { BeginsWithLine self.old.text result.now self.new.text }
        ensures counted { self.new.line ≡ self.old.line + 1 }
    {
        let (line, rest) = match cut(self.text, b'\n') {
            Some((line, rest)) => (line, rest),
            None => self.text.split_at(self.text.len()),
        };
        self.text = rest;
        self.line += 1;
        line
    }
}
