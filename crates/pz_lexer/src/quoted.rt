ghost use Rattle.std.specs.Prelude.{◌≡◌, ◌==◌, true};
ghost use Rattle.pz_syntax.specs.pz_items.Characters.{byte};
ghost use Rattle.pz_lexer.specs.Bytes.{begins};
ghost use Rattle.pz_lexer.specs.devices.Reading.{Reads};

use crate::bytes::begins_byte;
use crate::items::{Inside, inside_at};
use crate::sorts::{Found, Reason, Sort, Stop};
use pz_syntax::pz_items::Shared;
use pz_syntax::{Text, TokenKind};
use std::alloc::Global;

/// The string that a `"` begins.
pub fn string(alloc: Global, text: &[u8]) -> Result<Found, Stop>
    requires { begins (λ b. b == byte "\"") text.now ≡ true }
    ensures { Reads text.now result }
{
    let mut values = Vec::new(alloc);
    let mut at = 1;
    'items: loop {
        let (_, rest) = text.split_at(at);
        match inside_at(rest, b'"') {
            Inside::Item { value, len } => {
                values.push(value)?;
                at += len;
            }
            Inside::NoEscape => return Err(Stop::Refused(Reason::BadByte, at)),
            Inside::Closing => {
                let text = Shared::new(alloc, Text::new(values))?;
                return Ok(Found {
                    sort: Sort::Token(TokenKind::Str(text)),
                    len: at + 1,
                });
            }
            Inside::CutOff => return Err(Stop::Refused(Reason::OpenString, 0)),
        }
    }
}

/// The character that a `'` begins.
pub fn character(text: &[u8]) -> Result<Found, Stop>
    requires { begins (λ b. b == byte "'") text.now ≡ true }
    ensures { Reads text.now result }
{
    let (_, inside) = text.split_at(1);
    match inside_at(inside, b'\'') {
        Inside::Item { value, len } => {
            let (_, rest) = inside.split_at(len);
            if begins_byte(rest, b'\'') {
                Ok(Found {
                    sort: Sort::Token(TokenKind::Char(value)),
                    len: len + 2,
                })
            } else {
                Err(Stop::Refused(Reason::OpenString, 0))
            }
        }
        Inside::NoEscape => Err(Stop::Refused(Reason::BadByte, 1)),
        Inside::Closing | Inside::CutOff => Err(Stop::Refused(Reason::OpenString, 0)),
    }
}
