ghost use Rattle.std.specs.Prelude.{◌<◌, length};
ghost use Rattle.pz_lexer.specs.devices.Reading.{Reads};

use crate::sorts::{Found, Sort, Stop};
use crate::{bytes, comments, numbers, quoted, symbols, words};
use std::alloc::Global;

/// The piece that stands first in a text that is not empty.
pub fn first_piece(alloc: Global, text: &[u8]) -> Result<Found, Stop>
    requires { 0 < length text.now }
    ensures { Reads text.now result }
{
    let first = text[0];
    if bytes::is_blank(first) {
        return Ok(Found {
            sort: Sort::Blank,
            len: 1,
        });
    }
    if bytes::is_letter(first) {
        return words::word(alloc, text);
    }
    if bytes::is_digit(first) {
        return numbers::number(text);
    }
    match first {
        b'"' => quoted::string(alloc, text),
        b'\'' => quoted::character(text),
        b'/' => comments::comment_or_slash(text),
        _ => symbols::symbol(text),
    }
}
