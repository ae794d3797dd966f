//! Tokens and comments, byte by byte at the end of a buffer.

ghost use Rattle.std.specs.Prelude.{◌≡◌, ◌<◌, ◌++◌, OnOk};
ghost use Rattle.std.specs.Fmt.{signed_decimal};
ghost use Rattle.pz_format.specs.Writing.{hex_digit, item_text, quoted, kind_text, piece_text};

use crate::spellings::{keyword_text, symbol_text};
use pz_lexer::Piece;
use pz_syntax::TokenKind;
use std::alloc::AllocError;

/// Writes a token or a comment. The only error is want of memory.
pub fn put_piece(out: &mut Vec<u8>, piece: &Piece) -> Result<(), AllocError>
    ensures { OnOk result (out.new.items ≡ out.old.items ++ piece_text piece.now) }
{
    match piece {
        Piece::Token(token) => put_kind(out, &token.mark.kind),
        Piece::Line(text) => out.extend_from_slice(text.as_bytes()),
        Piece::Block(text) => out.extend_from_slice(text.as_bytes()),
    }
}

fn put_kind(out: &mut Vec<u8>, kind: &TokenKind) -> Result<(), AllocError>
    ensures { OnOk result (out.new.items ≡ out.old.items ++ kind_text kind.now) }
{
    match kind {
        TokenKind::Ident(name) => out.extend_from_slice(name.as_str().as_bytes()),
        TokenKind::Key(keyword) => out.extend_from_slice(keyword_text(*keyword).as_bytes()),
        TokenKind::Int(value) => put_integer(out, *value),
        TokenKind::Float => out.extend_from_slice(b"0.0"),
        TokenKind::Char(value) => put_quoted(out, b'\'', &[*value]),
        TokenKind::Str(text) => put_quoted(out, b'"', text.get().as_bytes()),
        TokenKind::Sym(symbol) => out.extend_from_slice(symbol_text(*symbol).as_bytes()),
    }
}

fn put_integer(out: &mut Vec<u8>, value: i64) -> Result<(), AllocError>
    ensures { OnOk result (out.new.items ≡ out.old.items ++ signed_decimal value) }
{
    let digits = format!(in *out.allocator(); "{value}")?;
    out.extend_from_slice(digits.as_bytes())
}

/// Items and the quotes around them.
fn put_quoted(out: &mut Vec<u8>, quote: u8, bytes: &[u8]) -> Result<(), AllocError>
    ensures { OnOk result (out.new.items ≡ out.old.items ++ quoted quote bytes.now) }
{
    out.push(quote)?;
    for byte in bytes {
        put_item(out, quote, *byte)?;
    }
    out.push(quote)?;
    Ok(())
}

/// An item between these quotes.
fn put_item(out: &mut Vec<u8>, quote: u8, byte: u8) -> Result<(), AllocError>
    ensures { OnOk result (out.new.items ≡ out.old.items ++ item_text quote byte) }
{
    if byte == b'\\' || byte == quote {
        out.extend_from_slice(&[b'\\', byte])
    } else if byte >= b' ' && byte <= b'~' {
        out.extend_from_slice(&[byte])
    } else {
        out.extend_from_slice(&[b'\\', b'x', hex_digit(byte / 16), hex_digit(byte % 16)])
    }
}

fn hex_digit(digit: u8) -> u8
    requires { digit < 16 }
    ensures { result ≡ hex_digit digit }
{
    if digit < 10 {
        b'0' + digit
    } else {
        b'a' - 10 + digit
    }
}
