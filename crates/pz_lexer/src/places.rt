ghost use Rattle.std.specs.Prelude.{◌≡◌, ◌+◌, ◌-◌, ◌<◌, ◌^◌, length};
ghost use Rattle.pz_lexer.specs.Places.{origin, place_after};

use pz_syntax::Pos;

/// The place of the first byte.
pub const ORIGIN: Pos = Pos { line: 1, column: 1 };

/// The place after these bytes, of which the first stands at `pos`.
pub fn place_after(pos: Pos, text: &[u8]) -> Pos
    requires line { pos.line + length text.now < 2 ^ 32 }
    requires column { pos.column + length text.now < 2 ^ 32 }
    ensures { result ≡ place_after pos text.now }
{
    let mut line = pos.line;
    let mut column = pos.column;
    for b in text {
        if *b == b'\n' {
            line += 1;
            column = 1;
        } else {
            column += 1;
        }
    }
    Pos { line, column }
}

/// The place behind the last byte of a text.
pub fn end_of(text: &[u8]) -> Pos
    requires { length text.now < 2 ^ 32 - 1 }
    ensures is { result ≡ place_after origin text.now }
{
    place_after(ORIGIN, text)
}
