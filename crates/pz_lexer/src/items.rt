ghost use Rattle.std.specs.Prelude.{◌≡◌, ◌<◌, IfSome};
ghost use Rattle.pz_lexer.specs.Quoted.{escaped, hex_value};
ghost use Rattle.pz_lexer.specs.devices.QuotedStep.{hex_at, escape_at, inside_at};
ghost use Rattle.pz_lexer.specs.devices.Gives.{Sees};

/// What stands in quotes at some place.
#[derive(Clone, Copy, Debug, PartialEq, Eq)]
pub enum Inside {
    /// A byte, spelled by so many bytes.
    Item { value: u8, len: usize },
    /// A `\` that begins no escape.
    NoEscape,
    Closing,
    /// An LF or the end.
    CutOff,
}

/// What stands in these quotes at the front of the text.
pub fn inside_at(text: &[u8], quote: u8) -> Inside
    ensures { Sees (inside_at quote text.now) result }
{
    let Some((first, rest)) = text.split_first() else {
        return Inside::CutOff;
    };
    let first = *first;
    if first == b'\n' {
        Inside::CutOff
    } else if first == b'\\' {
        escape_at(rest)
    } else if first == quote {
        Inside::Closing
    } else {
        Inside::Item {
            value: first,
            len: 1,
        }
    }
}

/// The escape whose `\` stands before the text.
fn escape_at(text: &[u8]) -> Inside
    ensures { Sees (escape_at text.now) result }
{
    let Some((letter, rest)) = text.split_first() else {
        return Inside::NoEscape;
    };
    let letter = *letter;
    if let Some(value) = escaped(letter) {
        return Inside::Item { value, len: 2 };
    }
    if letter == b'x' {
        hex_at(rest)
    } else {
        Inside::NoEscape
    }
}

/// The escape whose `\x` stands before the text.
fn hex_at(text: &[u8]) -> Inside
    ensures { Sees (hex_at text.now) result }
{
    let [high, low, ..] = text else {
        return Inside::NoEscape;
    };
    let Some(high) = hex_value(*high) else {
        return Inside::NoEscape;
    };
    let Some(low) = hex_value(*low) else {
        return Inside::NoEscape;
    };
    Inside::Item {
        value: 16 * high + low,
        len: 4,
    }
}

/// What `\` and this byte stand for.
fn escaped(b: u8) -> Option<u8>
    ensures { result ≡ escaped b }
{
    match b {
        b'\\' | b'"' | b'\'' => Some(b),
        b'n' => Some(b'\n'),
        b't' => Some(b'\t'),
        b'r' => Some(b'\r'),
        _ => None,
    }
}

/// What a hexadecimal digit of either case stands for.
fn hex_value(b: u8) -> Option<u8>
    ensures value { result ≡ hex_value b }
    ensures small { IfSome result (λ value. value < 16) }
{
    match b {
        b'0'..=b'9' => Some(b - b'0'),
        b'a'..=b'f' => Some(b - b'a' + 10),
        b'A'..=b'F' => Some(b - b'A' + 10),
        _ => None,
    }
}
