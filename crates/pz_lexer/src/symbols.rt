ghost use Rattle.std.specs.Prelude.{◌≡◌, length, take, option_map};
ghost use Rattle.pz_lexer.specs.Spellings.{spelled};
ghost use Rattle.pz_lexer.specs.Symbols.{symbols};
ghost use Rattle.pz_lexer.specs.devices.SymbolStep.{symbol_step};
ghost use Rattle.pz_lexer.specs.devices.Gives.{Gives, found_symbol};

use crate::sorts::{Found, Reason, Sort, Stop};
use crate::spellings::find;
use pz_syntax::{Symbol, TokenKind};

static SYMBOLS: [(&str, Symbol); 27] = [
    ("(", Symbol::LeftParen),
    (")", Symbol::RightParen),
    ("{", Symbol::LeftBrace),
    ("}", Symbol::RightBrace),
    ("[", Symbol::LeftBracket),
    ("]", Symbol::RightBracket),
    (",", Symbol::Comma),
    (";", Symbol::Semicolon),
    (":", Symbol::Colon),
    (":=", Symbol::Assign),
    ("!", Symbol::Bang),
    ("?", Symbol::Query),
    ("|", Symbol::Bar),
    (".", Symbol::Dot),
    ("+", Symbol::Plus),
    ("-", Symbol::Minus),
    ("*", Symbol::Star),
    ("/", Symbol::Slash),
    ("=", Symbol::Equal),
    ("==", Symbol::Same),
    ("!=", Symbol::Unequal),
    ("!==", Symbol::Distinct),
    ("<", Symbol::Less),
    ("<=", Symbol::LessEqual),
    (">", Symbol::Greater),
    (">=", Symbol::GreaterEqual),
    ("&", Symbol::Ampersand),
];

/// The symbol that stands first, by longest match. No symbol has more than three bytes.
pub fn symbol(text: &[u8]) -> Result<Found, Stop>
    ensures { Gives (symbol_step text.now) result }
{
    if let Some(found) = front_symbol(text, 3) {
        return Ok(found);
    }
    if let Some(found) = front_symbol(text, 2) {
        return Ok(found);
    }
    front_symbol(text, 1).ok_or(Stop::Refused(Reason::BadByte, 0))
}

/// The symbol that the first so many bytes spell, or the whole text if it is shorter.
fn front_symbol(text: &[u8], most: usize) -> Option<Found>
    ensures { result ≡ option_map (found_symbol (length (take most text.now)))
        (spelled symbols (take most text.now)) }
{
    let len = most.min(text.len());
    let (spelling, _) = text.split_at(len);
    let symbol = find(&SYMBOLS, spelling)?;
    Some(Found {
        sort: Sort::Token(TokenKind::Sym(symbol)),
        len,
    })
}
