ghost use Rattle.std.specs.Prelude.{◌≡◌, ◌==◌, ◌<◌, ◌+◌, true, ℕ, List, ◌∷◌, length, drop};
ghost use Rattle.pz_syntax.specs.pz_items.Characters.{byte};
ghost use Rattle.pz_lexer.specs.Bytes.{begins};
ghost use Rattle.pz_lexer.specs.Comments.{begins_pair};
ghost use Rattle.pz_lexer.specs.devices.Reading.{Reads};

use crate::bytes::{begins_byte, line_len};
use crate::sorts::{Found, Reason, Sort, Stop};
use crate::symbols::symbol;

/// The comment that a `/` begins, or the symbol.
pub fn comment_or_slash(text: &[u8]) -> Result<Found, Stop>
    requires { begins (λ b. b == byte "/") text.now ≡ true }
    ensures { Reads text.now result }
{
    let (_, rest) = text.split_at(1);
    if begins_byte(rest, b'/') {
        return Ok(Found {
            sort: Sort::LineComment,
            len: line_len(text),
        });
    }
    if begins_byte(rest, b'*') {
        return block_comment(text);
    }
    symbol(text)
}

/// The comment that `/*` begins. It ends with the next `*/`.
fn block_comment(text: &[u8]) -> Result<Found, Stop>
    requires { (rest : List ℕ) × (text.now ≡ byte "/" ∷ byte "*" ∷ rest) }
    ensures { Reads text.now result }
{
    let mut at = 2;
    'body: while at + 1 < text.len() {
        if ends_at(text, at) {
            return Ok(Found {
                sort: Sort::BlockComment,
                len: at + 2,
            });
        }
        at += 1;
    }
    Err(Stop::Refused(Reason::OpenComment, 0))
}

/// Whether a `*/` stands at this place.
fn ends_at(text: &[u8], at: usize) -> bool
    requires { at + 1 < length text.now }
    ensures { result ≡ begins_pair (byte "*") (byte "/") (drop at text.now) }
{
    text[at] == b'*' && text[at + 1] == b'/'
}
