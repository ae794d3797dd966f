//! Where no blank stands within a line.

ghost use Rattle.std.specs.Prelude.{◌≡◌};
ghost use Rattle.pz_format.specs.Blanks as blanks;

use pz_lexer::Piece;
use pz_syntax::{Keyword, Symbol, TokenKind};

/// Whether no blank stands between two pieces of one line.
pub fn are_joined(before: &Piece, piece: &Piece) -> bool
    ensures { result ≡ blanks.are_joined before.now piece.now }
{
    let Piece::Token(before) = before else {
        return false;
    };
    let Piece::Token(token) = piece else {
        return false;
    };
    joins(&before.mark.kind, &token.mark.kind)
}

fn joins(before: &TokenKind, kind: &TokenKind) -> bool
    ensures { result ≡ blanks.joins before.now kind.now }
{
    holds_next(before) || holds_on(kind) || takes(before, kind)
}

fn holds_next(kind: &TokenKind) -> bool
    ensures { result ≡ blanks.holds_next kind.now }
{
    match kind {
        TokenKind::Sym(Symbol::LeftParen | Symbol::LeftBracket | Symbol::LeftBrace) => true,
        TokenKind::Sym(Symbol::Dot | Symbol::Query | Symbol::Bang) => true,
        _ => false,
    }
}

fn holds_on(kind: &TokenKind) -> bool
    ensures { result ≡ blanks.holds_on kind.now }
{
    match kind {
        TokenKind::Sym(Symbol::RightParen | Symbol::RightBracket | Symbol::RightBrace) => true,
        TokenKind::Sym(Symbol::Comma | Symbol::Semicolon) => true,
        TokenKind::Sym(Symbol::Dot | Symbol::Query) => true,
        _ => false,
    }
}

/// A `(` behind what is called, or a `!` behind a port.
fn takes(before: &TokenKind, kind: &TokenKind) -> bool
    ensures { result ≡ blanks.takes before.now kind.now }
{
    match kind {
        TokenKind::Sym(Symbol::LeftParen) => is_called(before),
        TokenKind::Sym(Symbol::Bang) => is_name(before),
        _ => false,
    }
}

fn is_called(kind: &TokenKind) -> bool
    ensures { result ≡ blanks.is_called kind.now }
{
    match kind {
        TokenKind::Ident(_) => true,
        TokenKind::Key(Keyword::Init | Keyword::New) => true,
        TokenKind::Sym(Symbol::RightParen) => true,
        _ => false,
    }
}

fn is_name(kind: &TokenKind) -> bool
    ensures { result ≡ blanks.is_name kind.now }
{
    matches!(kind, TokenKind::Ident(_))
}
