//! How deep a line stands.

ghost use Rattle.std.specs.Prelude.{◌≡◌, ◌<◌, ◌-◌, ◌^◌};
ghost use Rattle.pz_format.specs.Levels as levels;

use pz_lexer::Piece;
use pz_syntax::{Keyword, Symbol, TokenKind};

/// How many constructs are opened and closed before some place. Where a bracket or word has no match,
/// there may be more of either.
#[derive(Clone, Copy, Debug, PartialEq, Eq)]
pub struct Level {
    opened: usize,
    closed: usize,
}

impl Level {
    /// Nothing is opened before the first piece.
    pub fn start() -> Level
        ensures { result ≡ levels.start }
    {
        Level {
            opened: 0,
            closed: 0,
        }
    }

    /// The level behind a piece.
    pub fn behind(self, piece: &Piece) -> Level
        requires opened { self.opened < 2 ^ 64 - 1 }
        requires closed { self.closed < 2 ^ 64 - 1 }
        ensures { result ≡ levels.behind self piece.now }
    {
        let Piece::Token(token) = piece else {
            return self;
        };
        let kind = &token.mark.kind;
        Level {
            opened: self.opened + usize::from(deepens(kind)),
            closed: self.closed + usize::from(closes(kind)),
        }
    }

    /// How many blanks a line begins with that begins with this piece: two for each construct that is
    /// open, at most 40.
    pub fn indent(self, piece: &Piece) -> usize
        ensures { result ≡ levels.indent (levels.depth self piece.now) }
    {
        let open = self.opened.saturating_sub(self.closed);
        let depth = open.saturating_sub(usize::from(steps_back(piece)));
        if depth < 20 { 2 * depth } else { 40 }
    }
}

/// `par`, `sel`, `if`, `while` and the brackets that open.
fn deepens(kind: &TokenKind) -> bool
    ensures { result ≡ levels.deepens kind.now }
{
    match kind {
        TokenKind::Key(Keyword::Par | Keyword::Sel | Keyword::If | Keyword::While) => true,
        TokenKind::Sym(Symbol::LeftParen | Symbol::LeftBracket | Symbol::LeftBrace) => true,
        _ => false,
    }
}

/// `rap`, `les`, `fi`, `od` and the brackets that close.
fn closes(kind: &TokenKind) -> bool
    ensures { result ≡ levels.closes kind.now }
{
    match kind {
        TokenKind::Key(Keyword::Rap | Keyword::Les | Keyword::Fi | Keyword::Od) => true,
        TokenKind::Sym(Symbol::RightParen | Symbol::RightBracket | Symbol::RightBrace) => true,
        _ => false,
    }
}

/// A word that stands as deep as the one that opened what it parts or closes.
fn steps_back(piece: &Piece) -> bool
    ensures { result ≡ levels.token_is levels.steps_back piece.now }
{
    let Piece::Token(token) = piece else {
        return false;
    };
    match &token.mark.kind {
        TokenKind::Key(keyword) => parts_or_closes(*keyword),
        _ => false,
    }
}

fn parts_or_closes(keyword: Keyword) -> bool
    ensures { result ≡ levels.parts_or_closes keyword }
{
    match keyword {
        Keyword::And
        | Keyword::Rap
        | Keyword::Or
        | Keyword::Les
        | Keyword::Else
        | Keyword::Fi
        | Keyword::Od => true,
        _ => false,
    }
}
