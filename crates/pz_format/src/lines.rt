//! Where a line begins.

ghost use Rattle.std.specs.Prelude.{◌≡◌};
ghost use Rattle.pz_format.specs.Lines as lines;

use pz_lexer::Piece;
use pz_syntax::{Keyword, Symbol, Token, TokenKind};

/// Whether a line begins between two pieces: comments stand in lines of their own.
pub fn begins_line(before: &Piece, piece: &Piece) -> bool
    ensures { result ≡ lines.begins_line before.now piece.now }
{
    let Piece::Token(before) = before else {
        return true;
    };
    let Piece::Token(token) = piece else {
        return true;
    };
    parts(before, token)
}

fn parts(before: &Token, token: &Token) -> bool
    ensures { result ≡ lines.parts before.now token.now }
{
    is_semicolon(&before.mark.kind)
        || leads_line(&token.mark.kind)
        || (token.mark.head && can_end(&before.mark.kind))
}

fn is_semicolon(kind: &TokenKind) -> bool
    ensures { result ≡ lines.is_semicolon kind.now }
{
    matches!(kind, TokenKind::Sym(Symbol::Semicolon))
}

/// A word that begins a declaration, a part of one, or a part or the end of a statement.
fn leads_line(kind: &TokenKind) -> bool
    ensures { result ≡ lines.leads_line kind.now }
{
    match kind {
        TokenKind::Key(keyword) => leads(*keyword),
        _ => false,
    }
}

fn leads(keyword: Keyword) -> bool
    ensures { result ≡ lines.leads keyword }
{
    match keyword {
        Keyword::Data
        | Keyword::Process
        | Keyword::Cluster
        | Keyword::System
        | Keyword::Ports
        | Keyword::Messages
        | Keyword::Variables
        | Keyword::Methods
        | Keyword::Instances
        | Keyword::Channels
        | Keyword::And
        | Keyword::Rap
        | Keyword::Or
        | Keyword::Les
        | Keyword::Else
        | Keyword::Fi
        | Keyword::Od
        | Keyword::With => true,
        _ => false,
    }
}

/// What a method, an instance or a group of variables can end with.
fn can_end(kind: &TokenKind) -> bool
    ensures { result ≡ lines.can_end kind.now }
{
    match kind {
        TokenKind::Ident(_) | TokenKind::Int(_) | TokenKind::Float => true,
        TokenKind::Char(_) | TokenKind::Str(_) => true,
        TokenKind::Key(keyword) => ends(*keyword),
        TokenKind::Sym(Symbol::RightParen | Symbol::RightBrace) => true,
        _ => false,
    }
}

/// A literal, or the last word of a statement or of an expression.
fn ends(keyword: Keyword) -> bool
    ensures { result ≡ lines.ends keyword }
{
    match keyword {
        Keyword::True
        | Keyword::False
        | Keyword::Nil
        | Keyword::Skip
        | Keyword::Rap
        | Keyword::Les
        | Keyword::Fi
        | Keyword::Od
        | Keyword::Me
        | Keyword::CurrentTime => true,
        _ => false,
    }
}
