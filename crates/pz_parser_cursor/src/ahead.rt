//! The look-ahead: what stands next, as one flat list of cases.

ghost use Rattle.std.specs.Prelude.{◌≡◌};
ghost use Rattle.pz_parser_cursor.specs.devices.LookAhead as spec;

use pz_syntax::{Keyword, Symbol, Token, TokenKind};

/// What comes next, without what it says. `Word` is an identifier that is no head, `Head` one that
/// is, and `InitHead` the keyword `init` as a head; a keyword and a symbol that are no heads are
/// called as in `Keyword` and `Symbol`.
#[derive(Clone, Copy, Debug, PartialEq, Eq)]
pub enum Next {
    /// The end, or what no rule of the grammar begins or goes on with.
    Other,
    Word,
    Head,
    InitHead,
    Int,
    /// A literal that is no integer.
    Literal,
    Data,
    Process,
    Cluster,
    Class,
    System,
    Extends,
    Ports,
    Messages,
    Variables,
    Init,
    Methods,
    Instances,
    Channels,
    Skip,
    Delay,
    Par,
    And,
    Rap,
    Sel,
    Or,
    Les,
    If,
    Then,
    Else,
    Fi,
    While,
    Do,
    Od,
    Abort,
    Interrupt,
    With,
    New,
    Me,
    Return,
    CurrentTime,
    LeftParen,
    RightParen,
    LeftBrace,
    RightBrace,
    LeftBracket,
    RightBracket,
    Comma,
    Semicolon,
    Colon,
    Assign,
    Bang,
    Query,
    Bar,
    Dot,
    Plus,
    Minus,
    Star,
    Slash,
    Equal,
    Same,
    Unequal,
    Distinct,
    Less,
    LessEqual,
    Greater,
    GreaterEqual,
    Ampersand,
}

/// What comes next in these tokens.
#[tactic(auto, unfolding(crate::specs::devices::LookAhead::next))]
pub fn next_of(tokens: &[Token]) -> Next
    ensures is { result ≡ spec.next tokens.now }
{
    match tokens {
        [] => Next::Other,
        [token, ..] => next_by(token.mark.head, &token.mark.kind),
    }
}

/// Whether both are one case.
#[tactic(auto, unfolding(crate::specs::devices::LookAhead::same))]
pub fn same(a: Next, b: Next) -> bool
    ensures is { result ≡ spec.same a b }
{
    a == b
}

fn next_by(head: bool, kind: &TokenKind) -> Next
    ensures { result ≡ spec.next_by head kind.now }
{
    if head {
        return next_head(kind);
    }
    match kind {
        TokenKind::Ident(_) => Next::Word,
        TokenKind::Key(key) => next_key(*key),
        TokenKind::Int(_) => Next::Int,
        TokenKind::Float => Next::Literal,
        TokenKind::Char(_) => Next::Literal,
        TokenKind::Str(_) => Next::Literal,
        TokenKind::Sym(symbol) => next_symbol(*symbol),
    }
}

fn next_head(kind: &TokenKind) -> Next
    ensures { result ≡ spec.next_head kind.now }
{
    match kind {
        TokenKind::Ident(_) => Next::Head,
        TokenKind::Key(key) => next_head_key(*key),
        _ => Next::Other,
    }
}

fn next_head_key(key: Keyword) -> Next
    ensures { result ≡ spec.next_head_key key }
{
    match key {
        Keyword::Init => Next::InitHead,
        _ => Next::Other,
    }
}

fn next_key(key: Keyword) -> Next
    ensures { result ≡ spec.next_key key }
{
    match key {
        Keyword::Data => Next::Data,
        Keyword::Process => Next::Process,
        Keyword::Cluster => Next::Cluster,
        Keyword::Class => Next::Class,
        Keyword::System => Next::System,
        Keyword::Extends => Next::Extends,
        Keyword::Ports => Next::Ports,
        Keyword::Messages => Next::Messages,
        Keyword::Variables => Next::Variables,
        Keyword::Init => Next::Init,
        Keyword::Methods => Next::Methods,
        Keyword::Instances => Next::Instances,
        Keyword::Channels => Next::Channels,
        Keyword::Skip => Next::Skip,
        Keyword::Delay => Next::Delay,
        Keyword::Par => Next::Par,
        Keyword::And => Next::And,
        Keyword::Rap => Next::Rap,
        Keyword::Sel => Next::Sel,
        Keyword::Or => Next::Or,
        Keyword::Les => Next::Les,
        Keyword::If => Next::If,
        Keyword::Then => Next::Then,
        Keyword::Else => Next::Else,
        Keyword::Fi => Next::Fi,
        Keyword::While => Next::While,
        Keyword::Do => Next::Do,
        Keyword::Od => Next::Od,
        Keyword::Abort => Next::Abort,
        Keyword::Interrupt => Next::Interrupt,
        Keyword::With => Next::With,
        Keyword::New => Next::New,
        Keyword::Me => Next::Me,
        Keyword::Nil => Next::Literal,
        Keyword::True => Next::Literal,
        Keyword::False => Next::Literal,
        Keyword::Return => Next::Return,
        Keyword::CurrentTime => Next::CurrentTime,
        Keyword::Super => Next::Other,
        Keyword::Native => Next::Other,
        Keyword::Import => Next::Other,
        Keyword::ImportLib => Next::Other,
    }
}

fn next_symbol(symbol: Symbol) -> Next
    ensures { result ≡ spec.next_symbol symbol }
{
    match symbol {
        Symbol::LeftParen => Next::LeftParen,
        Symbol::RightParen => Next::RightParen,
        Symbol::LeftBrace => Next::LeftBrace,
        Symbol::RightBrace => Next::RightBrace,
        Symbol::LeftBracket => Next::LeftBracket,
        Symbol::RightBracket => Next::RightBracket,
        Symbol::Comma => Next::Comma,
        Symbol::Semicolon => Next::Semicolon,
        Symbol::Colon => Next::Colon,
        Symbol::Assign => Next::Assign,
        Symbol::Bang => Next::Bang,
        Symbol::Query => Next::Query,
        Symbol::Bar => Next::Bar,
        Symbol::Dot => Next::Dot,
        Symbol::Plus => Next::Plus,
        Symbol::Minus => Next::Minus,
        Symbol::Star => Next::Star,
        Symbol::Slash => Next::Slash,
        Symbol::Equal => Next::Equal,
        Symbol::Same => Next::Same,
        Symbol::Unequal => Next::Unequal,
        Symbol::Distinct => Next::Distinct,
        Symbol::Less => Next::Less,
        Symbol::LessEqual => Next::LessEqual,
        Symbol::Greater => Next::Greater,
        Symbol::GreaterEqual => Next::GreaterEqual,
        Symbol::Ampersand => Next::Ampersand,
    }
}
