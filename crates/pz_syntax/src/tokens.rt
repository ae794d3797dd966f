use crate::Name;
use pz_items::{Shared, Text};

/// A place in the text of a model: the line and the column, both from 1. A line ends after an LF,
/// and a column counts bytes.
#[derive(Clone, Copy, Debug, PartialEq, Eq)]
pub struct Pos {
    pub line: u32,
    pub column: u32,
}

/// The reserved words. `Me` is `self`; the last four occur in no rule of the grammar.
#[derive(Clone, Copy, Debug, PartialEq, Eq)]
pub enum Keyword {
    Data,
    Process,
    Cluster,
    Class,
    System,
    Extends,
    Ports,
    Messages,
    Variables,
    Init,
    Methods,
    Instances,
    Channels,
    Skip,
    Delay,
    Par,
    And,
    Rap,
    Sel,
    Or,
    Les,
    If,
    Then,
    Else,
    Fi,
    While,
    Do,
    Od,
    Abort,
    Interrupt,
    With,
    New,
    Me,
    Nil,
    True,
    False,
    Return,
    CurrentTime,
    Super,
    Native,
    Import,
    ImportLib,
}

/// The symbols. `Equal` is `=`, `Same` is `==`, `Unequal` is `!=` and `Distinct` is `!==`.
#[derive(Clone, Copy, Debug, PartialEq, Eq)]
pub enum Symbol {
    LeftParen,
    RightParen,
    LeftBrace,
    RightBrace,
    LeftBracket,
    RightBracket,
    Comma,
    Semicolon,
    Colon,
    Assign,
    Bang,
    Query,
    Bar,
    Dot,
    Plus,
    Minus,
    Star,
    Slash,
    Equal,
    Same,
    Unequal,
    Distinct,
    Less,
    LessEqual,
    Greater,
    GreaterEqual,
    Ampersand,
}

/// What a token is. Of a float only its presence is kept.
#[derive(Debug, Drop)]
pub enum TokenKind {
    Ident(Name),
    Key(Keyword),
    Int(i64),
    Float,
    Char(u8),
    Str(Shared<Text>),
    Sym(Symbol),
}

/// A token without its place. `head` marks an identifier, or `init`, before a `:` or before two
/// groups in round brackets, or one such group and a `:`.
#[derive(Debug, Drop)]
pub struct Mark {
    pub kind: TokenKind,
    pub head: bool,
}

/// A token where it stands in the text.
#[derive(Debug, Drop)]
pub struct Token {
    pub mark: Mark,
    pub pos: Pos,
}
