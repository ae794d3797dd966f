ghost use Rattle.std.specs.Prelude.{◌≡◌, IfOk, true};
ghost use Rattle.std.specs.List.{list_all};
ghost use Rattle.pz_lexer.specs.Bytes.{is_letter, is_word, begins};
ghost use Rattle.pz_lexer.specs.Spellings.{spelled};
ghost use Rattle.pz_lexer.specs.Words.{keywords, word_kind};
ghost use Rattle.pz_lexer.specs.devices.Reading.{Reads};

use crate::bytes::word_len;
use crate::sorts::{Found, Sort, Stop};
use crate::spellings::find;
use pz_syntax::{Keyword, Name, TokenKind};
use std::alloc::{AllocError, Global};

/// The word that a letter begins.
pub fn word(alloc: Global, text: &[u8]) -> Result<Found, Stop>
    requires { begins is_letter text.now ≡ true }
    ensures { Reads text.now result }
{
    let len = word_len(text);
    let (word, _) = text.split_at(len);
    Ok(Found {
        sort: Sort::Token(word_kind(alloc, word)?),
        len,
    })
}

/// What a word is: a keyword, or an identifier.
fn word_kind(alloc: Global, word: &[u8]) -> Result<TokenKind, AllocError>
    requires { list_all is_word word.now ≡ true }
    ensures { IfOk result (λ kind. kind ≡ word_kind word.now) }
{
    match keyword(word) {
        Some(keyword) => Ok(TokenKind::Key(keyword)),
        None => Ok(TokenKind::Ident(name(alloc, word)?)),
    }
}

fn name(alloc: Global, word: &[u8]) -> Result<Name, AllocError>
    requires { list_all is_word word.now ≡ true }
    ensures { IfOk result (λ name. name ≡ word.now) }
{
    match str::from_utf8(word) {
        Ok(text) => Name::new(alloc, text),
        Err(_) => unreachable!(),
    }
}

static KEYWORDS: [(&str, Keyword); 42] = [
    ("data", Keyword::Data),
    ("process", Keyword::Process),
    ("cluster", Keyword::Cluster),
    ("class", Keyword::Class),
    ("system", Keyword::System),
    ("extends", Keyword::Extends),
    ("ports", Keyword::Ports),
    ("messages", Keyword::Messages),
    ("variables", Keyword::Variables),
    ("init", Keyword::Init),
    ("methods", Keyword::Methods),
    ("instances", Keyword::Instances),
    ("channels", Keyword::Channels),
    ("skip", Keyword::Skip),
    ("delay", Keyword::Delay),
    ("par", Keyword::Par),
    ("and", Keyword::And),
    ("rap", Keyword::Rap),
    ("sel", Keyword::Sel),
    ("or", Keyword::Or),
    ("les", Keyword::Les),
    ("if", Keyword::If),
    ("then", Keyword::Then),
    ("else", Keyword::Else),
    ("fi", Keyword::Fi),
    ("while", Keyword::While),
    ("do", Keyword::Do),
    ("od", Keyword::Od),
    ("abort", Keyword::Abort),
    ("interrupt", Keyword::Interrupt),
    ("with", Keyword::With),
    ("new", Keyword::New),
    ("self", Keyword::Me),
    ("nil", Keyword::Nil),
    ("true", Keyword::True),
    ("false", Keyword::False),
    ("return", Keyword::Return),
    ("currentTime", Keyword::CurrentTime),
    ("super", Keyword::Super),
    ("native", Keyword::Native),
    ("import", Keyword::Import),
    ("importlib", Keyword::ImportLib),
];

/// The keyword that is spelled so.
fn keyword(word: &[u8]) -> Option<Keyword>
    ensures { result ≡ spelled keywords word.now }
{
    find(&KEYWORDS, word)
}
