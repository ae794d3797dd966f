//! How keywords and symbols are spelled.

ghost use Rattle.std.specs.Prelude.{◌≡◌};
ghost use Rattle.pz_format.specs.Spellings as spellings;

use pz_syntax::{Keyword, Symbol};

pub fn keyword_text(keyword: Keyword) -> &'static str
    ensures { result.now ≡ spellings.keyword_text keyword }
{
    match keyword {
        Keyword::Data => "data",
        Keyword::Process => "process",
        Keyword::Cluster => "cluster",
        Keyword::Class => "class",
        Keyword::System => "system",
        Keyword::Extends => "extends",
        Keyword::Ports => "ports",
        Keyword::Messages => "messages",
        Keyword::Variables => "variables",
        Keyword::Init => "init",
        Keyword::Methods => "methods",
        Keyword::Instances => "instances",
        Keyword::Channels => "channels",
        Keyword::Skip => "skip",
        Keyword::Delay => "delay",
        Keyword::Par => "par",
        Keyword::And => "and",
        Keyword::Rap => "rap",
        Keyword::Sel => "sel",
        Keyword::Or => "or",
        Keyword::Les => "les",
        Keyword::If => "if",
        Keyword::Then => "then",
        Keyword::Else => "else",
        Keyword::Fi => "fi",
        Keyword::While => "while",
        Keyword::Do => "do",
        Keyword::Od => "od",
        Keyword::Abort => "abort",
        Keyword::Interrupt => "interrupt",
        Keyword::With => "with",
        Keyword::New => "new",
        Keyword::Me => "self",
        Keyword::Nil => "nil",
        Keyword::True => "true",
        Keyword::False => "false",
        Keyword::Return => "return",
        Keyword::CurrentTime => "currentTime",
        Keyword::Super => "super",
        Keyword::Native => "native",
        Keyword::Import => "import",
        Keyword::ImportLib => "importlib",
    }
}

pub fn symbol_text(symbol: Symbol) -> &'static str
    ensures { result.now ≡ spellings.symbol_text symbol }
{
    match symbol {
        Symbol::LeftParen => "(",
        Symbol::RightParen => ")",
        Symbol::LeftBrace => "{",
        Symbol::RightBrace => "}",
        Symbol::LeftBracket => "[",
        Symbol::RightBracket => "]",
        Symbol::Comma => ",",
        Symbol::Semicolon => ";",
        Symbol::Colon => ":",
        Symbol::Assign => ":=",
        Symbol::Bang => "!",
        Symbol::Query => "?",
        Symbol::Bar => "|",
        Symbol::Dot => ".",
        Symbol::Plus => "+",
        Symbol::Minus => "-",
        Symbol::Star => "*",
        Symbol::Slash => "/",
        Symbol::Equal => "=",
        Symbol::Same => "==",
        Symbol::Unequal => "!=",
        Symbol::Distinct => "!==",
        Symbol::Less => "<",
        Symbol::LessEqual => "<=",
        Symbol::Greater => ">",
        Symbol::GreaterEqual => ">=",
        Symbol::Ampersand => "&",
    }
}
