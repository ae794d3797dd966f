ghost use Rattle.std.specs.Prelude.{◌≡◌, List, [], ◌∷◌, ◌++◌, Option, OnOk, IfOk};
ghost use Rattle.pz_syntax.specs.Marks;
ghost use Rattle.pz_syntax.specs.declared.tokens.Mark.{Mark};
ghost use Rattle.pz_syntax.specs.Marks.{mark, symbol, keyword, word, head, selector, selector_head, separated, each_text, section, word_text};

use pz_syntax::pz_items::Items;
use pz_syntax::{Id, Keyword, Mark, Symbol, TokenKind};
use std::alloc::AllocError;

/// What has a text.
pub(crate) trait Print {
    ghost text_of: { Self → List Mark };

    /// Adds the tokens. The only error is want of memory.
    fn print(&self, out: &mut Items<Mark>) -> Result<(), AllocError>
        ensures { OnOk result (out.new ≡ out.old ++ text_of self.now) };
}

impl Print for Id {
    ghost text_of = { word_text };

    fn print(&self, out: &mut Items<Mark>) -> Result<(), AllocError> {
        put_word(out, self)
    }
}

/// Adds a token that is no head.
pub(crate) fn put(out: &mut Items<Mark>, kind: TokenKind) -> Result<(), AllocError>
    ensures { OnOk result (out.new ≡ out.old ++ mark kind ∷ []) }
{
    out.push(Mark { kind, head: false })
}

pub(crate) fn put_symbol(out: &mut Items<Mark>, x: Symbol) -> Result<(), AllocError>
    ensures { OnOk result (out.new ≡ out.old ++ symbol x ∷ []) }
{
    put(out, TokenKind::Sym(x))
}

pub(crate) fn put_keyword(out: &mut Items<Mark>, x: Keyword) -> Result<(), AllocError>
    ensures { OnOk result (out.new ≡ out.old ++ keyword x ∷ []) }
{
    put(out, TokenKind::Key(x))
}

pub(crate) fn put_word(out: &mut Items<Mark>, x: &Id) -> Result<(), AllocError>
    ensures { OnOk result (out.new ≡ out.old ++ word x.now ∷ []) }
{
    put(out, TokenKind::Ident(x.name.copy()?))
}

pub(crate) fn put_head(out: &mut Items<Mark>, x: &Id) -> Result<(), AllocError>
    ensures { OnOk result (out.new ≡ out.old ++ head x.now ∷ []) }
{
    let kind = TokenKind::Ident(x.name.copy()?);
    out.push(Mark { kind, head: true })
}

/// An identifier, or `init` for the name that is spelled so.
fn selector_kind(x: &Id) -> Result<TokenKind, AllocError>
    ensures { IfOk result (λ kind. kind ≡ Marks.selector_kind x.now) }
{
    if x.name.as_str() == "init" {
        Ok(TokenKind::Key(Keyword::Init))
    } else {
        Ok(TokenKind::Ident(x.name.copy()?))
    }
}

/// A selector that is sent.
pub(crate) fn put_selector(out: &mut Items<Mark>, x: &Id) -> Result<(), AllocError>
    ensures { OnOk result (out.new ≡ out.old ++ selector x.now ∷ []) }
{
    put(out, selector_kind(x)?)
}

/// A selector that names a method.
pub(crate) fn put_selector_head(out: &mut Items<Mark>, x: &Id) -> Result<(), AllocError>
    ensures { OnOk result (out.new ≡ out.old ++ selector_head x.now ∷ []) }
{
    let kind = selector_kind(x)?;
    out.push(Mark { kind, head: true })
}

/// With the separator between them.
pub(crate) fn put_separated<T: Print>(
    out: &mut Items<Mark>,
    separator: Symbol,
    parts: &[T],
) -> Result<(), AllocError>
    ensures { OnOk result (out.new ≡ out.old ++ separated T.text_of separator parts.now) }
{
    for (i, part) in parts.iter().enumerate() {
        if i > 0 {
            put_symbol(out, separator)?;
        }
        part.print(out)?;
    }
    Ok(())
}

/// One after the other.
pub(crate) fn put_each<T: Print>(out: &mut Items<Mark>, parts: &[T]) -> Result<(), AllocError>
    ensures { OnOk result (out.new ≡ out.old ++ each_text T.text_of parts.now) }
{
    for part in parts {
        part.print(out)?;
    }
    Ok(())
}

/// A keyword and what stands behind it, if it is written.
pub(crate) fn put_section<T: Print>(
    out: &mut Items<Mark>,
    begin: Keyword,
    content: &Option<T>,
) -> Result<(), AllocError>
    ensures { OnOk result (out.new ≡ out.old ++ section begin T.text_of content.now) }
{
    if let Some(content) = content {
        put_keyword(out, begin)?;
        content.print(out)?;
    }
    Ok(())
}

/// A keyword and parts one after the other, if it is written.
pub(crate) fn put_section_of_each<T: Print>(
    out: &mut Items<Mark>,
    begin: Keyword,
    parts: &Option<Items<T>>,
) -> Result<(), AllocError>
    ensures { OnOk result (out.new ≡ out.old ++ section begin (each_text T.text_of) parts.now) }
{
    if let Some(parts) = parts {
        put_keyword(out, begin)?;
        put_each(out, parts.as_slice())?;
    }
    Ok(())
}

/// A keyword and parts with a comma between them, if it is written.
pub(crate) fn put_section_of_list<T: Print>(
    out: &mut Items<Mark>,
    begin: Keyword,
    parts: &Option<Items<T>>,
) -> Result<(), AllocError>
    ensures { OnOk result (out.new ≡ out.old ++ section begin (separated T.text_of Symbol.Comma)
        parts.now) }
{
    if let Some(parts) = parts {
        put_keyword(out, begin)?;
        put_separated(out, Symbol::Comma, parts.as_slice())?;
    }
    Ok(())
}
