ghost use Rattle.std.specs.Prelude.{◌≡◌, [], ◌∷◌, ◌++◌, map, OnOk};
ghost use Rattle.pz_syntax.specs.Marks.{mark, keyword, word, in_parentheses};
ghost use Rattle.pz_syntax.specs.ExpressionText.{literal_kind, text, texts, links_text, sendings_text, arguments_text};
ghost use Rattle.pz_syntax.specs.ExpressionView.{view, list_view, part_view, link_view, sending_view, links_of, sendings_of};

use super::marks::{put, put_keyword, put_selector, put_symbol, put_word};
use pz_syntax::pz_items::{Boxed, Items};
use pz_syntax::{Expr, ExprForm, Id, Keyword, Link, Literal, Mark, Sending, Symbol, TokenKind};
use std::alloc::AllocError;

pub(crate) fn put_literal(out: &mut Items<Mark>, literal: &Literal) -> Result<(), AllocError>
    ensures { OnOk result (out.new ≡ out.old ++ mark (literal_kind literal.now) ∷ []) }
{
    let kind = match literal {
        Literal::Int(n) => TokenKind::Int(*n),
        Literal::Float => TokenKind::Float,
        Literal::Char(c) => TokenKind::Char(*c),
        Literal::Str(bytes) => TokenKind::Str(bytes.copy()?),
        Literal::True => TokenKind::Key(Keyword::True),
        Literal::False => TokenKind::Key(Keyword::False),
        Literal::Nil => TokenKind::Key(Keyword::Nil),
    };
    put(out, kind)
}

fn put_creation(out: &mut Items<Mark>, class: &Id) -> Result<(), AllocError>
    ensures { OnOk result (out.new ≡ out.old ++ keyword Keyword.New ∷ in_parentheses
        (word class.now ∷ [])) }
{
    put_keyword(out, Keyword::New)?;
    put_symbol(out, Symbol::LeftParen)?;
    put_word(out, class)?;
    put_symbol(out, Symbol::RightParen)
}

#[cycle(put)]
pub(crate) fn put_expr(out: &mut Items<Mark>, e: &Expr) -> Result<(), AllocError>
    ensures { OnOk result (out.new ≡ out.old ++ text (view e.now)) }
{
    match &e.form {
        ExprForm::Lit(literal) => put_literal(out, literal),
        ExprForm::Var(name) => put(out, TokenKind::Ident(name.copy()?)),
        ExprForm::Me => put_keyword(out, Keyword::Me),
        ExprForm::Clock => put_keyword(out, Keyword::CurrentTime),
        ExprForm::New(class) => put_creation(out, class.get()),
        ExprForm::Group(es) => put_bracketed(out, Symbol::Semicolon, es.as_slice()),
        ExprForm::Chain(first, links) => {
            put_expr(out, first.get())?;
            put_links(out, links.get().as_slice())
        }
        ExprForm::Sends(receiver, sendings) => {
            put_expr(out, receiver.get())?;
            put_sendings(out, sendings.get().as_slice())
        }
        ExprForm::Unary(op, operand) => {
            put_symbol(out, *op)?;
            put_expr(out, operand.get())
        }
        ExprForm::Assign(variable, value) => {
            put_word(out, variable.get())?;
            put_symbol(out, Symbol::Assign)?;
            put_expr(out, value.get())
        }
        ExprForm::Return(value) => {
            put_keyword(out, Keyword::Return)?;
            put_expr(out, value.get())
        }
        ExprForm::If(test, body, other) => {
            put_test(out, Keyword::If, test.get(), Keyword::Then)?;
            match other.get() {
                None => put_body(out, body.get().as_slice(), Keyword::Fi),
                Some(other) => {
                    put_body(out, body.get().as_slice(), Keyword::Else)?;
                    put_body(out, other.as_slice(), Keyword::Fi)
                }
            }
        }
        ExprForm::While(test, body) => {
            put_test(out, Keyword::While, test.get(), Keyword::Do)?;
            put_body(out, body.get().as_slice(), Keyword::Od)
        }
    }
}

#[cycle(put)]
pub(crate) fn put_exprs(
    out: &mut Items<Mark>,
    separator: Symbol,
    es: &[Expr],
) -> Result<(), AllocError>
    ensures { OnOk result (out.new ≡ out.old ++ texts separator (list_view es.now)) }
{
    for (i, e) in es.iter().enumerate() {
        if i > 0 {
            put_symbol(out, separator)?;
        }
        put_expr(out, e)?;
    }
    Ok(())
}

#[cycle(put)]
pub(crate) fn put_bracketed(
    out: &mut Items<Mark>,
    separator: Symbol,
    es: &[Expr],
) -> Result<(), AllocError>
    ensures { OnOk result (out.new ≡ out.old ++ in_parentheses
        (texts separator (list_view es.now))) }
{
    put_symbol(out, Symbol::LeftParen)?;
    put_exprs(out, separator, es)?;
    put_symbol(out, Symbol::RightParen)
}

/// A test between two keywords.
#[cycle(put)]
pub(crate) fn put_test(
    out: &mut Items<Mark>,
    before: Keyword,
    test: &Expr,
    after: Keyword,
) -> Result<(), AllocError>
    ensures { OnOk result (out.new ≡ out.old ++ keyword before ∷
        (text (view test.now) ++ keyword after ∷ [])) }
{
    put_keyword(out, before)?;
    put_expr(out, test)?;
    put_keyword(out, after)
}

/// Expressions and the keyword behind them.
#[cycle(put)]
fn put_body(out: &mut Items<Mark>, es: &[Expr], after: Keyword) -> Result<(), AllocError>
    ensures { OnOk result (out.new ≡ out.old ++ texts Symbol.Semicolon (list_view es.now) ++ keyword
        after ∷ []) }
{
    put_exprs(out, Symbol::Semicolon, es)?;
    put_keyword(out, after)
}

#[cycle(put)]
fn put_links(out: &mut Items<Mark>, links: &[Link]) -> Result<(), AllocError>
    ensures { OnOk result (out.new ≡ out.old ++ links_text (links_of (map link_view links.now))) }
{
    for link in links {
        put_symbol(out, link.op)?;
        put_expr(out, &link.operand)?;
    }
    Ok(())
}

#[cycle(put)]
fn put_sendings(out: &mut Items<Mark>, sendings: &[Sending]) -> Result<(), AllocError>
    ensures { OnOk result (out.new ≡ out.old ++ sendings_text
        (sendings_of (map sending_view sendings.now))) }
{
    for sending in sendings {
        put_selector(out, &sending.selector)?;
        if let Some(args) = &sending.args {
            put_bracketed(out, Symbol::Comma, args.as_slice())?;
        }
    }
    Ok(())
}

/// Arguments in brackets, if they are written.
pub(crate) fn put_arguments(
    out: &mut Items<Mark>,
    args: &Option<Boxed<Items<Expr>>>,
) -> Result<(), AllocError>
    ensures { OnOk result (out.new ≡ out.old ++ arguments_text (part_view args.now)) }
{
    match args {
        None => Ok(()),
        Some(args) => put_bracketed(out, Symbol::Comma, args.get().as_slice()),
    }
}
