ghost use Rattle.std.specs.Prelude.{◌≡◌, [], ◌∷◌, ◌++◌, map, option_map, OnOk};
ghost use Rattle.pz_syntax.specs.Marks.{symbol, keyword, word, head, in_parentheses, names_text};
ghost use Rattle.pz_syntax.specs.ExpressionText.{arguments_text};
ghost use Rattle.pz_syntax.specs.ExpressionText as expression;
ghost use Rattle.pz_syntax.specs.ExpressionView.{list_view, part_view};
ghost use Rattle.pz_syntax.specs.ExpressionView as expression_view;
ghost use Rattle.pz_syntax.specs.StatementText.{block_text, after_text, condition_text, reception_text, text, texts, branches_text};
ghost use Rattle.pz_syntax.specs.StatementView.{view, sequence_view, sequence_of, branches_of};

use super::exprs::{put_arguments, put_bracketed, put_expr, put_exprs, put_test};
use super::marks::{put_head, put_keyword, put_separated, put_symbol, put_word};
use pz_syntax::pz_items::{Boxed, Items};
use pz_syntax::{Expr, Id, Keyword, Mark, Stmt, StmtForm, Symbol};
use std::alloc::AllocError;

#[cycle(put)]
fn put_stmt(out: &mut Items<Mark>, statement: &Stmt) -> Result<(), AllocError>
    ensures { OnOk result (out.new ≡ out.old ++ text (view statement.now)) }
{
    match &statement.form {
        StmtForm::Skip => put_keyword(out, Keyword::Skip),
        StmtForm::Delay(length) => {
            put_keyword(out, Keyword::Delay)?;
            put_expr(out, length)
        }
        StmtForm::Group(body) => put_group(out, body.as_slice()),
        StmtForm::Block(es) => put_block(out, es.as_slice()),
        StmtForm::Guard(test, body) => {
            put_guard(out, test.get())?;
            put_stmt(out, body.get())
        }
        StmtForm::Par(branches) => {
            put_closed(
                out,
                Keyword::Par,
                Keyword::And,
                Keyword::Rap,
                branches.as_slice(),
            )
        }
        StmtForm::Sel(branches) => {
            put_closed(
                out,
                Keyword::Sel,
                Keyword::Or,
                Keyword::Les,
                branches.as_slice(),
            )
        }
        StmtForm::If(test, body, other) => {
            put_test(out, Keyword::If, test.get(), Keyword::Then)?;
            match other {
                None => put_body(out, body.get().as_slice(), Keyword::Fi),
                Some(other) => {
                    put_body(out, body.get().as_slice(), Keyword::Else)?;
                    put_body(out, other.get().as_slice(), Keyword::Fi)
                }
            }
        }
        StmtForm::While(test, body) => {
            put_test(out, Keyword::While, test.get(), Keyword::Do)?;
            put_body(out, body.as_slice(), Keyword::Od)
        }
        StmtForm::Abort(body, other) => {
            put_first(out, Keyword::Abort, body.as_slice())?;
            put_stmt(out, other.get())
        }
        StmtForm::Interrupt(body, handler) => {
            put_first(out, Keyword::Interrupt, body.as_slice())?;
            put_stmt(out, handler.get())
        }
        StmtForm::Send {
            port,
            name,
            args,
            block,
        } => put_send(out, port.get(), name.get(), args, block.get()),
        StmtForm::Receive {
            port,
            name,
            into,
            condition,
            block,
        } => put_receive(
            out,
            port.get(),
            name.get(),
            into.get(),
            condition.get(),
            block.get(),
        ),
        StmtForm::Call {
            method,
            args,
            results,
        } => put_call(out, method.get(), args.as_slice(), results.get()),
        StmtForm::Assign(variable, value) => put_assignment(out, variable.get(), value.get()),
        StmtForm::Value(e) => put_expr(out, e),
    }
}

#[cycle(put)]
pub(crate) fn put_stmts(out: &mut Items<Mark>, statements: &[Stmt]) -> Result<(), AllocError>
    ensures { OnOk result (out.new ≡ out.old ++ texts (sequence_view statements.now)) }
{
    for (i, statement) in statements.iter().enumerate() {
        if i > 0 {
            put_symbol(out, Symbol::Semicolon)?;
        }
        put_stmt(out, statement)?;
    }
    Ok(())
}

#[cycle(put)]
fn put_group(out: &mut Items<Mark>, body: &[Stmt]) -> Result<(), AllocError>
    ensures { OnOk result (out.new ≡ out.old ++ in_parentheses (texts (sequence_view body.now))) }
{
    put_symbol(out, Symbol::LeftParen)?;
    put_stmts(out, body)?;
    put_symbol(out, Symbol::RightParen)
}

/// Statements and the keyword behind them.
#[cycle(put)]
fn put_body(out: &mut Items<Mark>, body: &[Stmt], after: Keyword) -> Result<(), AllocError>
    ensures { OnOk result (out.new ≡ out.old ++ texts (sequence_view body.now) ++ keyword after ∷
        []) }
{
    put_stmts(out, body)?;
    put_keyword(out, after)
}

/// Branches between the keywords of `par` or of `sel`.
#[cycle(put)]
fn put_closed(
    out: &mut Items<Mark>,
    begin: Keyword,
    separator: Keyword,
    end: Keyword,
    branches: &[Items<Stmt>],
) -> Result<(), AllocError>
    ensures { OnOk result (out.new ≡ out.old ++ keyword begin ∷ (branches_text separator
        (branches_of (map (map view) branches.now)) ++ keyword end ∷ [])) }
{
    put_keyword(out, begin)?;
    put_branches(out, separator, branches)?;
    put_keyword(out, end)
}

/// What `par` and `sel` have between their keywords.
#[cycle(put)]
fn put_branches(
    out: &mut Items<Mark>,
    separator: Keyword,
    branches: &[Items<Stmt>],
) -> Result<(), AllocError>
    ensures { OnOk result (out.new ≡ out.old ++ branches_text separator
        (branches_of (map (map view) branches.now))) }
{
    for (i, branch) in branches.iter().enumerate() {
        if i > 0 {
            put_keyword(out, separator)?;
        }
        put_stmts(out, branch.as_slice())?;
    }
    Ok(())
}

/// What `abort` and `interrupt` have before the second statement.
#[cycle(put)]
fn put_first(out: &mut Items<Mark>, begin: Keyword, body: &[Stmt]) -> Result<(), AllocError>
    ensures { OnOk result (out.new ≡ out.old ++ keyword begin ∷
        (texts (sequence_view body.now) ++ keyword Keyword.With ∷ [])) }
{
    put_keyword(out, begin)?;
    put_body(out, body, Keyword::With)
}

fn put_block(out: &mut Items<Mark>, es: &[Expr]) -> Result<(), AllocError>
    ensures { OnOk result (out.new ≡ out.old ++ block_text (list_view es.now)) }
{
    put_symbol(out, Symbol::LeftBrace)?;
    put_exprs(out, Symbol::Semicolon, es)?;
    put_symbol(out, Symbol::RightBrace)
}

fn put_guard(out: &mut Items<Mark>, test: &Expr) -> Result<(), AllocError>
    ensures { OnOk result (out.new ≡ out.old ++ symbol Symbol.LeftBracket ∷
        (expression.text (expression_view.view test.now) ++ symbol Symbol.RightBracket ∷ [])) }
{
    put_symbol(out, Symbol::LeftBracket)?;
    put_expr(out, test)?;
    put_symbol(out, Symbol::RightBracket)
}

fn put_assignment(out: &mut Items<Mark>, variable: &Id, value: &Expr) -> Result<(), AllocError>
    ensures { OnOk result (out.new ≡ out.old ++ word variable.now ∷ symbol Symbol.Assign
        ∷ expression.text (expression_view.view value.now)) }
{
    put_word(out, variable)?;
    put_symbol(out, Symbol::Assign)?;
    put_expr(out, value)
}

/// The block behind a message, if it is written.
fn put_after(out: &mut Items<Mark>, block: &Option<Boxed<Items<Expr>>>) -> Result<(), AllocError>
    ensures { OnOk result (out.new ≡ out.old ++ after_text (part_view block.now)) }
{
    match block {
        None => Ok(()),
        Some(es) => put_block(out, es.get().as_slice()),
    }
}

fn put_send(
    out: &mut Items<Mark>,
    port: &Id,
    name: &Id,
    args: &Option<Boxed<Items<Expr>>>,
    block: &Option<Boxed<Items<Expr>>>,
) -> Result<(), AllocError>
    ensures { OnOk result (out.new ≡ out.old ++ word port.now ∷ symbol Symbol.Bang ∷ word name.now ∷
        (arguments_text (part_view args.now) ++ after_text (part_view block.now))) }
{
    put_word(out, port)?;
    put_symbol(out, Symbol::Bang)?;
    put_word(out, name)?;
    put_arguments(out, args)?;
    put_after(out, block)
}

fn put_receive(
    out: &mut Items<Mark>,
    port: &Id,
    name: &Id,
    into: &Option<Boxed<Items<Id>>>,
    condition: &Option<Boxed<Expr>>,
    block: &Option<Boxed<Items<Expr>>>,
) -> Result<(), AllocError>
    ensures { OnOk result (out.new ≡ out.old ++ word port.now ∷ symbol Symbol.Query ∷ word name.now
        ∷ (reception_text into.now (option_map expression_view.view condition.now) ++ after_text
        (part_view block.now))) }
{
    put_word(out, port)?;
    put_symbol(out, Symbol::Query)?;
    put_word(out, name)?;
    if let Some(into) = into {
        put_reception(out, into.get(), condition)?;
    }
    put_after(out, block)
}

fn put_reception(
    out: &mut Items<Mark>,
    into: &Items<Id>,
    condition: &Option<Boxed<Expr>>,
) -> Result<(), AllocError>
    ensures { OnOk result (out.new ≡ out.old ++ in_parentheses
        (names_text into.now ++ condition_text (option_map expression_view.view condition.now))) }
{
    put_symbol(out, Symbol::LeftParen)?;
    put_separated(out, Symbol::Comma, into.as_slice())?;
    if let Some(condition) = condition {
        put_symbol(out, Symbol::Bar)?;
        put_expr(out, condition.get())?;
    }
    put_symbol(out, Symbol::RightParen)
}

fn put_call(
    out: &mut Items<Mark>,
    method: &Id,
    args: &[Expr],
    results: &Items<Id>,
) -> Result<(), AllocError>
    ensures { OnOk result (out.new ≡ out.old ++ head method.now ∷
        (in_parentheses (expression.texts Symbol.Comma (list_view args.now)) ++ in_parentheses
        (names_text results.now))) }
{
    put_head(out, method)?;
    put_bracketed(out, Symbol::Comma, args)?;
    put_symbol(out, Symbol::LeftParen)?;
    put_separated(out, Symbol::Comma, results.as_slice())?;
    put_symbol(out, Symbol::RightParen)
}
