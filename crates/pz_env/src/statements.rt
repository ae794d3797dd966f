// The statements of an environment: two for each line of its script, both at the line.

ghost use Rattle.std.specs.Prelude.{◌≡◌, None, replicate, IfOk};
ghost use Rattle.pz_syntax.specs.Expressions as expression;
ghost use Rattle.pz_syntax.specs.Expressions.{left_out};
ghost use Rattle.pz_syntax.specs.Statements.{delay, send, receive};
ghost use Rattle.pz_syntax.specs.ExpressionView.{view, list_view, part_view};
ghost use Rattle.pz_syntax.specs.StatementView as statement;
ghost use Rattle.pz_syntax.specs.declared.exprs.Literal.TheVariants as literal;
ghost use Rattle.pz_env_tree.specs.Names.{variable_name};
ghost use Rattle.pz_env_tree.specs.EnvironmentClass.{literal_of, literals, arguments, unless_none};
ghost use Rattle.pz_env.specs.devices.Making.{exchange_at, id_at};

use crate::names::{VARIABLE, id_list, id_of};
use pz_classes_code::pz_value::Value;
use pz_env_tree::pz_env_script::Transfer;
use pz_syntax::pz_items::{Boxed, Items, Shared, both};
use pz_syntax::{Expr, ExprForm, Id, Literal, Name, Pos, Stmt, StmtForm};
use std::alloc::{AllocError, Global};

/// The constant that stands for a value of a script. The only error is want of memory.
fn literal_of(alloc: Global, value: &Value) -> Result<Literal, AllocError>
    ensures { IfOk result (λ l. l ≡ literal_of value.now) }
{
    Ok(match value {
        Value::Nil | Value::Ref(_) => Literal::Nil,
        Value::Bool(true) => Literal::True,
        Value::Bool(false) => Literal::False,
        Value::Int(n) => Literal::Int(*n),
        Value::Char(b) => Literal::Char(*b),
        Value::Str(text) => Literal::Str(Shared::new(alloc, text.copy()?)?),
    })
}

/// A constant as an expression at this place.
fn constant(at: Pos, literal: Literal) -> Expr
    ensures { view result ≡ expression.literal at literal }
{
    Expr {
        pos: at,
        form: ExprForm::Lit(literal),
    }
}

/// The constants for these values, all at one place. The only error is want of memory.
fn constants(alloc: Global, at: Pos, values: &[Value]) -> Result<Items<Expr>, AllocError>
    ensures { IfOk result (λ es. list_view es ≡ literals at values.now) }
{
    let mut list = Items::new(alloc);
    for value in values {
        list.push(constant(at, literal_of(alloc, value)?))?;
    }
    Ok(list)
}

/// The arguments of a send; none are written where there are none. The only error is want of memory.
fn arguments(
    alloc: Global,
    at: Pos,
    values: &[Value],
) -> Result<Option<Boxed<Items<Expr>>>, AllocError>
    ensures { IfOk result (λ part. part_view part ≡ arguments at values.now) }
{
    if values.is_empty() {
        Ok(None)
    } else {
        Ok(Some(Boxed::new(alloc, constants(alloc, at, values)?)?))
    }
}

/// What a line sends over this port. The only error is want of memory.
fn send(
    alloc: Global,
    at: Pos,
    port: Id,
    message: &Name,
    values: &[Value],
) -> Result<Stmt, AllocError>
    ensures { IfOk result (λ s. statement.view s ≡ send at port (id_at message.now at)
        (arguments at values.now) left_out) }
{
    let args = arguments(alloc, at, values)?;
    let port = Boxed::new(alloc, port)?;
    let name = Boxed::new(alloc, id_of(message, at)?)?;
    let block = Boxed::new(alloc, None)?;
    Ok(Stmt {
        pos: at,
        form: StmtForm::Send {
            port,
            name,
            args,
            block,
        },
    })
}

/// What a line receives over this port. All of it goes into the one variable. The only error is want of
/// memory.
fn receive(alloc: Global, at: Pos, port: Id, message: &Name, count: u32) -> Result<Stmt, AllocError>
    ensures { IfOk result (λ s. statement.view s ≡ receive at port (id_at message.now at)
        (unless_none (replicate count (id_at variable_name at))) None left_out) }
{
    let into = Boxed::of_option(alloc, id_list(alloc, VARIABLE, at, count as usize)?);
    let into = Boxed::of_result(alloc, into)?;
    let port = Boxed::new(alloc, port)?;
    let name = Boxed::new(alloc, id_of(message, at)?)?;
    let (condition, block) = both(Boxed::new(alloc, None), Boxed::new(alloc, None))?;
    Ok(Stmt {
        pos: at,
        form: StmtForm::Receive {
            port,
            name,
            into,
            condition,
            block,
        },
    })
}

/// What a line sends or receives over this port, as a statement. The only error is want of memory.
pub(crate) fn exchange(
    alloc: Global,
    at: Pos,
    port: Id,
    message: &Name,
    transfer: &Transfer,
) -> Result<Stmt, AllocError>
    ensures { IfOk result (λ s. statement.view s ≡ exchange_at at port message.now
        transfer.now) }
{
    match transfer {
        Transfer::Send(values) => send(alloc, at, port, message, values.as_slice()),
        Transfer::Receive(count) => receive(alloc, at, port, message, *count),
    }
}

/// The wait before it.
pub(crate) fn waiting(at: Pos, wait: i64) -> Stmt
    ensures { statement.view result ≡ delay at (expression.literal at (literal.Int wait)) }
{
    Stmt {
        pos: at,
        form: StmtForm::Delay(constant(at, Literal::Int(wait))),
    }
}
