//! Sends, receptions and calls.

ghost use Rattle.std.specs.Prelude.{◌≡◌, IfOk, map, option_map};
ghost use Rattle.pz_syntax.specs.ExpressionView.{part_view};
ghost use Rattle.pz_syntax.specs.ExpressionView as expression;
ghost use Rattle.pz_syntax.specs.StatementView.{view};
ghost use Rattle.pz_parser_cursor.specs.devices.Device.{Reads};
ghost use Rattle.pz_parser_statements.specs.devices.Messages as spec;
ghost use Rattle.pz_parser_statements.specs.devices.Views.{reception_view};

use crate::kept::up_to;
use crate::single::inner_value;
use pz_parser_cursor::{Cursor, Next, Refusal, optional_names};
use pz_parser_expressions::{arguments, block, optional_arguments};
use pz_syntax::pz_items::{Boxed, Items, both};
use pz_syntax::{Expr, Id, Stmt, StmtForm};
use std::alloc::{AllocError, Global};

/// The variables and the condition of a reception. A condition is there only where brackets are.
#[derive(Drop)]
pub struct Reception {
    pub into: Boxed<Option<Boxed<Items<Id>>>>,
    pub condition: Boxed<Option<Boxed<Expr>>>,
}

/// A `!` stands behind the next token.
#[tactic(auto, unfolding(crate::specs::devices::Messages::sent))]
pub fn send(alloc: Global, cursor: &mut Cursor<'_>, depth: usize) -> Result<Stmt, Refusal>
    ensures reads { Reads view (spec.sent depth cursor.old) result cursor.new }
{
    let pos = cursor.pos();
    let port = Boxed::new(alloc, cursor.take_id(alloc)?)?;
    cursor.skip();
    let name = Boxed::new(alloc, cursor.expect_id(alloc, Next::Word)?)?;
    let args = optional_arguments(alloc, cursor, depth)?;
    let block = Boxed::new(alloc, optional_block(alloc, cursor, depth)?)?;
    let form = StmtForm::Send {
        port,
        name,
        args,
        block,
    };
    Ok(Stmt { pos, form })
}

/// A `?` stands behind the next token.
#[tactic(auto, unfolding(crate::specs::devices::Messages::received))]
pub fn receive(alloc: Global, cursor: &mut Cursor<'_>, depth: usize) -> Result<Stmt, Refusal>
    ensures reads { Reads view (spec.received depth cursor.old) result cursor.new }
{
    let pos = cursor.pos();
    let port = Boxed::new(alloc, cursor.take_id(alloc)?)?;
    cursor.skip();
    let name = Boxed::new(alloc, cursor.expect_id(alloc, Next::Word)?)?;
    let reception = optional_reception(alloc, cursor, depth)?;
    let (reception, block) = with_block(alloc, cursor, depth, reception)?;
    let Reception { into, condition } = reception;
    let form = StmtForm::Receive {
        port,
        name,
        into,
        condition,
        block,
    };
    Ok(Stmt { pos, form })
}

/// The next token is the name of the method.
#[tactic(auto, unfolding(crate::specs::devices::Messages::called))]
pub fn call(alloc: Global, cursor: &mut Cursor<'_>, depth: usize) -> Result<Stmt, Refusal>
    ensures reads { Reads view (spec.called depth cursor.old) result cursor.new }
{
    let pos = cursor.pos();
    let method = Boxed::new(alloc, cursor.take_id(alloc)?)?;
    let args = call_arguments(alloc, cursor, depth)?;
    let results = Boxed::new(alloc, call_results(alloc, cursor)?)?;
    let form = StmtForm::Call {
        method,
        args,
        results,
    };
    Ok(Stmt { pos, form })
}

#[tactic(auto, unfolding(crate::specs::devices::Messages::call_arguments))]
fn call_arguments(
    alloc: Global,
    cursor: &mut Cursor<'_>,
    depth: usize,
) -> Result<Items<Expr>, Refusal>
    ensures reads { Reads (map expression.view) (spec.call_arguments depth cursor.old) result
        cursor.new }
{
    if !cursor.sees(Next::LeftParen) {
        return Err(cursor.refuse());
    }
    arguments(alloc, cursor, depth)
}

/// Names in brackets.
#[tactic(auto, unfolding(crate::specs::devices::Messages::call_results))]
fn call_results(alloc: Global, cursor: &mut Cursor<'_>) -> Result<Items<Id>, Refusal>
    ensures reads { Reads (λ x. x) (spec.call_results cursor.old) result cursor.new }
{
    cursor.expect(Next::LeftParen)?;
    let names = optional_names(alloc, cursor)?;
    cursor.expect(Next::RightParen)?;
    Ok(names)
}

/// The block behind a message, if a `{` stands next.
#[tactic(auto, unfolding(crate::specs::devices::Messages::after_message))]
fn optional_block(
    alloc: Global,
    cursor: &mut Cursor<'_>,
    depth: usize,
) -> Result<Option<Boxed<Items<Expr>>>, Refusal>
    ensures reads { Reads part_view (spec.after_message depth cursor.old) result cursor.new }
{
    match cursor.peek() {
        Next::LeftBrace => Ok(Some(Boxed::new(alloc, block(alloc, cursor, depth)?)?)),
        _ => Ok(None),
    }
}

/// The value, and the block behind the message, where there is one.
fn with_block<T: Drop>(
    alloc: Global,
    cursor: &mut Cursor<'_>,
    depth: usize,
    value: T,
) -> Result<(T, Boxed<Option<Boxed<Items<Expr>>>>), Refusal>
    ensures kept { IfOk result (λ read. read.0 ≡ value) }
    ensures reads { Reads (λ read. part_view read.1)
        (spec.after_message depth cursor.old) result cursor.new }
{
    let block = Boxed::new(alloc, optional_block(alloc, cursor, depth)?)?;
    Ok((value, block))
}

/// The variables and the condition, if a `(` stands next.
#[tactic(auto, unfolding(crate::specs::devices::Messages::reception))]
fn optional_reception(
    alloc: Global,
    cursor: &mut Cursor<'_>,
    depth: usize,
) -> Result<Reception, Refusal>
    ensures reads { Reads reception_view (spec.reception depth cursor.old) result cursor.new }
{
    match cursor.peek() {
        Next::LeftParen => enclosed_reception(alloc, cursor, depth),
        _ => Ok(boxed_reception(alloc, None, None)?),
    }
}

/// These variables and this condition, in boxes.
fn boxed_reception(
    alloc: Global,
    into: Option<Boxed<Items<Id>>>,
    condition: Option<Boxed<Expr>>,
) -> Result<Reception, AllocError>
    ensures { IfOk result (λ r. (r.into ≡ into) × (r.condition ≡ condition)) }
{
    let (into, condition) = both(Boxed::new(alloc, into), Boxed::new(alloc, condition))?;
    Ok(Reception { into, condition })
}

/// A `(` stands next.
#[tactic(auto, unfolding(crate::specs::devices::Messages::enclosed_reception))]
fn enclosed_reception(
    alloc: Global,
    cursor: &mut Cursor<'_>,
    depth: usize,
) -> Result<Reception, Refusal>
    ensures reads { Reads reception_view (spec.enclosed_reception depth cursor.old) result
        cursor.new }
{
    cursor.deepen(depth)?;
    let names = optional_names(alloc, cursor)?;
    let condition = condition(alloc, cursor, depth)?;
    let condition = up_to(cursor, condition, Next::RightParen)?;
    let (names, condition) = both(Boxed::new(alloc, names), Boxed::of_option(alloc, condition))?;
    Ok(boxed_reception(alloc, Some(names), condition)?)
}

/// The condition of a reception, if a `|` stands next.
#[tactic(auto, unfolding(crate::specs::devices::Messages::condition))]
fn condition(alloc: Global, cursor: &mut Cursor<'_>, depth: usize) -> Result<Option<Expr>, Refusal>
    ensures reads { Reads (option_map expression.view)
        (spec.condition depth cursor.old) result cursor.new }
{
    if !cursor.sees(Next::Bar) {
        return Ok(None);
    }
    cursor.skip();
    Ok(Some(inner_value(alloc, cursor, depth)?))
}
