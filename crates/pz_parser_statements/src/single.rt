//! Statements in which no other statement stands.

ghost use Rattle.std.specs.Prelude.{◌≡◌, Ok};
ghost use Rattle.pz_syntax.specs.ExpressionView as expression;
ghost use Rattle.pz_syntax.specs.StatementView.{view};
ghost use Rattle.pz_parser_cursor.specs.devices.Device.{Reads};
ghost use Rattle.pz_parser_expressions.specs.declared.rule.Rule.TheVariants as rule;
ghost use Rattle.pz_parser_expressions.specs.devices.Values.{below};
ghost use Rattle.pz_parser_statements.specs.devices.Statements as spec;

use crate::messages::{receive, send};
use pz_parser_cursor::{Cursor, Next, Refusal};
use pz_parser_expressions::value;
use pz_syntax::pz_items::Boxed;
use pz_syntax::{Expr, Stmt, StmtForm};
use std::alloc::Global;

/// A `skip` stands next.
pub fn skip(cursor: &mut Cursor<'_>) -> Stmt
    ensures { spec.skipped cursor.old ≡ Ok (view result, cursor.new) }
{
    let pos = cursor.pos();
    cursor.skip();
    let form = StmtForm::Skip;
    Stmt { pos, form }
}

/// A `delay` stands next: the time is a value behind it.
#[tactic(auto, unfolding(crate::specs::devices::Statements::delayed))]
pub fn delay(alloc: Global, cursor: &mut Cursor<'_>, depth: usize) -> Result<Stmt, Refusal>
    ensures reads { Reads view (spec.delayed depth cursor.old) result cursor.new }
{
    let pos = cursor.pos();
    cursor.skip();
    let form = StmtForm::Delay(value(alloc, cursor, depth)?);
    Ok(Stmt { pos, form })
}

/// A `{` stands next.
#[tactic(auto, unfolding(crate::specs::devices::Statements::block))]
pub fn block(alloc: Global, cursor: &mut Cursor<'_>, depth: usize) -> Result<Stmt, Refusal>
    ensures reads { Reads view (spec.block depth cursor.old) result cursor.new }
{
    let pos = cursor.pos();
    let form = StmtForm::Block(pz_parser_expressions::block(alloc, cursor, depth)?);
    Ok(Stmt { pos, form })
}

/// What begins with an identifier: the token behind it tells what it is.
#[tactic(auto, unfolding(crate::specs::devices::Statements::worded))]
pub fn worded(alloc: Global, cursor: &mut Cursor<'_>, depth: usize) -> Result<Stmt, Refusal>
    ensures reads { Reads view (spec.worded depth cursor.old) result cursor.new }
{
    if cursor.sees_second(Next::Bang) {
        send(alloc, cursor, depth)
    } else if cursor.sees_second(Next::Query) {
        receive(alloc, cursor, depth)
    } else if cursor.sees_second(Next::Assign) {
        assign(alloc, cursor, depth)
    } else {
        valued(alloc, cursor, depth)
    }
}

#[tactic(auto, unfolding(crate::specs::devices::Statements::assigned))]
fn assign(alloc: Global, cursor: &mut Cursor<'_>, depth: usize) -> Result<Stmt, Refusal>
    ensures reads { Reads view (spec.assigned depth cursor.old) result cursor.new }
{
    let pos = cursor.pos();
    let name = Boxed::new(alloc, cursor.take_id(alloc)?)?;
    cursor.skip();
    let value = Boxed::new(alloc, value(alloc, cursor, depth)?)?;
    let form = StmtForm::Assign(name, value);
    Ok(Stmt { pos, form })
}

/// A value that is a statement.
#[tactic(auto, unfolding(crate::specs::devices::Statements::valued))]
pub fn valued(alloc: Global, cursor: &mut Cursor<'_>, depth: usize) -> Result<Stmt, Refusal>
    ensures reads { Reads view (spec.valued depth cursor.old) result cursor.new }
{
    let pos = cursor.pos();
    let form = StmtForm::Value(value(alloc, cursor, depth)?);
    Ok(Stmt { pos, form })
}

/// A value one construct further in.
pub fn inner_value(alloc: Global, cursor: &mut Cursor<'_>, depth: usize) -> Result<Expr, Refusal>
    ensures reads { Reads expression.view (below depth rule.Value cursor.old) result cursor.new }
{
    if depth == 0 {
        return Err(cursor.refuse());
    }
    value(alloc, cursor, depth - 1)
}
