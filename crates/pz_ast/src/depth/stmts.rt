ghost use Rattle.std.specs.Prelude.{◌≡◌, suc, max, ◌<◌, ◌^◌, map, option_map};
ghost use Rattle.pz_syntax.specs.ExpressionNesting.{bracketed_nesting};
ghost use Rattle.pz_syntax.specs.ExpressionView.{part_view};
ghost use Rattle.pz_syntax.specs.ExpressionView as expression_view;
ghost use Rattle.pz_syntax.specs.StatementView.{view, sequence_view, branches_of};
ghost use Rattle.pz_syntax.specs.StatementNesting.{reception_nesting, nesting, nestings, branches_nesting};

use super::exprs::{bracketed_nesting, expr_nesting, exprs_nesting};
use pz_syntax::pz_items::{Boxed, Items};
use pz_syntax::{Expr, Id, Stmt, StmtForm};

#[cycle(nest)]
fn stmt_nesting(statement: &Stmt) -> u32
    requires { nesting (view statement.now) < 2 ^ 32 }
    ensures { result ≡ nesting (view statement.now) }
{
    match &statement.form {
        StmtForm::Skip => 0,
        StmtForm::Delay(length) => expr_nesting(length),
        StmtForm::Group(body) => 1 + stmts_nesting(body.as_slice()),
        StmtForm::Block(es) => 1 + exprs_nesting(es.as_slice()),
        StmtForm::Guard(test, body) => 1 + expr_nesting(test.get()).max(stmt_nesting(body.get())),
        StmtForm::Par(branches) => 1 + branches_nesting(branches.as_slice()),
        StmtForm::Sel(branches) => 1 + branches_nesting(branches.as_slice()),
        StmtForm::If(test, body, other) => {
            let test = expr_nesting(test.get());
            let body = stmts_nesting(body.get().as_slice());
            match other {
                None => 1 + test.max(body),
                Some(other) => 1 + test.max(body.max(stmts_nesting(other.get().as_slice()))),
            }
        }
        StmtForm::While(test, body) => 1
            + expr_nesting(test.get()).max(stmts_nesting(body.as_slice())),
        StmtForm::Abort(body, other) => {
            1 + stmts_nesting(body.as_slice()).max(stmt_nesting(other.get()))
        }
        StmtForm::Interrupt(body, handler) => {
            1 + stmts_nesting(body.as_slice()).max(stmt_nesting(handler.get()))
        }
        StmtForm::Send { args, block, .. } => {
            bracketed_nesting(args).max(bracketed_nesting(block.get()))
        }
        StmtForm::Receive {
            into,
            condition,
            block,
            ..
        } => reception_nesting(into.get(), condition.get()).max(bracketed_nesting(block.get())),
        StmtForm::Call { args, .. } => 1 + exprs_nesting(args.as_slice()),
        StmtForm::Assign(_, value) => expr_nesting(value.get()),
        StmtForm::Value(e) => expr_nesting(e),
    }
}

#[cycle(nest)]
pub(crate) fn stmts_nesting(statements: &[Stmt]) -> u32
    requires { nestings (sequence_view statements.now) < 2 ^ 32 }
    ensures { result ≡ nestings (sequence_view statements.now) }
{
    let mut deepest = 0;
    for statement in statements {
        deepest = deepest.max(stmt_nesting(statement));
    }
    deepest
}

#[cycle(nest)]
fn branches_nesting(branches: &[Items<Stmt>]) -> u32
    requires { branches_nesting (branches_of (map (map view) branches.now)) < 2 ^ 32 }
    ensures { result ≡ branches_nesting (branches_of (map (map view) branches.now)) }
{
    let mut deepest = 0;
    for branch in branches {
        deepest = deepest.max(stmts_nesting(branch.as_slice()));
    }
    deepest
}

/// Of the variables and the condition of a reception in brackets, if these are written.
fn reception_nesting(into: &Option<Boxed<Items<Id>>>, condition: &Option<Boxed<Expr>>) -> u32
    requires { reception_nesting into.now (option_map expression_view.view condition.now) < 2 ^ 32 }
    ensures { result ≡ reception_nesting into.now (option_map expression_view.view condition.now) }
{
    match (into, condition) {
        (None, _) => 0,
        (Some(_), None) => 1,
        (Some(_), Some(condition)) => 1 + expr_nesting(condition.get()),
    }
}
