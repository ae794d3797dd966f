// The plain calls that stand in statements.

ghost use Rattle.std.specs.Prelude.{◌≡◌, ◌++◌, map, OnOk};
ghost use Rattle.pz_syntax.specs.ExpressionView.{list_view};
ghost use Rattle.pz_syntax.specs.StatementView.{view, sequence_view, branches_of};
ghost use Rattle.pz_classes_beginnings.specs.Beginning as spec;
ghost use Rattle.pz_classes_beginnings.specs.Beginning.{if_plain, all_plain_calls, plain_calls_of_each};

use pz_syntax::pz_items::Items;
use pz_syntax::{Expr, Id, Stmt, StmtForm};
use std::alloc::AllocError;

/// Adds the call, if it has no arguments and no results.
pub(crate) fn add_call(
    out: &mut Items<Id>,
    method: &Id,
    args: &[Expr],
    results: &[Id],
) -> Result<(), AllocError>
    ensures { OnOk result (out.new ≡ out.old ++ if_plain method.now
        (list_view args.now) results.now) }
{
    match (args, results) {
        ([], []) => out.push(method.copy()?),
        _ => Ok(()),
    }
}

#[cycle(plain)]
fn add_plain_calls_of(out: &mut Items<Id>, statement: &Stmt) -> Result<(), AllocError>
    ensures { OnOk result (out.new ≡ out.old ++ spec.plain_calls (view statement.now)) }
{
    match &statement.form {
        StmtForm::Group(body) => add_plain_calls(out, body.as_slice()),
        StmtForm::Guard(_, body) => add_plain_calls_of(out, body.get()),
        StmtForm::Par(branches) => add_plain_calls_of_each(out, branches.as_slice()),
        StmtForm::Sel(branches) => add_plain_calls_of_each(out, branches.as_slice()),
        StmtForm::If(_, body, other) => {
            add_plain_calls(out, body.get().as_slice())?;
            match other {
                None => Ok(()),
                Some(other) => add_plain_calls(out, other.get().as_slice()),
            }
        }
        StmtForm::While(_, body) => add_plain_calls(out, body.as_slice()),
        StmtForm::Abort(first, second) => {
            add_plain_calls(out, first.as_slice())?;
            add_plain_calls_of(out, second.get())
        }
        StmtForm::Interrupt(first, second) => {
            add_plain_calls(out, first.as_slice())?;
            add_plain_calls_of(out, second.get())
        }
        StmtForm::Call {
            method,
            args,
            results,
        } => add_call(out, method.get(), args.as_slice(), results.get().as_slice()),
        StmtForm::Skip => Ok(()),
        StmtForm::Delay(_) => Ok(()),
        StmtForm::Block(_) => Ok(()),
        StmtForm::Send { .. } => Ok(()),
        StmtForm::Receive { .. } => Ok(()),
        StmtForm::Assign(_, _) => Ok(()),
        StmtForm::Value(_) => Ok(()),
    }
}

/// Adds the plain calls that stand in these statements at any depth, in the order of the text. The
/// only error is want of memory.
#[cycle(plain)]
pub fn add_plain_calls(out: &mut Items<Id>, statements: &[Stmt]) -> Result<(), AllocError>
    ensures { OnOk result (out.new ≡ out.old ++ all_plain_calls (sequence_view statements.now)) }
{
    for statement in statements {
        add_plain_calls_of(out, statement)?;
    }
    Ok(())
}

/// The same of the branches of a `par` or a `sel`.
#[cycle(plain)]
fn add_plain_calls_of_each(out: &mut Items<Id>, branches: &[Items<Stmt>]) -> Result<(), AllocError>
    ensures { OnOk result (out.new ≡ out.old ++ plain_calls_of_each
        (branches_of (map (map view) branches.now))) }
{
    for branch in branches {
        add_plain_calls(out, branch.as_slice())?;
    }
    Ok(())
}
