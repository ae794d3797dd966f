// The plain calls with which statements begin.

ghost use Rattle.std.specs.Prelude.{◌≡◌, ◌++◌, map, OnOk};
ghost use Rattle.pz_syntax.specs.StatementView.{view, sequence_view, branches_of};
ghost use Rattle.pz_classes_beginnings.specs.Beginning.{begun, begun_all, begun_each};

use crate::plain::add_call;
use pz_syntax::pz_items::Items;
use pz_syntax::{Id, Stmt, StmtForm};
use std::alloc::AllocError;

#[cycle(begin)]
fn add_begun_by(out: &mut Items<Id>, statement: &Stmt) -> Result<(), AllocError>
    ensures { OnOk result (out.new ≡ out.old ++ begun (view statement.now)) }
{
    match &statement.form {
        StmtForm::Group(body) => add_begun(out, body.as_slice()),
        StmtForm::Guard(_, body) => add_begun_by(out, body.get()),
        StmtForm::Par(branches) => add_begun_by_each(out, branches.as_slice()),
        StmtForm::Sel(branches) => add_begun_by_each(out, branches.as_slice()),
        StmtForm::Abort(first, second) => {
            add_begun(out, first.as_slice())?;
            add_begun_by(out, second.get())
        }
        StmtForm::Interrupt(first, second) => {
            add_begun(out, first.as_slice())?;
            add_begun_by(out, second.get())
        }
        StmtForm::Call {
            method,
            args,
            results,
        } => add_call(out, method.get(), args.as_slice(), results.get().as_slice()),
        StmtForm::If(_, _, _) => Ok(()),
        StmtForm::While(_, _) => Ok(()),
        StmtForm::Skip => Ok(()),
        StmtForm::Delay(_) => Ok(()),
        StmtForm::Block(_) => Ok(()),
        StmtForm::Send { .. } => Ok(()),
        StmtForm::Receive { .. } => Ok(()),
        StmtForm::Assign(_, _) => Ok(()),
        StmtForm::Value(_) => Ok(()),
    }
}

/// Adds the plain calls with which these statements begin: those of the first one. The only error
/// is want of memory.
#[cycle(begin)]
pub fn add_begun(out: &mut Items<Id>, statements: &[Stmt]) -> Result<(), AllocError>
    ensures { OnOk result (out.new ≡ out.old ++ begun_all (sequence_view statements.now)) }
{
    match statements.first() {
        Some(first) => add_begun_by(out, first),
        None => Ok(()),
    }
}

/// The same of the branches of a `par` or a `sel`.
#[cycle(begin)]
fn add_begun_by_each(out: &mut Items<Id>, branches: &[Items<Stmt>]) -> Result<(), AllocError>
    ensures { OnOk result (out.new ≡ out.old ++ begun_each
        (branches_of (map (map view) branches.now))) }
{
    for branch in branches {
        add_begun(out, branch.as_slice())?;
    }
    Ok(())
}
