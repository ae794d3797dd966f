ghost use Rattle.std.specs.Prelude.{◌≡◌, IfOk};

use crate::copying::expressions::copy_expression;
use crate::copying::parts::{Copied, copy_five, copy_four, copy_two};
use pz_syntax::pz_items::{Boxed, Items, both};
use pz_syntax::{Expr, Id, Stmt, StmtForm};
use std::alloc::{AllocError, Global};

/// An equal statement. The only error is want of memory.
#[cycle(copy_stmt)]
pub fn copy_statement(alloc: Global, stmt: &Stmt) -> Result<Stmt, AllocError>
    ensures { IfOk result (λ copy. copy ≡ stmt.now) }
{
    Ok(Stmt {
        pos: stmt.pos,
        form: copy_form(alloc, &stmt.form)?,
    })
}

#[cycle(copy_stmt)]
fn copy_form(alloc: Global, form: &StmtForm) -> Result<StmtForm, AllocError>
    ensures { IfOk result (λ copy. copy ≡ form.now) }
{
    match form {
        StmtForm::Skip => Ok(StmtForm::Skip),
        StmtForm::Delay(time) => Ok(StmtForm::Delay(copy_expression(alloc, time)?)),
        StmtForm::Group(list) => Ok(StmtForm::Group(copy_statements(alloc, list.as_slice())?)),
        StmtForm::Block(list) => Ok(StmtForm::Block(list.copied(alloc)?)),
        StmtForm::Guard(test, guarded) => {
            let guarded = copy_boxed(alloc, guarded.get());
            let (test, guarded) = both(test.copied(alloc), guarded)?;
            Ok(StmtForm::Guard(test, guarded))
        }
        StmtForm::Par(branches) => Ok(StmtForm::Par(copy_branches(alloc, branches.as_slice())?)),
        StmtForm::Sel(branches) => Ok(StmtForm::Sel(copy_branches(alloc, branches.as_slice())?)),
        StmtForm::If(test, part, None) => {
            let part = copy_statements(alloc, part.get().as_slice());
            let part = Boxed::of_result(alloc, part);
            let (test, part) = both(test.copied(alloc), part)?;
            Ok(StmtForm::If(test, part, None))
        }
        StmtForm::If(test, part, Some(rest)) => {
            let part = copy_statements(alloc, part.get().as_slice());
            let rest = copy_statements(alloc, rest.get().as_slice());
            let parts = both(Boxed::of_result(alloc, part), Boxed::of_result(alloc, rest));
            let (test, (part, rest)) = both(test.copied(alloc), parts)?;
            Ok(StmtForm::If(test, part, Some(rest)))
        }
        StmtForm::While(test, body) => {
            let body = copy_statements(alloc, body.as_slice());
            let (test, body) = both(test.copied(alloc), body)?;
            Ok(StmtForm::While(test, body))
        }
        StmtForm::Abort(first, second) => {
            let second = copy_boxed(alloc, second.get());
            let (first, second) = both(copy_statements(alloc, first.as_slice()), second)?;
            Ok(StmtForm::Abort(first, second))
        }
        StmtForm::Interrupt(first, second) => {
            let second = copy_boxed(alloc, second.get());
            let (first, second) = both(copy_statements(alloc, first.as_slice()), second)?;
            Ok(StmtForm::Interrupt(first, second))
        }
        StmtForm::Send {
            port,
            name,
            args,
            block,
        } => copy_send(alloc, port, name, args, block),
        StmtForm::Receive {
            port,
            name,
            into,
            condition,
            block,
        } => copy_receive(alloc, port, name, into, condition, block),
        StmtForm::Call {
            method,
            args,
            results,
        } => copy_call(alloc, method, args, results),
        StmtForm::Assign(target, value) => {
            let (target, value) = copy_two(alloc, target, value)?;
            Ok(StmtForm::Assign(target, value))
        }
        StmtForm::Value(value) => Ok(StmtForm::Value(copy_expression(alloc, value)?)),
    }
}

/// The same in a box.
#[cycle(copy_stmt)]
fn copy_boxed(alloc: Global, stmt: &Stmt) -> Result<Boxed<Stmt>, AllocError>
    ensures { IfOk result (λ copy. copy ≡ stmt.now) }
{
    Boxed::new(alloc, copy_statement(alloc, stmt)?)
}

fn copy_call(
    alloc: Global,
    method: &Boxed<Id>,
    args: &Items<Expr>,
    results: &Boxed<Items<Id>>,
) -> Result<StmtForm, AllocError>
    ensures { IfOk result (λ copy. copy ≡ StmtForm.Call method.now args.now results.now) }
{
    let ends = copy_two(alloc, method, results);
    let ((method, results), args) = both(ends, args.copied(alloc))?;
    Ok(StmtForm::Call {
        method,
        args,
        results,
    })
}

fn copy_send(
    alloc: Global,
    port: &Boxed<Id>,
    name: &Boxed<Id>,
    args: &Option<Boxed<Items<Expr>>>,
    block: &Boxed<Option<Boxed<Items<Expr>>>>,
) -> Result<StmtForm, AllocError>
    ensures { IfOk result (λ copy. copy ≡ StmtForm.Send port.now name.now args.now block.now) }
{
    let ((port, name), (args, block)) = copy_four(alloc, port, name, args, block)?;
    Ok(StmtForm::Send {
        port,
        name,
        args,
        block,
    })
}

fn copy_receive(
    alloc: Global,
    port: &Boxed<Id>,
    name: &Boxed<Id>,
    into: &Boxed<Option<Boxed<Items<Id>>>>,
    condition: &Boxed<Option<Boxed<Expr>>>,
    block: &Boxed<Option<Boxed<Items<Expr>>>>,
) -> Result<StmtForm, AllocError>
    ensures { IfOk result (λ copy. copy ≡ StmtForm.Receive port.now name.now into.now condition.now
        block.now) }
{
    let (((port, name), (into, condition)), block) = copy_five(
        alloc, port, name, into, condition, block,
    )?;
    Ok(StmtForm::Receive {
        port,
        name,
        into,
        condition,
        block,
    })
}

/// Equal statements in the same order. The only error is want of memory.
#[cycle(copy_stmt)]
pub fn copy_statements(alloc: Global, list: &[Stmt]) -> Result<Items<Stmt>, AllocError>
    ensures { IfOk result (λ copy. copy ≡ list.now) }
{
    let mut copy = Items::new(alloc);
    for stmt in list {
        copy.push(copy_statement(alloc, stmt)?)?;
    }
    Ok(copy)
}

#[cycle(copy_stmt)]
fn copy_branches(alloc: Global, branches: &[Items<Stmt>]) -> Result<Items<Items<Stmt>>, AllocError>
    ensures { IfOk result (λ copy. copy ≡ branches.now) }
{
    let mut copy = Items::new(alloc);
    for branch in branches {
        copy.push(copy_statements(alloc, branch.as_slice())?)?;
    }
    Ok(copy)
}

impl Copied for Stmt {
    fn copied(&self, alloc: Global) -> Result<Stmt, AllocError> {
        copy_statement(alloc, self)
    }
}
