ghost use Rattle.std.specs.Prelude.{◌≡◌, map, option_map, IfOk};
ghost use Rattle.pz_syntax.specs.StatementView as tree;
ghost use Rattle.pz_classes_code.specs.StepView as step;
ghost use Rattle.pz_syntax.specs.ExpressionView as expression;
ghost use Rattle.pz_classes_code.specs.CodeView as code;
ghost use Rattle.pz_classes_code.specs.Resolution.{resolved, resolved_all, resolved_part, slots_of, resolved_statement, resolved_statements, resolved_branches};
ghost use Rattle.pz_classes_code.specs.ScopeView.{scope_view};

use crate::resolving::expressions::{resolve, resolve_list};
use crate::scope::Scope;
use crate::{Code, CodeForm, Slot, Step, StepForm};
use pz_syntax::pz_items::{Boxed, Items, Shared, both};
use pz_syntax::{Expr, Id, Pos, Stmt, StmtForm};
use std::alloc::{AllocError, Global};

#[cycle(resolve_stmt)]
fn resolve_statement(alloc: Global, scope: &Scope, stmt: &Stmt) -> Result<Step, AllocError>
    ensures { IfOk result (λ s. step.view s ≡ resolved_statement (scope_view scope.now)
        (tree.view stmt.now)) }
{
    Ok(Step {
        pos: stmt.pos,
        form: Shared::new(alloc, resolve_form(alloc, scope, &stmt.form, stmt.pos)?)?,
    })
}

#[cycle(resolve_stmt)]
fn resolve_form(
    alloc: Global,
    scope: &Scope,
    form: &StmtForm,
    pos: Pos,
) -> Result<StepForm, AllocError>
    ensures { IfOk result (λ f. step.form_view f pos ≡ resolved_statement (scope_view scope.now)
        (tree.form_view form.now pos)) }
{
    match form {
        StmtForm::Skip => Ok(StepForm::Skip),
        StmtForm::Delay(time) => Ok(StepForm::Delay(resolve(alloc, scope, time)?)),
        StmtForm::Group(list) => {
            Ok(StepForm::Group(resolve_statements(alloc, scope, list.as_slice())?))
        }
        StmtForm::Block(list) => {
            Ok(StepForm::Block(share_codes(alloc, scope, list.as_slice())?))
        }
        StmtForm::Guard(test, guarded) => {
            let guarded = share_statement(alloc, scope, guarded.get());
            let (test, guarded) = both(share_code(alloc, scope, test.get()), guarded)?;
            Ok(StepForm::Guard(test, guarded))
        }
        StmtForm::Par(branches) => {
            Ok(StepForm::Par(resolve_branches(alloc, scope, branches.as_slice())?))
        }
        StmtForm::Sel(branches) => {
            Ok(StepForm::Sel(resolve_branches(alloc, scope, branches.as_slice())?))
        }
        StmtForm::If(test, part, rest) => {
            let part = resolve_statements(alloc, scope, part.get().as_slice());
            let parts = both(share_code(alloc, scope, test.get()), part);
            match rest {
                None => {
                    let (test, part) = parts?;
                    Ok(StepForm::If(test, part, None))
                }
                Some(rest) => {
                    let rest = resolve_statements(alloc, scope, rest.get().as_slice());
                    let ((test, part), rest) = both(parts, rest)?;
                    Ok(StepForm::If(test, part, Some(rest)))
                }
            }
        }
        StmtForm::While(test, body) => {
            let body = resolve_statements(alloc, scope, body.as_slice());
            let (test, body) = both(share_code(alloc, scope, test.get()), body)?;
            Ok(StepForm::While(test, body))
        }
        StmtForm::Abort(first, second) => {
            let second = share_statement(alloc, scope, second.get());
            let first = resolve_statements(alloc, scope, first.as_slice());
            let (first, second) = both(first, second)?;
            Ok(StepForm::Abort(first, second))
        }
        StmtForm::Interrupt(first, second) => {
            let second = share_statement(alloc, scope, second.get());
            let first = resolve_statements(alloc, scope, first.as_slice());
            let (first, second) = both(first, second)?;
            Ok(StepForm::Interrupt(first, second))
        }
        StmtForm::Send {
            port,
            name,
            args,
            block,
        } => resolve_send(alloc, scope, port.get(), name.get(), args, block.get(), pos),
        StmtForm::Receive {
            port,
            name,
            into,
            condition,
            block,
        } => {
            let (port, name) = (port.get(), name.get());
            let (into, condition, block) = (into.get(), condition.get(), block.get());
            resolve_receive(alloc, scope, port, name, into, condition, block, pos)
        }
        StmtForm::Call {
            method,
            args,
            results,
        } => {
            let args = share_codes(alloc, scope, args.as_slice());
            let results = share_slots(alloc, scope, results.get().as_slice());
            let (method, (args, results)) = both(
                share_name(alloc, method.get()),
                both(args, results),
            )?;
            Ok(StepForm::Call {
                method,
                args,
                results,
            })
        }
        StmtForm::Assign(target, value) => {
            resolve_assignment(alloc, scope, target.get(), value.get(), pos)
        }
        StmtForm::Value(value) => Ok(StepForm::Eval(resolve(alloc, scope, value)?)),
    }
}

/// The same, to be shared.
#[cycle(resolve_stmt)]
fn share_statement(alloc: Global, scope: &Scope, stmt: &Stmt) -> Result<Shared<Step>, AllocError>
    ensures { IfOk result (λ s. step.view s ≡ resolved_statement (scope_view scope.now)
        (tree.view stmt.now)) }
{
    Shared::new(alloc, resolve_statement(alloc, scope, stmt)?)
}

/// The assignment as an expression, at the same place.
fn resolve_assignment(
    alloc: Global,
    scope: &Scope,
    target: &Id,
    value: &Expr,
    pos: Pos,
) -> Result<StepForm, AllocError>
    ensures { IfOk result (λ f. step.form_view f pos ≡ resolved_statement (scope_view scope.now)
        (tree.form_view (StmtForm.Assign target.now value.now) pos)) }
{
    let value = Boxed::new(alloc, resolve(alloc, scope, value)?)?;
    let form = CodeForm::Assign(scope.slot(&target.name), value);
    Ok(StepForm::Eval(Code { pos, form }))
}

fn resolve_send(
    alloc: Global,
    scope: &Scope,
    port: &Id,
    name: &Id,
    args: &Option<Boxed<Items<Expr>>>,
    block: &Option<Boxed<Items<Expr>>>,
    pos: Pos,
) -> Result<StepForm, AllocError>
    ensures { IfOk result (λ f. step.form_view f pos ≡ resolved_statement (scope_view scope.now)
        (tree.form_view (StmtForm.Send port.now name.now args.now block.now) pos)) }
{
    Ok(StepForm::Send {
        port: scope.port(&port.name),
        name: share_name(alloc, name)?,
        args: share_part(alloc, scope, args)?,
        block: share_part(alloc, scope, block)?,
    })
}

fn resolve_receive(
    alloc: Global,
    scope: &Scope,
    port: &Id,
    name: &Id,
    into: &Option<Boxed<Items<Id>>>,
    condition: &Option<Boxed<Expr>>,
    block: &Option<Boxed<Items<Expr>>>,
    pos: Pos,
) -> Result<StepForm, AllocError>
    ensures { IfOk result (λ f. step.form_view f pos ≡ resolved_statement (scope_view scope.now)
        (tree.form_view (StmtForm.Receive port.now name.now into.now condition.now block.now)
        pos)) }
{
    Ok(StepForm::Receive {
        port: scope.port(&port.name),
        name: share_name(alloc, name)?,
        into: resolve_into(alloc, scope, into)?,
        condition: resolve_condition(alloc, scope, condition)?,
        block: Boxed::new(alloc, share_part(alloc, scope, block)?)?,
    })
}

/// An equal name, to be shared.
fn share_name(alloc: Global, name: &Id) -> Result<Shared<Id>, AllocError>
    ensures { IfOk result (λ copy. copy ≡ name.now) }
{
    Shared::new(alloc, name.copy()?)
}

/// What stands for each of these variables, to be shared.
fn share_slots(alloc: Global, scope: &Scope, ids: &[Id]) -> Result<Shared<Items<Slot>>, AllocError>
    ensures { IfOk result (λ slots. slots ≡ slots_of (scope_view scope.now) ids.now) }
{
    Shared::new(alloc, scope.slots(alloc, ids)?)
}

/// One expression, to be shared.
fn share_code(alloc: Global, scope: &Scope, expr: &Expr) -> Result<Shared<Code>, AllocError>
    ensures { IfOk result (λ c. code.view c ≡ resolved (scope_view scope.now)
        (expression.view expr.now)) }
{
    Shared::new(alloc, resolve(alloc, scope, expr)?)
}

/// Expressions in order, to be shared.
fn share_codes(
    alloc: Global,
    scope: &Scope,
    list: &[Expr],
) -> Result<Shared<Items<Code>>, AllocError>
    ensures { IfOk result (λ cs. code.list_view cs ≡ resolved_all (scope_view scope.now)
        (expression.list_view list.now)) }
{
    Shared::new(alloc, resolve_list(alloc, scope, list)?)
}

/// Expressions that may be left out.
fn share_part(
    alloc: Global,
    scope: &Scope,
    part: &Option<Boxed<Items<Expr>>>,
) -> Result<Option<Shared<Items<Code>>>, AllocError>
    ensures { IfOk result (λ p. code.part_view p ≡ resolved_part (scope_view scope.now)
        (expression.part_view part.now)) }
{
    match part {
        None => Ok(None),
        Some(list) => Ok(Some(share_codes(alloc, scope, list.get().as_slice())?)),
    }
}

/// The variables of a reception.
fn resolve_into(
    alloc: Global,
    scope: &Scope,
    into: &Option<Boxed<Items<Id>>>,
) -> Result<Option<Shared<Items<Slot>>>, AllocError>
    ensures { IfOk result (λ slots. slots ≡ option_map (slots_of (scope_view scope.now)) into.now) }
{
    match into {
        None => Ok(None),
        Some(ids) => Ok(Some(share_slots(alloc, scope, ids.get().as_slice())?)),
    }
}

/// The condition of a reception.
fn resolve_condition(
    alloc: Global,
    scope: &Scope,
    condition: &Option<Boxed<Expr>>,
) -> Result<Option<Shared<Code>>, AllocError>
    ensures { IfOk result (λ c. option_map code.view c ≡ option_map
        (resolved (scope_view scope.now)) (option_map expression.view condition.now)) }
{
    match condition {
        None => Ok(None),
        Some(test) => Ok(Some(share_code(alloc, scope, test.get())?)),
    }
}

/// These statements in order, each name replaced by what it stands for in the scope. The only error
/// is want of memory.
#[cycle(resolve_stmt)]
pub fn resolve_statements(
    alloc: Global,
    scope: &Scope,
    list: &[Stmt],
) -> Result<Shared<Items<Step>>, AllocError>
    ensures { IfOk result (λ ss. step.sequence_view ss ≡ resolved_statements (scope_view scope.now)
        (tree.sequence_view list.now)) }
{
    let mut steps = Items::with_capacity(alloc, list.len())?;
    for stmt in list {
        steps.push(resolve_statement(alloc, scope, stmt)?)?;
    }
    Shared::new(alloc, steps)
}

#[cycle(resolve_stmt)]
fn resolve_branches(
    alloc: Global,
    scope: &Scope,
    branches: &[Items<Stmt>],
) -> Result<Shared<Items<Shared<Items<Step>>>>, AllocError>
    ensures { IfOk result (λ bs. step.branches_of (map (map step.view) bs) ≡ resolved_branches
        (scope_view scope.now) (tree.branches_of (map (map tree.view) branches.now))) }
{
    let mut steps = Items::with_capacity(alloc, branches.len())?;
    for branch in branches {
        let mut part = Items::with_capacity(alloc, branch.len())?;
        for stmt in branch.as_slice() {
            part.push(resolve_statement(alloc, scope, stmt)?)?;
        }
        steps.push(Shared::new(alloc, part)?)?;
    }
    Shared::new(alloc, steps)
}
