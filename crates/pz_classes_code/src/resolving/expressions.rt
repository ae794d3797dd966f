ghost use Rattle.std.specs.Prelude.{◌≡◌, map, IfOk};
ghost use Rattle.pz_syntax.specs.ExpressionView as tree;
ghost use Rattle.pz_classes_code.specs.CodeView as code;
ghost use Rattle.pz_classes_code.specs.Resolution.{resolved, resolved_all, resolved_part, resolved_links, resolved_sendings};
ghost use Rattle.pz_classes_code.specs.ScopeView.{scope_view};

use crate::scope::Scope;
use crate::{Code, CodeForm, CodeLink, CodeSending};
use pz_syntax::pz_items::{Boxed, Items, both};
use pz_syntax::{Expr, ExprForm, Link, Pos, Sending};
use std::alloc::{AllocError, Global};

#[cycle(resolve_expr)]
pub(crate) fn resolve(alloc: Global, scope: &Scope, expr: &Expr) -> Result<Code, AllocError>
    ensures { IfOk result (λ c. code.view c ≡ resolved (scope_view scope.now)
        (tree.view expr.now)) }
{
    Ok(Code {
        pos: expr.pos,
        form: resolve_form(alloc, scope, &expr.form, expr.pos)?,
    })
}

#[cycle(resolve_expr)]
fn resolve_form(
    alloc: Global,
    scope: &Scope,
    form: &ExprForm,
    pos: Pos,
) -> Result<CodeForm, AllocError>
    ensures { IfOk result (λ f. code.form_view f pos ≡ resolved (scope_view scope.now)
        (tree.form_view form.now pos)) }
{
    match form {
        ExprForm::Lit(literal) => Ok(CodeForm::Lit(literal.copy()?)),
        ExprForm::Var(name) => Ok(CodeForm::Var(scope.slot(name))),
        ExprForm::Me => Ok(CodeForm::Me),
        ExprForm::Clock => Ok(CodeForm::Clock),
        ExprForm::New(class) => Ok(CodeForm::New(scope.class(&class.get().name))),
        ExprForm::Group(list) => Ok(CodeForm::Group(resolve_list(alloc, scope, list.as_slice())?)),
        ExprForm::Chain(first, links) => {
            let first = resolve_boxed(alloc, scope, first.get());
            let (first, links) = both(first, resolve_links(alloc, scope, links.get().as_slice()))?;
            Ok(CodeForm::Chain(first, links))
        }
        ExprForm::Sends(first, sendings) => {
            let first = resolve_boxed(alloc, scope, first.get());
            let sendings = resolve_sendings(alloc, scope, sendings.get().as_slice());
            let (first, sendings) = both(first, sendings)?;
            Ok(CodeForm::Sends(first, sendings))
        }
        ExprForm::Unary(op, operand) => {
            Ok(CodeForm::Unary(*op, resolve_boxed(alloc, scope, operand.get())?))
        }
        ExprForm::Assign(target, value) => {
            let value = resolve_boxed(alloc, scope, value.get())?;
            Ok(CodeForm::Assign(scope.slot(&target.get().name), value))
        }
        ExprForm::Return(value) => {
            Ok(CodeForm::Return(resolve_boxed(alloc, scope, value.get())?))
        }
        ExprForm::If(test, part, rest) => {
            let test = resolve_boxed(alloc, scope, test.get());
            let parts = both(test, resolve_list(alloc, scope, part.get().as_slice()));
            match rest.get() {
                None => {
                    let (test, part) = parts?;
                    choice(alloc, test, part, None)
                }
                Some(rest) => {
                    let rest = resolve_list(alloc, scope, rest.as_slice());
                    let ((test, part), rest) = both(parts, rest)?;
                    choice(alloc, test, part, Some(rest))
                }
            }
        }
        ExprForm::While(test, body) => {
            let test = resolve_boxed(alloc, scope, test.get());
            let body = resolve_list(alloc, scope, body.get().as_slice());
            let (test, body) = both(test, body)?;
            Ok(CodeForm::While(test, body))
        }
    }
}

/// The same in a box.
#[cycle(resolve_expr)]
fn resolve_boxed(alloc: Global, scope: &Scope, expr: &Expr) -> Result<Boxed<Code>, AllocError>
    ensures { IfOk result (λ c. code.view c ≡ resolved (scope_view scope.now)
        (tree.view expr.now)) }
{
    Boxed::new(alloc, resolve(alloc, scope, expr)?)
}

/// These expressions in order, each name replaced by what it stands for in the scope. The only error
/// is want of memory.
#[cycle(resolve_expr)]
pub fn resolve_list(alloc: Global, scope: &Scope, list: &[Expr]) -> Result<Items<Code>, AllocError>
    ensures { IfOk result (λ cs. code.list_view cs ≡ resolved_all (scope_view scope.now)
        (tree.list_view list.now)) }
{
    let mut codes = Items::with_capacity(alloc, list.len())?;
    for expr in list {
        codes.push(resolve(alloc, scope, expr)?)?;
    }
    Ok(codes)
}

#[cycle(resolve_expr)]
fn resolve_links(
    alloc: Global,
    scope: &Scope,
    links: &[Link],
) -> Result<Items<CodeLink>, AllocError>
    ensures { IfOk result (λ ls. code.links_of (map code.link_view ls) ≡ resolved_links
        (scope_view scope.now) (tree.links_of (map tree.link_view links.now))) }
{
    let mut codes = Items::with_capacity(alloc, links.len())?;
    for link in links {
        codes.push(CodeLink {
            op: link.op,
            pos: link.pos,
            operand: resolve(alloc, scope, &link.operand)?,
        })?;
    }
    Ok(codes)
}

#[cycle(resolve_expr)]
fn resolve_sendings(
    alloc: Global,
    scope: &Scope,
    sendings: &[Sending],
) -> Result<Items<CodeSending>, AllocError>
    ensures { IfOk result (λ ss. code.sendings_of (map code.sending_view ss) ≡ resolved_sendings
        (scope_view scope.now) (tree.sendings_of (map tree.sending_view sendings.now))) }
{
    let mut codes = Items::with_capacity(alloc, sendings.len())?;
    for sending in sendings {
        codes.push(resolve_sending(alloc, scope, sending)?)?;
    }
    Ok(codes)
}

#[cycle(resolve_expr)]
fn resolve_sending(
    alloc: Global,
    scope: &Scope,
    sending: &Sending,
) -> Result<CodeSending, AllocError>
    ensures { IfOk result (λ s. code.sending_view s ≡ (
      (tree.sending_view sending.now).0,
      resolved_part (scope_view scope.now) (tree.sending_view sending.now).1,
    )) }
{
    match &sending.args {
        None => {
            let selector = sending.selector.copy()?;
            let args = None;
            Ok(CodeSending { selector, args })
        }
        Some(args) => {
            let args = resolve_list(alloc, scope, args.as_slice());
            let (selector, args) = both(sending.selector.copy(), args)?;
            let args = Some(args);
            Ok(CodeSending { selector, args })
        }
    }
}

/// An `if` of these parts.
fn choice(
    alloc: Global,
    test: Boxed<Code>,
    part: Items<Code>,
    rest: Option<Items<Code>>,
) -> Result<CodeForm, AllocError>
    ensures { IfOk result (λ form. form ≡ CodeForm.If test part rest) }
{
    let parts = both(Boxed::new(alloc, part), Boxed::new(alloc, rest));
    let (test, (part, rest)) = both(Ok(test), parts)?;
    Ok(CodeForm::If(test, part, rest))
}
