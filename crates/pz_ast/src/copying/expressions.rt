ghost use Rattle.std.specs.Prelude.{◌≡◌, IfOk};

use crate::copying::parts::Copied;
use pz_syntax::pz_items::{Boxed, Items, both};
use pz_syntax::{Expr, ExprForm, Link, Sending};
use std::alloc::{AllocError, Global};

/// An equal expression. The only error is want of memory.
#[cycle(copy_expr)]
pub fn copy_expression(alloc: Global, expr: &Expr) -> Result<Expr, AllocError>
    ensures { IfOk result (λ copy. copy ≡ expr.now) }
{
    Ok(Expr {
        pos: expr.pos,
        form: copy_form(alloc, &expr.form)?,
    })
}

#[cycle(copy_expr)]
fn copy_form(alloc: Global, form: &ExprForm) -> Result<ExprForm, AllocError>
    ensures { IfOk result (λ copy. copy ≡ form.now) }
{
    match form {
        ExprForm::Lit(literal) => Ok(ExprForm::Lit(literal.copy()?)),
        ExprForm::Var(name) => Ok(ExprForm::Var(name.copy()?)),
        ExprForm::Me => Ok(ExprForm::Me),
        ExprForm::Clock => Ok(ExprForm::Clock),
        ExprForm::New(class) => Ok(ExprForm::New(class.copied(alloc)?)),
        ExprForm::Group(list) => Ok(ExprForm::Group(copy_list(alloc, list.as_slice())?)),
        ExprForm::Chain(first, links) => {
            let first = copy_boxed(alloc, first.get());
            let links = Boxed::of_result(alloc, copy_links(alloc, links.get().as_slice()));
            let (first, links) = both(first, links)?;
            Ok(ExprForm::Chain(first, links))
        }
        ExprForm::Sends(first, sendings) => {
            let first = copy_boxed(alloc, first.get());
            let sendings = copy_sendings(alloc, sendings.get().as_slice());
            let (first, sendings) = both(first, Boxed::of_result(alloc, sendings))?;
            Ok(ExprForm::Sends(first, sendings))
        }
        ExprForm::Unary(op, operand) => Ok(ExprForm::Unary(*op, copy_boxed(alloc, operand.get())?)),
        ExprForm::Assign(target, value) => {
            let (target, value) = both(target.copied(alloc), copy_boxed(alloc, value.get()))?;
            Ok(ExprForm::Assign(target, value))
        }
        ExprForm::Return(value) => Ok(ExprForm::Return(copy_boxed(alloc, value.get())?)),
        ExprForm::If(test, part, rest) => {
            let test = copy_boxed(alloc, test.get());
            let parts = both(test, copy_list(alloc, part.get().as_slice()));
            match rest.get() {
                None => {
                    let (test, part) = parts?;
                    choice(alloc, test, part, None)
                }
                Some(rest) => {
                    let rest = copy_list(alloc, rest.as_slice());
                    let ((test, part), rest) = both(parts, rest)?;
                    choice(alloc, test, part, Some(rest))
                }
            }
        }
        ExprForm::While(test, body) => {
            let test = copy_boxed(alloc, test.get());
            let body = copy_list(alloc, body.get().as_slice());
            let (test, body) = both(test, Boxed::of_result(alloc, body))?;
            Ok(ExprForm::While(test, body))
        }
    }
}

/// The same in a box.
#[cycle(copy_expr)]
fn copy_boxed(alloc: Global, expr: &Expr) -> Result<Boxed<Expr>, AllocError>
    ensures { IfOk result (λ copy. copy ≡ expr.now) }
{
    Boxed::new(alloc, copy_expression(alloc, expr)?)
}

#[cycle(copy_expr)]
fn copy_list(alloc: Global, list: &[Expr]) -> Result<Items<Expr>, AllocError>
    ensures { IfOk result (λ copy. copy ≡ list.now) }
{
    let mut copy = Items::new(alloc);
    for expr in list {
        copy.push(copy_expression(alloc, expr)?)?;
    }
    Ok(copy)
}

/// An `if` of these parts.
fn choice(
    alloc: Global,
    test: Boxed<Expr>,
    part: Items<Expr>,
    rest: Option<Items<Expr>>,
) -> Result<ExprForm, AllocError>
    ensures { IfOk result (λ form. form ≡ ExprForm.If test part rest) }
{
    let parts = both(Boxed::new(alloc, part), Boxed::new(alloc, rest));
    let (test, (part, rest)) = both(Ok(test), parts)?;
    Ok(ExprForm::If(test, part, rest))
}

#[cycle(copy_expr)]
fn copy_links(alloc: Global, links: &[Link]) -> Result<Items<Link>, AllocError>
    ensures { IfOk result (λ copy. copy ≡ links.now) }
{
    let mut copy = Items::new(alloc);
    for link in links {
        copy.push(Link {
            op: link.op,
            pos: link.pos,
            operand: copy_expression(alloc, &link.operand)?,
        })?;
    }
    Ok(copy)
}

#[cycle(copy_expr)]
fn copy_sendings(alloc: Global, sendings: &[Sending]) -> Result<Items<Sending>, AllocError>
    ensures { IfOk result (λ copy. copy ≡ sendings.now) }
{
    let mut copy = Items::new(alloc);
    for sending in sendings {
        copy.push(copy_sending(alloc, sending)?)?;
    }
    Ok(copy)
}

#[cycle(copy_expr)]
fn copy_sending(alloc: Global, sending: &Sending) -> Result<Sending, AllocError>
    ensures { IfOk result (λ copy. copy ≡ sending.now) }
{
    match &sending.args {
        None => {
            let selector = sending.selector.copy()?;
            let args = None;
            Ok(Sending { selector, args })
        }
        Some(args) => {
            let args = copy_list(alloc, args.as_slice());
            let (selector, args) = both(sending.selector.copy(), args)?;
            let args = Some(args);
            Ok(Sending { selector, args })
        }
    }
}

impl Copied for Expr {
    fn copied(&self, alloc: Global) -> Result<Expr, AllocError> {
        copy_expression(alloc, self)
    }
}
