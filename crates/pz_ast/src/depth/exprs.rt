ghost use Rattle.std.specs.Prelude.{◌≡◌, suc, ◌<◌, ◌^◌, map};
ghost use Rattle.pz_syntax.specs.ExpressionView.{view, list_view, part_view, link_view, sending_view, links_of, sendings_of};
ghost use Rattle.pz_syntax.specs.ExpressionNesting.{nesting, nestings, otherwise_nesting, links_nesting, sendings_nesting, bracketed_nesting};

use pz_syntax::pz_items::{Boxed, Items};
use pz_syntax::{Expr, ExprForm, Link, Sending};

#[cycle(nest)]
pub(crate) fn expr_nesting(e: &Expr) -> u32
    requires { nesting (view e.now) < 2 ^ 32 }
    ensures { result ≡ nesting (view e.now) }
{
    match &e.form {
        ExprForm::Lit(_) => 0,
        ExprForm::Var(_) => 0,
        ExprForm::Me => 0,
        ExprForm::Clock => 0,
        ExprForm::New(_) => 0,
        ExprForm::Group(es) => 1 + exprs_nesting(es.as_slice()),
        ExprForm::Chain(first, links) => {
            expr_nesting(first.get()).max(links_nesting(links.get().as_slice()))
        }
        ExprForm::Sends(receiver, sendings) => {
            expr_nesting(receiver.get()).max(sendings_nesting(sendings.get().as_slice()))
        }
        ExprForm::Unary(_, operand) => 1 + expr_nesting(operand.get()),
        ExprForm::Assign(_, value) => expr_nesting(value.get()),
        ExprForm::Return(value) => expr_nesting(value.get()),
        ExprForm::If(test, body, other) => {
            let test = expr_nesting(test.get());
            let body = exprs_nesting(body.get().as_slice());
            match other.get() {
                None => 1 + test.max(body),
                Some(other) => 1 + test.max(body.max(exprs_nesting(other.as_slice()))),
            }
        }
        ExprForm::While(test, body) => {
            1 + expr_nesting(test.get()).max(exprs_nesting(body.get().as_slice()))
        }
    }
}

#[cycle(nest)]
pub(crate) fn exprs_nesting(es: &[Expr]) -> u32
    requires { nestings (list_view es.now) < 2 ^ 32 }
    ensures { result ≡ nestings (list_view es.now) }
{
    let mut deepest = 0;
    for e in es {
        deepest = deepest.max(expr_nesting(e));
    }
    deepest
}

#[cycle(nest)]
fn links_nesting(links: &[Link]) -> u32
    requires { links_nesting (links_of (map link_view links.now)) < 2 ^ 32 }
    ensures { result ≡ links_nesting (links_of (map link_view links.now)) }
{
    let mut deepest = 0;
    for link in links {
        deepest = deepest.max(expr_nesting(&link.operand));
    }
    deepest
}

#[cycle(nest)]
fn sendings_nesting(sendings: &[Sending]) -> u32
    requires { sendings_nesting (sendings_of (map sending_view sendings.now)) < 2 ^ 32 }
    ensures { result ≡ sendings_nesting (sendings_of (map sending_view sendings.now)) }
{
    let mut deepest = 0;
    for sending in sendings {
        if let Some(args) = &sending.args {
            deepest = deepest.max(1 + exprs_nesting(args.as_slice()));
        }
    }
    deepest
}

/// Of expressions in brackets or braces, if these are written.
pub(crate) fn bracketed_nesting(es: &Option<Boxed<Items<Expr>>>) -> u32
    requires { bracketed_nesting (part_view es.now) < 2 ^ 32 }
    ensures { result ≡ bracketed_nesting (part_view es.now) }
{
    match es {
        None => 0,
        Some(es) => 1 + exprs_nesting(es.get().as_slice()),
    }
}
