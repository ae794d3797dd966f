ghost use Rattle.std.specs.Prelude.{◌≡◌, [], ◌∷◌, map};
ghost use Rattle.std.specs.Option.{option_copied};
ghost use Rattle.pz_syntax.specs.ExpressionView.{view, list_view, part_view, link_view, sending_view, links_of, sendings_of};
ghost use Rattle.pz_classes_mentions.specs.declared.mention.Mention.TheVariants as m;
ghost use Rattle.pz_classes_mentions.specs.Expressions.{count, count_written, mentioned, mentioned_all, mentioned_literal, mentioned_part, mentioned_links, mentioned_sendings};
ghost use Rattle.pz_classes_mentions.specs.Statements.{variables};
ghost use Rattle.pz_classes_mentions.specs.Words.{mention, told};

use crate::{Listener, Word};
use pz_syntax::pz_items::{Boxed, Items};
use pz_syntax::{Expr, ExprForm, Id, Link, Literal, Pos, Sending};

/// How many expressions these are.
#[tactic(auto, using(crate::proofs::Counts::count_length))]
pub(crate) fn count_exprs(es: &[Expr]) -> usize
    ensures { result ≡ count (list_view es.now) }
{
    es.len()
}

/// How many arguments are written.
pub(crate) fn count_args(args: Option<&Items<Expr>>) -> usize
    ensures { result ≡ count_written (part_view (option_copied args.entry)) }
{
    match args {
        None => 0,
        Some(args) => count_exprs(args.as_slice()),
    }
}

pub(crate) fn variable(x: &Id) -> Word
    ensures { mention result ≡ m.Variable x.now }
{
    Word::Variable {
        name: &x.name,
        pos: x.pos,
    }
}

pub(crate) fn tell_literal<L: Listener>(
    listener: &L,
    heard: L::Heard,
    literal: &Literal,
    pos: Pos,
) -> L::Heard
    requires { L.listens listener.now }
    ensures { result ≡ told (L.after listener.now) heard (mentioned_literal pos literal.now) }
{
    match literal {
        Literal::Float => listener.hear(heard, Word::Float(pos)),
        _ => heard,
    }
}

#[cycle(tell)]
#[tactic(auto, using(crate::proofs::Told::told_append))]
pub(crate) fn tell_expr<L: Listener>(listener: &L, heard: L::Heard, e: &Expr) -> L::Heard
    requires { L.listens listener.now }
    ensures { result ≡ told (L.after listener.now) heard (mentioned (view e.now)) }
{
    match &e.form {
        ExprForm::Lit(literal) => tell_literal(listener, heard, literal, e.pos),
        ExprForm::Var(name) => listener.hear(heard, Word::Variable { name, pos: e.pos }),
        ExprForm::Me => listener.hear(heard, Word::Me(e.pos)),
        ExprForm::Clock => listener.hear(heard, Word::Clock(e.pos)),
        ExprForm::New(class) => listener.hear(heard, Word::Created(class.get())),
        ExprForm::Group(es) => tell_exprs(listener, heard, es.as_slice()),
        ExprForm::Chain(first, links) => {
            let heard = tell_expr(listener, heard, first.get());
            tell_links(listener, heard, links.get().as_slice())
        }
        ExprForm::Sends(receiver, sendings) => {
            let heard = tell_expr(listener, heard, receiver.get());
            tell_sendings(listener, heard, sendings.get().as_slice())
        }
        ExprForm::Unary(_, operand) => tell_expr(listener, heard, operand.get()),
        ExprForm::Assign(x, value) => {
            let heard = listener.hear(heard, variable(x.get()));
            tell_expr(listener, heard, value.get())
        }
        ExprForm::Return(value) => {
            let heard = listener.hear(heard, Word::Return(e.pos));
            tell_expr(listener, heard, value.get())
        }
        ExprForm::If(test, body, other) => {
            let heard = tell_expr(listener, heard, test.get());
            let heard = tell_exprs(listener, heard, body.get().as_slice());
            match other.get() {
                None => heard,
                Some(other) => tell_exprs(listener, heard, other.as_slice()),
            }
        }
        ExprForm::While(test, body) => {
            let heard = tell_expr(listener, heard, test.get());
            tell_exprs(listener, heard, body.get().as_slice())
        }
    }
}

#[cycle(tell)]
#[tactic(auto, using(crate::proofs::Told::told_append))]
pub(crate) fn tell_exprs<L: Listener>(listener: &L, heard: L::Heard, es: &[Expr]) -> L::Heard
    requires { L.listens listener.now }
    ensures { result ≡ told (L.after listener.now) heard (mentioned_all (list_view es.now)) }
{
    let mut heard = heard;
    for e in es {
        heard = tell_expr(listener, heard, e);
    }
    heard
}

#[cycle(tell)]
#[tactic(auto, using(crate::proofs::Told::told_append))]
fn tell_links<L: Listener>(listener: &L, heard: L::Heard, links: &[Link]) -> L::Heard
    requires { L.listens listener.now }
    ensures { result ≡ told (L.after listener.now) heard (mentioned_links
        (links_of (map link_view links.now))) }
{
    let mut heard = heard;
    for link in links {
        heard = tell_expr(listener, heard, &link.operand);
    }
    heard
}

fn tell_selector<L: Listener>(
    listener: &L,
    heard: L::Heard,
    name: &Id,
    args: Option<&Items<Expr>>,
) -> L::Heard
    requires { L.listens listener.now }
    ensures { result ≡ told (L.after listener.now) heard (m.Selector name.now
        (count_written (part_view (option_copied args.entry))) ∷ []) }
{
    let count = count_args(args);
    listener.hear(heard, Word::Selector { name, count })
}

#[cycle(tell)]
#[tactic(auto, using(crate::proofs::Told::told_append))]
fn tell_sendings<L: Listener>(listener: &L, heard: L::Heard, sendings: &[Sending]) -> L::Heard
    requires { L.listens listener.now }
    ensures { result ≡ told (L.after listener.now) heard (mentioned_sendings
        (sendings_of (map sending_view sendings.now))) }
{
    let mut heard = heard;
    for sending in sendings {
        heard = tell_selector(listener, heard, &sending.selector, sending.args.as_ref());
        if let Some(args) = &sending.args {
            heard = tell_exprs(listener, heard, args.as_slice());
        }
    }
    heard
}

/// A list in a box, if one is written.
pub(crate) fn unboxed(part: &Option<Boxed<Items<Expr>>>) -> Option<&Items<Expr>>
    ensures { option_copied result ≡ part.now }
{
    match part {
        None => None,
        Some(es) => Some(es.get()),
    }
}

/// A list that is written or left out.
pub(crate) fn tell_part<L: Listener>(
    listener: &L,
    heard: L::Heard,
    part: Option<&Items<Expr>>,
) -> L::Heard
    requires { L.listens listener.now }
    ensures { result ≡ told (L.after listener.now) heard (mentioned_part
        (part_view (option_copied part.entry))) }
{
    match part {
        None => heard,
        Some(es) => tell_exprs(listener, heard, es.as_slice()),
    }
}

pub(crate) fn tell_variables<L: Listener>(listener: &L, heard: L::Heard, xs: &[Id]) -> L::Heard
    requires { L.listens listener.now }
    ensures { result ≡ told (L.after listener.now) heard (variables xs.now) }
{
    let mut heard = heard;
    for x in xs {
        heard = listener.hear(heard, variable(x));
    }
    heard
}
