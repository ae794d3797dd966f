ghost use Rattle.std.specs.Prelude.{◌≡◌, [], ◌∷◌, ◌++◌, length, map, option_map};
ghost use Rattle.std.specs.Option.{option_copied};
ghost use Rattle.pz_syntax.specs.ExpressionView.{list_view, part_view};
ghost use Rattle.pz_syntax.specs.ExpressionView as expression_view;
ghost use Rattle.pz_syntax.specs.StatementView.{view, sequence_view, branches_of};
ghost use Rattle.pz_classes_mentions.specs.declared.mention.Mention.TheVariants as m;
ghost use Rattle.pz_classes_mentions.specs.Expressions.{count, count_written, mentioned_all, mentioned_part};
ghost use Rattle.pz_classes_mentions.specs.Expressions as expression;
ghost use Rattle.pz_classes_mentions.specs.Statements.{variables, received, mentioned_condition, mentioned, mentioned_statements, mentioned_branches};
ghost use Rattle.pz_classes_mentions.specs.Words.{told};

use crate::expressions::{
    count_args, count_exprs, tell_expr, tell_exprs, tell_part, tell_variables, unboxed, variable,
};
use crate::{Listener, Word};
use pz_syntax::pz_items::{Boxed, Items};
use pz_syntax::{Expr, Id, Stmt, StmtForm};

#[cycle(tell)]
#[tactic(auto, using(crate::proofs::Told::told_append))]
fn tell_statement<L: Listener>(listener: &L, heard: L::Heard, statement: &Stmt) -> L::Heard
    requires { L.listens listener.now }
    ensures { result ≡ told (L.after listener.now) heard (mentioned (view statement.now)) }
{
    match &statement.form {
        StmtForm::Skip => heard,
        StmtForm::Delay(length) => tell_expr(listener, heard, length),
        StmtForm::Group(body) => tell_statements(listener, heard, body.as_slice()),
        StmtForm::Block(es) => tell_exprs(listener, heard, es.as_slice()),
        StmtForm::Guard(test, body) => {
            let heard = tell_expr(listener, heard, test.get());
            tell_statement(listener, heard, body.get())
        }
        StmtForm::Par(branches) => tell_branches(listener, heard, branches.as_slice()),
        StmtForm::Sel(branches) => tell_branches(listener, heard, branches.as_slice()),
        StmtForm::If(test, body, other) => {
            let heard = tell_expr(listener, heard, test.get());
            let heard = tell_statements(listener, heard, body.get().as_slice());
            match other {
                None => heard,
                Some(other) => tell_statements(listener, heard, other.get().as_slice()),
            }
        }
        StmtForm::While(test, body) => {
            let heard = tell_expr(listener, heard, test.get());
            tell_statements(listener, heard, body.as_slice())
        }
        StmtForm::Abort(body, other) => {
            let heard = tell_statements(listener, heard, body.as_slice());
            tell_statement(listener, heard, other.get())
        }
        StmtForm::Interrupt(body, handler) => {
            let heard = tell_statements(listener, heard, body.as_slice());
            tell_statement(listener, heard, handler.get())
        }
        StmtForm::Send {
            port,
            name,
            args,
            block,
        } => tell_send(listener, heard, port.get(), name.get(), args, block.get()),
        StmtForm::Receive {
            port,
            name,
            into,
            condition,
            block,
        } => {
            let heard = tell_received(listener, heard, port.get(), name.get(), into.get());
            let heard = tell_condition(listener, heard, condition.get());
            tell_part(listener, heard, unboxed(block.get()))
        }
        StmtForm::Call {
            method,
            args,
            results,
        } => tell_call(
            listener,
            heard,
            method.get(),
            args.as_slice(),
            results.get().as_slice(),
        ),
        StmtForm::Assign(x, value) => {
            let heard = listener.hear(heard, variable(x.get()));
            tell_expr(listener, heard, value.get())
        }
        StmtForm::Value(e) => tell_expr(listener, heard, e),
    }
}

#[cycle(tell)]
#[tactic(auto, using(crate::proofs::Told::told_append))]
pub(crate) fn tell_statements<L: Listener>(
    listener: &L,
    heard: L::Heard,
    statements: &[Stmt],
) -> L::Heard
    requires { L.listens listener.now }
    ensures { result ≡ told (L.after listener.now) heard (mentioned_statements
        (sequence_view statements.now)) }
{
    let mut heard = heard;
    for statement in statements {
        heard = tell_statement(listener, heard, statement);
    }
    heard
}

/// The branches of a `par` or a `sel`.
#[cycle(tell)]
#[tactic(auto, using(crate::proofs::Told::told_append))]
fn tell_branches<L: Listener>(listener: &L, heard: L::Heard, branches: &[Items<Stmt>]) -> L::Heard
    requires { L.listens listener.now }
    ensures { result ≡ told (L.after listener.now) heard (mentioned_branches
        (branches_of (map (map view) branches.now))) }
{
    let mut heard = heard;
    for branch in branches {
        heard = tell_statements(listener, heard, branch.as_slice());
    }
    heard
}

#[tactic(auto, using(crate::proofs::Told::told_append))]
fn tell_send<L: Listener>(
    listener: &L,
    heard: L::Heard,
    port: &Id,
    name: &Id,
    args: &Option<Boxed<Items<Expr>>>,
    block: &Option<Boxed<Items<Expr>>>,
) -> L::Heard
    requires { L.listens listener.now }
    ensures { result ≡ told (L.after listener.now) heard (m.Port port.now ∷ m.Sent port.now name.now
        (count_written (part_view args.now)) ∷ (mentioned_part
        (part_view args.now) ++ mentioned_part (part_view block.now))) }
{
    let count = count_args(unboxed(args));
    let heard = listener.hear(heard, Word::Port(port));
    let heard = listener.hear(heard, Word::Sent { port, name, count });
    let heard = tell_part(listener, heard, unboxed(args));
    tell_part(listener, heard, unboxed(block))
}

/// Into how many variables a message is received.
fn count_received(into: &Option<Boxed<Items<Id>>>) -> usize
    ensures { result ≡ length (received into.now) }
{
    match into {
        None => 0,
        Some(into) => into.get().len(),
    }
}

/// A message that is received, and the variables into which it is.
#[tactic(auto, using(crate::proofs::Told::told_append))]
fn tell_received<L: Listener>(
    listener: &L,
    heard: L::Heard,
    port: &Id,
    name: &Id,
    into: &Option<Boxed<Items<Id>>>,
) -> L::Heard
    requires { L.listens listener.now }
    ensures { result ≡ told (L.after listener.now) heard (m.Port port.now ∷ m.Received port.now
        name.now (length (received into.now)) ∷ variables (received into.now)) }
{
    let count = count_received(into);
    let heard = listener.hear(heard, Word::Port(port));
    let heard = listener.hear(heard, Word::Received { port, name, count });
    match into {
        None => heard,
        Some(into) => tell_variables(listener, heard, into.get().as_slice()),
    }
}

fn tell_condition<L: Listener>(
    listener: &L,
    heard: L::Heard,
    condition: &Option<Boxed<Expr>>,
) -> L::Heard
    requires { L.listens listener.now }
    ensures { result ≡ told (L.after listener.now) heard (mentioned_condition
        (option_map expression_view.view condition.now)) }
{
    match condition {
        None => heard,
        Some(condition) => tell_expr(listener, heard, condition.get()),
    }
}

#[tactic(auto, using(crate::proofs::Told::told_append))]
fn tell_call<L: Listener>(
    listener: &L,
    heard: L::Heard,
    method: &Id,
    args: &[Expr],
    results: &[Id],
) -> L::Heard
    requires { L.listens listener.now }
    ensures { result ≡ told (L.after listener.now) heard (m.Called method.now
        (count (list_view args.now)) (length results.now) ∷ (mentioned_all
        (list_view args.now) ++ variables results.now)) }
{
    let call = Word::Called {
        name: method,
        inputs: count_exprs(args),
        outputs: results.len(),
    };
    let heard = listener.hear(heard, call);
    let heard = tell_exprs(listener, heard, args);
    tell_variables(listener, heard, results)
}
