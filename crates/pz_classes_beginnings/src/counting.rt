// How many statements there are, counted as far as a limit.

ghost use Rattle.std.specs.Prelude.{◌≡◌, ◌+◌, map, min};
ghost use Rattle.pz_syntax.specs.StatementView.{view, sequence_view, branches_of};
ghost use Rattle.pz_classes_beginnings.specs.Beginning.{statements_in, statements_in_all, statements_in_each};

use pz_syntax::pz_items::Items;
use pz_syntax::{Stmt, StmtForm};

/// So many more, as far as the limit.
fn plus(count: u32, more: u32, most: u32) -> u32
    ensures { result ≡ min (count + more) most }
{
    count.saturating_add(more).min(most)
}

#[cycle(count)]
fn count_of(statement: &Stmt, most: u32) -> u32
    ensures { result ≡ min (statements_in (view statement.now)) most }
{
    match &statement.form {
        StmtForm::Group(body) => plus(1, count_up_to(body.as_slice(), most), most),
        StmtForm::Guard(_, body) => plus(1, count_of(body.get(), most), most),
        StmtForm::Par(branches) => plus(1, count_of_each(branches.as_slice(), most), most),
        StmtForm::Sel(branches) => plus(1, count_of_each(branches.as_slice(), most), most),
        StmtForm::If(_, body, other) => {
            let count = plus(1, count_up_to(body.get().as_slice(), most), most);
            match other {
                None => count,
                Some(other) => plus(count, count_up_to(other.get().as_slice(), most), most),
            }
        }
        StmtForm::While(_, body) => plus(1, count_up_to(body.as_slice(), most), most),
        StmtForm::Abort(first, second) => {
            let count = plus(1, count_up_to(first.as_slice(), most), most);
            plus(count, count_of(second.get(), most), most)
        }
        StmtForm::Interrupt(first, second) => {
            let count = plus(1, count_up_to(first.as_slice(), most), most);
            plus(count, count_of(second.get(), most), most)
        }
        StmtForm::Skip => most.min(1),
        StmtForm::Delay(_) => most.min(1),
        StmtForm::Block(_) => most.min(1),
        StmtForm::Send { .. } => most.min(1),
        StmtForm::Receive { .. } => most.min(1),
        StmtForm::Assign(_, _) => most.min(1),
        StmtForm::Value(_) => most.min(1),
        StmtForm::Call { .. } => most.min(1),
    }
}

/// How many statements stand here at any depth, as far as `most`.
#[cycle(count)]
pub fn count_up_to(statements: &[Stmt], most: u32) -> u32
    ensures { result ≡ min (statements_in_all (sequence_view statements.now)) most }
{
    let mut count = 0;
    for statement in statements {
        count = plus(count, count_of(statement, most), most);
    }
    count
}

#[cycle(count)]
fn count_of_each(branches: &[Items<Stmt>], most: u32) -> u32
    ensures { result ≡ min (statements_in_each (branches_of (map (map view) branches.now))) most }
{
    let mut count = 0;
    for branch in branches {
        count = plus(count, count_up_to(branch.as_slice(), most), most);
    }
    count
}
