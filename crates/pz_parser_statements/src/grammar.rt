//! Statements. What parses the statements one construct further in is a parameter, so that each rule
//! is proved by itself.

ghost use Rattle.std.specs.Prelude.{◌≡◌, ◌<◌, ◌-◌, ◌^◌, map};
ghost use Rattle.pz_syntax.specs.StatementView.{view, sequence_view};
ghost use Rattle.pz_parser_cursor.specs.devices.Device.{Reads};
ghost use Rattle.pz_parser_cursor.specs.devices.Lists as lists;
ghost use Rattle.pz_parser_cursor.specs.declared.ahead.Next.TheVariants as n;
ghost use Rattle.pz_parser_statements.specs.devices.Statements as spec;
ghost use Rattle.pz_parser_statements.specs.devices.Statements.{below_stmt};
ghost use Rattle.pz_parser_statements.specs.devices.Nests.{Nests};

use crate::messages::call;
use crate::single::{block, delay, skip, valued, worded};
use pz_parser_cursor::{Cursor, Next, Refusal};
use pz_syntax::Stmt;
use pz_syntax::pz_items::Items;
use std::alloc::Global;

/// The nesting, and the parser of the statements one construct further in.
#[derive(Clone, Copy)]
pub struct Grammar<F> {
    pub alloc: Global,
    /// How many constructs may still nest.
    pub depth: usize,
    pub stmt: F,
}

/// One statement or more, with semicolons between them and at most `depth` constructs one in another.
pub fn stmts(alloc: Global, cursor: &mut Cursor<'_>, depth: usize) -> Result<Items<Stmt>, Refusal>
    requires room { depth < 2 ^ 64 - 1 }
    ensures reads { Reads sequence_view (spec.stmts depth cursor.old) result cursor.new }
{
    let grammar = Grammar {
        alloc,
        depth: depth + 1,
        stmt,
    };
    grammar.sequence(cursor)
}

/// One statement.
fn stmt(alloc: Global, cursor: &mut Cursor<'_>, depth: usize) -> Result<Stmt, Refusal>
    ensures reads { Reads view (spec.stmt depth cursor.old) result cursor.new }
{
    let grammar = Grammar { alloc, depth, stmt };
    grammar.statement(cursor)
}

impl<F: Fn(Global, &mut Cursor<'_>, usize) -> Result<Stmt, Refusal>> Grammar<F> {
    /// A statement is told by its first token, and where that is an identifier by the second.
    #[tactic(auto, unfolding(crate::specs::devices::Statements::statement))]
    fn statement(&self, cursor: &mut Cursor<'_>) -> Result<Stmt, Refusal>
        requires parts { Nests self.now.depth (F.pre self.now.stmt) (F.post self.now.stmt) }
        ensures reads { Reads view (spec.statement self.now.depth
            (below_stmt self.now.depth) cursor.old) result cursor.new }
    {
        match cursor.peek() {
            Next::Skip => Ok(skip(cursor)),
            Next::Delay => delay(self.alloc, cursor, self.depth),
            Next::LeftParen => self.bracketed(cursor),
            Next::LeftBrace => block(self.alloc, cursor, self.depth),
            Next::LeftBracket => self.guarded(cursor),
            Next::Par => self.parallel(cursor),
            Next::Sel => self.selection(cursor),
            Next::If => self.conditional(cursor),
            Next::While => self.repeated(cursor),
            Next::Abort => self.aborted(cursor),
            Next::Interrupt => self.interrupted(cursor),
            Next::Head => call(self.alloc, cursor, self.depth),
            Next::Word => worded(self.alloc, cursor, self.depth),
            Next::Int => valued(self.alloc, cursor, self.depth),
            Next::Literal => valued(self.alloc, cursor, self.depth),
            Next::New => valued(self.alloc, cursor, self.depth),
            Next::CurrentTime => valued(self.alloc, cursor, self.depth),
            _ => Err(cursor.refuse()),
        }
    }

    /// A statement one construct further in.
    pub fn inner(&self, cursor: &mut Cursor<'_>) -> Result<Stmt, Refusal>
        requires parts { Nests self.now.depth (F.pre self.now.stmt) (F.post self.now.stmt) }
        ensures reads { Reads view (below_stmt self.now.depth cursor.old) result cursor.new }
    {
        if self.depth == 0 {
            return Err(cursor.refuse());
        }
        (self.stmt)(self.alloc, cursor, self.depth - 1)
    }

    /// One statement or more, one construct further in.
    #[tactic(auto, unfolding(pz_parser_cursor::specs::devices::Lists::list_of))]
    pub fn sequence(&self, cursor: &mut Cursor<'_>) -> Result<Items<Stmt>, Refusal>
        requires parts { Nests self.now.depth (F.pre self.now.stmt) (F.post self.now.stmt) }
        ensures reads { Reads (map view) (spec.sequence self.now.depth
            (below_stmt self.now.depth) cursor.old) result cursor.new }
    {
        let mut found = Items::new(self.alloc);
        found.push(self.inner(cursor)?)?;
        self.more(cursor, found)
    }

    #[tactic(auto, unfolding(pz_parser_cursor::specs::devices::Lists::more_of, pz_parser_cursor::specs::devices::Lists::tail_of))]
    fn more(&self, cursor: &mut Cursor<'_>, mut found: Items<Stmt>) -> Result<Items<Stmt>, Refusal>
        requires parts { Nests self.now.depth (F.pre self.now.stmt) (F.post self.now.stmt) }
        ensures reads { Reads (map view) (lists.more_of (below_stmt self.now.depth) n.Semicolon
            (map view found) cursor.old) result cursor.new }
    {
        for _turn in 0..cursor.left() {
            if !cursor.eat(Next::Semicolon) {
                return Ok(found);
            }
            found.push(self.inner(cursor)?)?;
        }
        Ok(found)
    }
}
