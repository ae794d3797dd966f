//! Brackets, guards, `if`, `while`, `abort` and `interrupt`.

ghost use Rattle.std.specs.Prelude.{◌≡◌, IfOk, map};
ghost use Rattle.pz_syntax.specs.ExpressionView as expression;
ghost use Rattle.pz_syntax.specs.StatementView.{view, sequence_view};
ghost use Rattle.pz_parser_cursor.specs.devices.Device.{Reads};
ghost use Rattle.pz_parser_statements.specs.devices.Views.{otherwise_view, handled_view};
ghost use Rattle.pz_parser_expressions.specs.devices.Values as values;
ghost use Rattle.pz_parser_expressions.specs.devices.Values.{below};
ghost use Rattle.pz_parser_statements.specs.devices.Statements as spec;
ghost use Rattle.pz_parser_statements.specs.devices.Statements.{below_stmt};
ghost use Rattle.pz_parser_statements.specs.devices.Nests.{Nests};

use crate::grammar::Grammar;
use crate::kept::up_to;
use crate::single::inner_value;
use pz_parser_cursor::{Cursor, Next, Refusal};
use pz_syntax::pz_items::{Boxed, Items, both};
use pz_syntax::{Expr, Stmt, StmtForm};
use std::alloc::Global;

impl<F: Fn(Global, &mut Cursor<'_>, usize) -> Result<Stmt, Refusal>> Grammar<F> {
    /// A `(` stands next: statements up to `)`.
    #[tactic(auto, unfolding(crate::specs::devices::Statements::bracketed))]
    pub fn bracketed(&self, cursor: &mut Cursor<'_>) -> Result<Stmt, Refusal>
        requires parts { Nests self.now.depth (F.pre self.now.stmt) (F.post self.now.stmt) }
        ensures reads { Reads view (spec.bracketed self.now.depth
            (below_stmt self.now.depth) cursor.old) result cursor.new }
    {
        let pos = cursor.pos();
        cursor.deepen(self.depth)?;
        let body = self.sequence(cursor)?;
        cursor.expect(Next::RightParen)?;
        let form = StmtForm::Group(body);
        Ok(Stmt { pos, form })
    }

    /// A `[` stands next: a test, `]` and the statement that it guards.
    #[tactic(auto, unfolding(crate::specs::devices::Statements::guarded))]
    pub fn guarded(&self, cursor: &mut Cursor<'_>) -> Result<Stmt, Refusal>
        requires parts { Nests self.now.depth (F.pre self.now.stmt) (F.post self.now.stmt) }
        ensures reads { Reads view (spec.guarded self.now.depth
            (below_stmt self.now.depth) cursor.old) result cursor.new }
    {
        let pos = cursor.pos();
        cursor.deepen(self.depth)?;
        let guard = self.test(cursor, Next::RightBracket)?;
        let (guard, stmt) = self.with_inner(cursor, guard)?;
        let (guard, stmt) = both(Boxed::new(self.alloc, guard), Ok(stmt))?;
        let form = StmtForm::Guard(guard, stmt);
        Ok(Stmt { pos, form })
    }

    /// An `if` stands next: a test, what is done where it holds, perhaps an `else`, and `fi`.
    #[tactic(auto, unfolding(crate::specs::devices::Statements::conditional))]
    pub fn conditional(&self, cursor: &mut Cursor<'_>) -> Result<Stmt, Refusal>
        requires parts { Nests self.now.depth (F.pre self.now.stmt) (F.post self.now.stmt) }
        ensures reads { Reads view (spec.conditional self.now.depth
            (below_stmt self.now.depth) cursor.old) result cursor.new }
    {
        let pos = cursor.pos();
        cursor.deepen(self.depth)?;
        let test = self.test(cursor, Next::Then)?;
        let (test, body) = self.with_sequence(cursor, test)?;
        let ((test, body), other) = self.with_otherwise(cursor, (test, body))?;
        let (test, body, other) = up_to(cursor, (test, body, other), Next::Fi)?;
        let parts = both(
            Boxed::new(self.alloc, body),
            Boxed::of_option(self.alloc, other),
        );
        let (test, (body, other)) = both(Boxed::new(self.alloc, test), parts)?;
        let form = StmtForm::If(test, body, other);
        Ok(Stmt { pos, form })
    }

    #[tactic(auto, unfolding(crate::specs::devices::Statements::otherwise))]
    fn otherwise(&self, cursor: &mut Cursor<'_>) -> Result<Option<Items<Stmt>>, Refusal>
        requires parts { Nests self.now.depth (F.pre self.now.stmt) (F.post self.now.stmt) }
        ensures reads { Reads otherwise_view (spec.otherwise self.now.depth
            (below_stmt self.now.depth) cursor.old) result cursor.new }
    {
        match cursor.peek() {
            Next::Else => {
                cursor.skip();
                Ok(Some(self.sequence(cursor)?))
            }
            _ => Ok(None),
        }
    }

    /// A `while` stands next: a test, `do`, the body and `od`.
    #[tactic(auto, unfolding(crate::specs::devices::Statements::repeated))]
    pub fn repeated(&self, cursor: &mut Cursor<'_>) -> Result<Stmt, Refusal>
        requires parts { Nests self.now.depth (F.pre self.now.stmt) (F.post self.now.stmt) }
        ensures reads { Reads view (spec.repeated self.now.depth
            (below_stmt self.now.depth) cursor.old) result cursor.new }
    {
        let pos = cursor.pos();
        cursor.deepen(self.depth)?;
        let test = self.test(cursor, Next::Do)?;
        let (test, body) = self.with_sequence(cursor, test)?;
        let (test, body) = up_to(cursor, (test, body), Next::Od)?;
        let (test, body) = both(Boxed::new(self.alloc, test), Ok(body))?;
        let form = StmtForm::While(test, body);
        Ok(Stmt { pos, form })
    }

    /// An `abort` stands next: its body, `with` and the statement that aborts it.
    #[tactic(auto, unfolding(crate::specs::devices::Statements::aborted))]
    pub fn aborted(&self, cursor: &mut Cursor<'_>) -> Result<Stmt, Refusal>
        requires parts { Nests self.now.depth (F.pre self.now.stmt) (F.post self.now.stmt) }
        ensures reads { Reads view (spec.aborted self.now.depth
            (below_stmt self.now.depth) cursor.old) result cursor.new }
    {
        let pos = cursor.pos();
        let (body, handler) = self.handled(cursor)?;
        let form = StmtForm::Abort(body, handler);
        Ok(Stmt { pos, form })
    }

    /// An `interrupt` stands next: its body, `with` and the statement that interrupts it.
    #[tactic(auto, unfolding(crate::specs::devices::Statements::interrupted))]
    pub fn interrupted(&self, cursor: &mut Cursor<'_>) -> Result<Stmt, Refusal>
        requires parts { Nests self.now.depth (F.pre self.now.stmt) (F.post self.now.stmt) }
        ensures reads { Reads view (spec.interrupted self.now.depth
            (below_stmt self.now.depth) cursor.old) result cursor.new }
    {
        let pos = cursor.pos();
        let (body, handler) = self.handled(cursor)?;
        let form = StmtForm::Interrupt(body, handler);
        Ok(Stmt { pos, form })
    }

    /// A body, and the statement behind `with`.
    #[tactic(auto, unfolding(crate::specs::devices::Statements::handled))]
    fn handled(&self, cursor: &mut Cursor<'_>) -> Result<(Items<Stmt>, Boxed<Stmt>), Refusal>
        requires parts { Nests self.now.depth (F.pre self.now.stmt) (F.post self.now.stmt) }
        ensures reads { Reads handled_view (spec.handled self.now.depth
            (below_stmt self.now.depth) cursor.old) result cursor.new }
    {
        cursor.deepen(self.depth)?;
        let body = self.sequence(cursor)?;
        cursor.expect(Next::With)?;
        self.with_inner(cursor, body)
    }

    /// The value, and the statement one construct further in behind it.
    fn with_inner<T: Drop>(
        &self,
        cursor: &mut Cursor<'_>,
        value: T,
    ) -> Result<(T, Boxed<Stmt>), Refusal>
        requires parts { Nests self.now.depth (F.pre self.now.stmt) (F.post self.now.stmt) }
        ensures kept { IfOk result (λ read. read.0 ≡ value) }
        ensures reads { Reads (λ read. view read.1)
            (below_stmt self.now.depth cursor.old) result cursor.new }
    {
        let stmt = Boxed::new(self.alloc, self.inner(cursor)?)?;
        Ok((value, stmt))
    }

    /// The value, and the statements behind it.
    fn with_sequence<T: Drop>(
        &self,
        cursor: &mut Cursor<'_>,
        value: T,
    ) -> Result<(T, Items<Stmt>), Refusal>
        requires parts { Nests self.now.depth (F.pre self.now.stmt) (F.post self.now.stmt) }
        ensures kept { IfOk result (λ read. read.0 ≡ value) }
        ensures reads { Reads (λ read. map view read.1)
            (spec.sequence self.now.depth (below_stmt self.now.depth) cursor.old) result
            cursor.new }
    {
        let body = self.sequence(cursor)?;
        Ok((value, body))
    }

    /// The value, and the part behind `else`, where there is one.
    fn with_otherwise<T: Drop>(
        &self,
        cursor: &mut Cursor<'_>,
        value: T,
    ) -> Result<(T, Option<Items<Stmt>>), Refusal>
        requires parts { Nests self.now.depth (F.pre self.now.stmt) (F.post self.now.stmt) }
        ensures kept { IfOk result (λ read. read.0 ≡ value) }
        ensures reads { Reads (λ read. otherwise_view read.1)
            (spec.otherwise self.now.depth (below_stmt self.now.depth) cursor.old) result
            cursor.new }
    {
        let other = self.otherwise(cursor)?;
        Ok((value, other))
    }

    /// A value one construct further in, and this token behind it.
    #[tactic(auto, unfolding(pz_parser_expressions::specs::devices::Values::tested))]
    fn test(&self, cursor: &mut Cursor<'_>, close: Next) -> Result<Expr, Refusal>
        ensures reads { Reads expression.view (values.tested
            (below self.now.depth) close cursor.old) result cursor.new }
    {
        let test = inner_value(self.alloc, cursor, self.depth)?;
        Ok(up_to(cursor, test, close)?)
    }
}
