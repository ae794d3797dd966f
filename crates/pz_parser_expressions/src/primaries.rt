//! What selectors are sent to.

ghost use Rattle.std.specs.Prelude.{◌≡◌, map, Ok};
ghost use Rattle.pz_syntax.specs.ExpressionView.{view, list_view, part_view};
ghost use Rattle.pz_syntax.specs.Expressions as tree;
ghost use Rattle.pz_parser_cursor.specs.devices.Device.{Reads, MakesOr};
ghost use Rattle.pz_parser_expressions.specs.devices.Values as spec;
ghost use Rattle.pz_parser_expressions.specs.devices.Values.{below};
ghost use Rattle.pz_parser_expressions.specs.devices.Nests.{Nests};

use crate::Rule;
use crate::grammar::Grammar;
use pz_parser_cursor::{Cursor, Next, Refusal};
use pz_syntax::pz_items::{Boxed, Items, both};
use pz_syntax::{Expr, ExprForm, Id, Pos};
use std::alloc::Global;

impl<F: Fn(Global, &mut Cursor<'_>, usize, Rule) -> Result<Expr, Refusal>> Grammar<F> {
    /// A literal, a name, `self`, `currentTime`, `new`, or an expression that ends with a token of
    /// its own.
    #[tactic(auto, unfolding(crate::specs::devices::Values::primary))]
    pub fn primary(&self, cursor: &mut Cursor<'_>) -> Result<Expr, Refusal>
        requires parts { Nests self.now.depth self.now.rule (F.pre self.now.expr)
            (F.post self.now.expr) }
        ensures reads { Reads view (spec.primary self.now.depth (below self.now.depth) cursor.old)
            result cursor.new }
    {
        match cursor.peek() {
            Next::Int => literal(cursor),
            Next::Literal => literal(cursor),
            Next::Word => variable(self.alloc, cursor),
            Next::Me => Ok(me(cursor)),
            Next::CurrentTime => Ok(clock(cursor)),
            Next::New => creation(self.alloc, cursor),
            Next::LeftParen => self.group(cursor),
            Next::If => self.conditional(cursor),
            Next::While => self.repetition(cursor),
            _ => Err(cursor.refuse()),
        }
    }

    #[tactic(auto, unfolding(crate::specs::devices::Values::grouped))]
    fn group(&self, cursor: &mut Cursor<'_>) -> Result<Expr, Refusal>
        requires parts { Nests self.now.depth self.now.rule (F.pre self.now.expr)
            (F.post self.now.expr) }
        ensures reads { Reads view (spec.grouped self.now.depth (below self.now.depth) cursor.old)
            result cursor.new }
    {
        let pos = cursor.pos();
        cursor.deepen(self.depth)?;
        let found = self.exprs(cursor, Next::Semicolon)?;
        cursor.expect(Next::RightParen)?;
        let form = ExprForm::Group(found);
        Ok(Expr { pos, form })
    }

    #[tactic(auto, unfolding(crate::specs::devices::Values::conditional))]
    fn conditional(&self, cursor: &mut Cursor<'_>) -> Result<Expr, Refusal>
        requires parts { Nests self.now.depth self.now.rule (F.pre self.now.expr)
            (F.post self.now.expr) }
        ensures reads { Reads view (spec.conditional self.now.depth
            (below self.now.depth) cursor.old) result cursor.new }
    {
        let pos = cursor.pos();
        cursor.deepen(self.depth)?;
        let test = self.test(cursor, Next::Then)?;
        let body = self.exprs(cursor, Next::Semicolon)?;
        let other = self.otherwise(cursor)?;
        cursor.expect(Next::Fi)?;
        choice(self.alloc, pos, test, body, other)
    }

    /// A value and this word behind it.
    #[tactic(auto, unfolding(crate::specs::devices::Values::tested))]
    fn test(&self, cursor: &mut Cursor<'_>, word: Next) -> Result<Boxed<Expr>, Refusal>
        requires parts { Nests self.now.depth self.now.rule (F.pre self.now.expr)
            (F.post self.now.expr) }
        ensures reads { Reads view (spec.tested (below self.now.depth) word cursor.old) result
            cursor.new }
    {
        let test = Boxed::new(self.alloc, self.inner(cursor, Rule::Value)?)?;
        cursor.expect(word)?;
        Ok(test)
    }

    #[tactic(auto, unfolding(crate::specs::devices::Values::otherwise))]
    fn otherwise(&self, cursor: &mut Cursor<'_>) -> Result<Option<Items<Expr>>, Refusal>
        requires parts { Nests self.now.depth self.now.rule (F.pre self.now.expr)
            (F.post self.now.expr) }
        ensures reads { Reads part_view (spec.otherwise (below self.now.depth) cursor.old) result
            cursor.new }
    {
        match cursor.peek() {
            Next::Else => {
                cursor.skip();
                Ok(Some(self.exprs(cursor, Next::Semicolon)?))
            }
            _ => Ok(None),
        }
    }

    #[tactic(auto, unfolding(crate::specs::devices::Values::repetition))]
    fn repetition(&self, cursor: &mut Cursor<'_>) -> Result<Expr, Refusal>
        requires parts { Nests self.now.depth self.now.rule (F.pre self.now.expr)
            (F.post self.now.expr) }
        ensures reads { Reads view (spec.repetition self.now.depth
            (below self.now.depth) cursor.old) result cursor.new }
    {
        let pos = cursor.pos();
        cursor.deepen(self.depth)?;
        let test = self.test(cursor, Next::Do)?;
        let body = self.exprs(cursor, Next::Semicolon)?;
        cursor.expect(Next::Od)?;
        repeated(self.alloc, pos, test, body)
    }
}

fn literal(cursor: &mut Cursor<'_>) -> Result<Expr, Refusal>
    ensures { Reads view (spec.constant cursor.old) result cursor.new }
{
    let pos = cursor.pos();
    let form = ExprForm::Lit(cursor.take_literal()?);
    Ok(Expr { pos, form })
}

#[tactic(auto, unfolding(pz_parser_cursor::specs::devices::Input::identifier))]
fn variable(alloc: Global, cursor: &mut Cursor<'_>) -> Result<Expr, Refusal>
    ensures { Reads view (spec.named_variable cursor.old) result cursor.new }
{
    let Id { name, pos } = cursor.take_id(alloc)?;
    let form = ExprForm::Var(name);
    Ok(Expr { pos, form })
}

fn me(cursor: &mut Cursor<'_>) -> Expr
    ensures { spec.self_word cursor.old ≡ Ok (view result, cursor.new) }
{
    let pos = cursor.pos();
    cursor.skip();
    let form = ExprForm::Me;
    Expr { pos, form }
}

fn clock(cursor: &mut Cursor<'_>) -> Expr
    ensures { spec.time_word cursor.old ≡ Ok (view result, cursor.new) }
{
    let pos = cursor.pos();
    cursor.skip();
    let form = ExprForm::Clock;
    Expr { pos, form }
}

#[tactic(auto, unfolding(crate::specs::devices::Values::created))]
fn creation(alloc: Global, cursor: &mut Cursor<'_>) -> Result<Expr, Refusal>
    ensures { Reads view (spec.created cursor.old) result cursor.new }
{
    let pos = cursor.pos();
    cursor.skip();
    cursor.expect(Next::LeftParen)?;
    let class = Boxed::new(alloc, cursor.expect_id(alloc, Next::Word)?)?;
    cursor.expect(Next::RightParen)?;
    let form = ExprForm::New(class);
    Ok(Expr { pos, form })
}

fn choice(
    alloc: Global,
    pos: Pos,
    test: Boxed<Expr>,
    body: Items<Expr>,
    other: Option<Items<Expr>>,
) -> Result<Expr, Refusal>
    ensures { MakesOr (λ e. view e ≡
        tree.choice pos (view test) (list_view body) (part_view other)) result }
{
    let (body, other) = both(Boxed::new(alloc, body), Boxed::new(alloc, other))?;
    let form = ExprForm::If(test, body, other);
    Ok(Expr { pos, form })
}

fn repeated(alloc: Global, pos: Pos, test: Boxed<Expr>, body: Items<Expr>) -> Result<Expr, Refusal>
    ensures { MakesOr (λ e. view e ≡ tree.loop pos (view test) (list_view body)) result }
{
    let form = ExprForm::While(test, Boxed::new(alloc, body)?);
    Ok(Expr { pos, form })
}
