//! Signs, sendings and arguments.

ghost use Rattle.std.specs.Prelude.{◌≡◌, map};
ghost use Rattle.pz_syntax.specs.ExpressionView.{view, part_view, sending_view};
ghost use Rattle.pz_parser_cursor.specs.devices.Device.{Reads, MakesOr};
ghost use Rattle.pz_parser_expressions.specs.devices.Values as spec;
ghost use Rattle.pz_parser_expressions.specs.devices.Values.{below};
ghost use Rattle.pz_parser_expressions.specs.devices.Nests.{Nests};

use crate::Rule;
use crate::grammar::Grammar;
use pz_parser_cursor::{Cursor, Next, Refusal};
use pz_syntax::pz_items::{Boxed, Items, both};
use pz_syntax::{Expr, ExprForm, Pos, Sending, Symbol};
use std::alloc::Global;

impl<F: Fn(Global, &mut Cursor<'_>, usize, Rule) -> Result<Expr, Refusal>> Grammar<F> {
    /// Arguments in round brackets, if a `(` stands next.
    #[tactic(auto, unfolding(crate::specs::devices::Values::arguments))]
    pub fn arguments(&self, cursor: &mut Cursor<'_>) -> Result<Option<Items<Expr>>, Refusal>
        requires parts { Nests self.now.depth self.now.rule (F.pre self.now.expr)
            (F.post self.now.expr) }
        ensures reads { Reads part_view (spec.arguments self.now.depth
            (below self.now.depth) cursor.old) result cursor.new }
    {
        match cursor.peek() {
            Next::LeftParen => Ok(Some(self.enclosed(cursor, Next::Comma, Next::RightParen)?)),
            _ => Ok(None),
        }
    }

    #[tactic(auto, unfolding(crate::specs::devices::Values::one_sending))]
    fn sending(&self, cursor: &mut Cursor<'_>) -> Result<Sending, Refusal>
        requires parts { Nests self.now.depth self.now.rule (F.pre self.now.expr)
            (F.post self.now.expr) }
        ensures reads { Reads sending_view (spec.one_sending self.now.depth
            (below self.now.depth) cursor.old) result cursor.new }
    {
        let selector = cursor.take_id(self.alloc)?;
        let args = self.arguments(cursor)?;
        Ok(Sending { selector, args })
    }

    #[tactic(auto, unfolding(crate::specs::devices::Values::all_sendings, pz_parser_cursor::specs::devices::Lists::each_of, pz_parser_cursor::specs::devices::Lists::repeat))]
    fn sendings(&self, cursor: &mut Cursor<'_>) -> Result<Items<Sending>, Refusal>
        requires parts { Nests self.now.depth self.now.rule (F.pre self.now.expr)
            (F.post self.now.expr) }
        ensures reads { Reads (map sending_view) (spec.all_sendings self.now.depth
            (below self.now.depth) cursor.old) result cursor.new }
    {
        let mut found = Items::new(self.alloc);
        for _turn in 0..cursor.left() {
            if !cursor.sees_selector() {
                return Ok(found);
            }
            found.push(self.sending(cursor)?)?;
        }
        Ok(found)
    }

    #[tactic(auto, unfolding(crate::specs::devices::Values::sent_to))]
    fn sent_to(&self, cursor: &mut Cursor<'_>) -> Result<Expr, Refusal>
        requires parts { Nests self.now.depth self.now.rule (F.pre self.now.expr)
            (F.post self.now.expr) }
        ensures reads { Reads view (spec.sent_to self.now.depth (below self.now.depth) cursor.old)
            result cursor.new }
    {
        let pos = cursor.pos();
        let first = self.primary(cursor)?;
        let found = self.sendings(cursor)?;
        sent(self.alloc, pos, first, found)
    }

    /// A sign and its operand, or what selectors are sent to with its sendings.
    #[tactic(auto, unfolding(crate::specs::devices::Values::operand))]
    pub fn operand(&self, cursor: &mut Cursor<'_>) -> Result<Expr, Refusal>
        requires parts { Nests self.now.depth self.now.rule (F.pre self.now.expr)
            (F.post self.now.expr) }
        ensures reads { Reads view (spec.operand self.now.depth (below self.now.depth) cursor.old)
            result cursor.new }
    {
        match cursor.peek() {
            Next::Minus => self.signed(cursor, Symbol::Minus),
            Next::Bang => self.signed(cursor, Symbol::Bang),
            _ => self.sent_to(cursor),
        }
    }

    #[tactic(auto, unfolding(crate::specs::devices::Values::signed))]
    fn signed(&self, cursor: &mut Cursor<'_>, sign: Symbol) -> Result<Expr, Refusal>
        requires parts { Nests self.now.depth self.now.rule (F.pre self.now.expr)
            (F.post self.now.expr) }
        ensures reads { Reads view (spec.signed self.now.depth
            (below self.now.depth) sign cursor.old) result cursor.new }
    {
        let pos = cursor.pos();
        cursor.deepen(self.depth)?;
        let operand = Boxed::new(self.alloc, self.inner(cursor, Rule::Operand)?)?;
        let form = ExprForm::Unary(sign, operand);
        Ok(Expr { pos, form })
    }
}

/// The sendings with what they are sent to; where there are none, that alone.
fn sent(alloc: Global, pos: Pos, first: Expr, found: Items<Sending>) -> Result<Expr, Refusal>
    ensures { MakesOr (λ e. view e ≡ spec.sent pos (view first) (map sending_view found)) result }
{
    if found.is_empty() {
        return Ok(first);
    }
    let (first, found) = both(Boxed::new(alloc, first), Boxed::new(alloc, found))?;
    let form = ExprForm::Sends(first, found);
    Ok(Expr { pos, form })
}
