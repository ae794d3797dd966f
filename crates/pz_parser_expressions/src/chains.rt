//! Chains of operators.

ghost use Rattle.std.specs.Prelude.{◌≡◌, ◌<◌, map};
ghost use Rattle.pz_syntax.specs.ExpressionView.{view, link_view};
ghost use Rattle.pz_parser_cursor.specs.devices.Device.{Reads, MakesOr};
ghost use Rattle.pz_parser_expressions.specs.devices.Rules as rules;
ghost use Rattle.pz_parser_expressions.specs.devices.Rules.{rank};
ghost use Rattle.pz_parser_expressions.specs.devices.Values as spec;
ghost use Rattle.pz_parser_expressions.specs.devices.Nests.{Nests};

use crate::Rule;
use crate::grammar::Grammar;
use pz_parser_cursor::{Cursor, Next, Refusal};
use pz_syntax::pz_items::{Boxed, Items, both};
use pz_syntax::{Expr, ExprForm, Link, Pos, Symbol};
use std::alloc::Global;

impl<F: Fn(Global, &mut Cursor<'_>, usize, Rule) -> Result<Expr, Refusal>> Grammar<F> {
    /// Operands of the later rule `operand`, with the operators of this rule between them.
    #[tactic(auto, unfolding(crate::specs::devices::Values::chain_of))]
    pub fn chain(&self, cursor: &mut Cursor<'_>, operand: Rule) -> Result<Expr, Refusal>
        requires parts { Nests self.now.depth self.now.rule (F.pre self.now.expr)
            (F.post self.now.expr) }
        requires later { rank self.now.rule < rank operand }
        ensures reads { Reads view (spec.chain_of (rules.operator self.now.rule)
            (spec.expr self.now.depth operand) cursor.old) result cursor.new }
    {
        let pos = cursor.pos();
        let first = self.tighter(cursor, operand)?;
        let found = self.links(cursor, operand)?;
        chained(self.alloc, pos, first, found)
    }

    #[tactic(auto, unfolding(crate::specs::devices::Values::all_links, crate::specs::devices::Values::links_by))]
    fn links(&self, cursor: &mut Cursor<'_>, operand: Rule) -> Result<Items<Link>, Refusal>
        requires parts { Nests self.now.depth self.now.rule (F.pre self.now.expr)
            (F.post self.now.expr) }
        requires later { rank self.now.rule < rank operand }
        ensures reads { Reads (map link_view) (spec.all_links (rules.operator self.now.rule)
            (spec.expr self.now.depth operand) cursor.old) result cursor.new }
    {
        let mut found = Items::new(self.alloc);
        for _turn in 0..cursor.left() {
            let Some(op) = operator(self.rule, cursor.peek()) else {
                return Ok(found);
            };
            found.push(self.link(cursor, op, operand)?)?;
        }
        Ok(found)
    }

    #[tactic(auto, unfolding(crate::specs::devices::Values::one_link))]
    fn link(&self, cursor: &mut Cursor<'_>, op: Symbol, operand: Rule) -> Result<Link, Refusal>
        requires parts { Nests self.now.depth self.now.rule (F.pre self.now.expr)
            (F.post self.now.expr) }
        requires later { rank self.now.rule < rank operand }
        ensures reads { Reads link_view (spec.one_link op
            (spec.expr self.now.depth operand) cursor.old) result cursor.new }
    {
        let pos = cursor.pos();
        cursor.skip();
        let operand = self.tighter(cursor, operand)?;
        Ok(Link { op, pos, operand })
    }
}

/// The operands with their operators; where there are none, the one operand.
fn chained(alloc: Global, pos: Pos, first: Expr, found: Items<Link>) -> Result<Expr, Refusal>
    ensures { MakesOr (λ e. view e ≡ spec.chained pos (view first) (map link_view found)) result }
{
    if found.is_empty() {
        return Ok(first);
    }
    let (first, found) = both(Boxed::new(alloc, first), Boxed::new(alloc, found))?;
    let form = ExprForm::Chain(first, found);
    Ok(Expr { pos, form })
}

/// The operator of this rule that comes next, if one does.
fn operator(rule: Rule, next: Next) -> Option<Symbol>
    ensures { result ≡ rules.operator rule next }
{
    match rule {
        Rule::Expression => None,
        Rule::Value => disjunction(next),
        Rule::Conjunction => conjunction(next),
        Rule::Comparison => comparison(next),
        Rule::Sum => sum(next),
        Rule::Product => product(next),
        Rule::Operand => None,
    }
}

fn disjunction(next: Next) -> Option<Symbol>
    ensures { result ≡ rules.disjunction next }
{
    match next {
        Next::Bar => Some(Symbol::Bar),
        _ => None,
    }
}

fn conjunction(next: Next) -> Option<Symbol>
    ensures { result ≡ rules.conjunction next }
{
    match next {
        Next::Ampersand => Some(Symbol::Ampersand),
        _ => None,
    }
}

fn comparison(next: Next) -> Option<Symbol>
    ensures { result ≡ rules.comparison next }
{
    match next {
        Next::Equal => Some(Symbol::Equal),
        Next::Same => Some(Symbol::Same),
        Next::Unequal => Some(Symbol::Unequal),
        Next::Distinct => Some(Symbol::Distinct),
        Next::Less => Some(Symbol::Less),
        Next::LessEqual => Some(Symbol::LessEqual),
        Next::Greater => Some(Symbol::Greater),
        Next::GreaterEqual => Some(Symbol::GreaterEqual),
        _ => None,
    }
}

fn sum(next: Next) -> Option<Symbol>
    ensures { result ≡ rules.sum next }
{
    match next {
        Next::Plus => Some(Symbol::Plus),
        Next::Minus => Some(Symbol::Minus),
        _ => None,
    }
}

fn product(next: Next) -> Option<Symbol>
    ensures { result ≡ rules.product next }
{
    match next {
        Next::Star => Some(Symbol::Star),
        Next::Slash => Some(Symbol::Slash),
        _ => None,
    }
}
