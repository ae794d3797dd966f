//! Expressions. What parses the parts of an expression is a parameter, so that each rule is proved
//! by itself.

ghost use Rattle.std.specs.Prelude.{◌≡◌, ◌<◌, ◌-◌, ◌^◌, map, true, suc, option_map};
ghost use Rattle.pz_syntax.specs.ExpressionView.{view, list_view, part_view};
ghost use Rattle.pz_parser_cursor.specs.devices.Device.{Reads, optional};
ghost use Rattle.pz_parser_cursor.specs.devices.Input.{sees};
ghost use Rattle.pz_parser_cursor.specs.devices.Lists as lists;
ghost use Rattle.pz_parser_cursor.specs.declared.ahead.Next.TheVariants as n;
ghost use Rattle.pz_parser_expressions.specs.declared.rule.Rule.TheVariants as rule;
ghost use Rattle.pz_parser_expressions.specs.devices.Rules.{rank};
ghost use Rattle.pz_parser_expressions.specs.devices.Values as spec;
ghost use Rattle.pz_parser_expressions.specs.devices.Values.{below};
ghost use Rattle.pz_parser_expressions.specs.devices.Nests.{Nests};

use crate::Rule;
use pz_parser_cursor::{Cursor, Next, Refusal};
use pz_syntax::pz_items::{Boxed, Items};
use pz_syntax::{Expr, ExprForm};
use std::alloc::Global;

/// The rule that is read, and the parser of parts.
#[derive(Clone, Copy)]
pub struct Grammar<F> {
    pub alloc: Global,
    /// How many constructs may still nest.
    pub depth: usize,
    pub rule: Rule,
    pub expr: F,
}

/// What this rule reads, with at most `depth` constructs one in another.
pub fn expr(
    alloc: Global,
    cursor: &mut Cursor<'_>,
    depth: usize,
    rule: Rule,
) -> Result<Expr, Refusal>
    ensures reads { Reads view (spec.expr depth rule cursor.old) result cursor.new }
{
    let grammar = Grammar {
        alloc,
        depth,
        rule,
        expr,
    };
    grammar.whole(cursor)
}

/// A value, with at most `depth` constructs one in another.
pub fn value(alloc: Global, cursor: &mut Cursor<'_>, depth: usize) -> Result<Expr, Refusal>
    ensures reads { Reads view (spec.expr depth rule.Value cursor.old) result cursor.new }
{
    expr(alloc, cursor, depth, Rule::Value)
}

/// One expression or more with this separator, with at most `depth` constructs one in another.
pub fn exprs(
    alloc: Global,
    cursor: &mut Cursor<'_>,
    depth: usize,
    separator: Next,
) -> Result<Items<Expr>, Refusal>
    requires room { depth < 2 ^ 64 - 1 }
    ensures reads { Reads (map view) (lists.list_of
        (spec.expr depth rule.Expression) separator cursor.old) result cursor.new }
{
    let grammar = Grammar {
        alloc,
        depth: depth + 1,
        rule: Rule::Operand,
        expr,
    };
    grammar.exprs(cursor, separator)
}

/// Arguments in round brackets, none or more. A `(` stands next. The brackets count for `depth`.
pub fn arguments(
    alloc: Global,
    cursor: &mut Cursor<'_>,
    depth: usize,
) -> Result<Items<Expr>, Refusal>
    ensures reads { Reads (map view) (spec.enclosed depth
        (below depth) n.Comma n.RightParen cursor.old) result cursor.new }
{
    let grammar = Grammar {
        alloc,
        depth,
        rule: Rule::Operand,
        expr,
    };
    grammar.enclosed(cursor, Next::Comma, Next::RightParen)
}

/// Arguments, if a `(` stands next. The brackets count for `depth`.
pub fn optional_arguments(
    alloc: Global,
    cursor: &mut Cursor<'_>,
    depth: usize,
) -> Result<Option<Boxed<Items<Expr>>>, Refusal>
    ensures reads { Reads part_view (spec.arguments depth (below depth) cursor.old) result
        cursor.new }
{
    let grammar = Grammar {
        alloc,
        depth,
        rule: Rule::Operand,
        expr,
    };
    Ok(Boxed::of_option(alloc, grammar.arguments(cursor)?)?)
}

/// The expressions of a block, none or more. A `{` stands next. The block counts for `depth`.
pub fn block(alloc: Global, cursor: &mut Cursor<'_>, depth: usize) -> Result<Items<Expr>, Refusal>
    ensures reads { Reads (map view) (spec.enclosed depth
        (below depth) n.Semicolon n.RightBrace cursor.old) result cursor.new }
{
    let grammar = Grammar {
        alloc,
        depth,
        rule: Rule::Operand,
        expr,
    };
    grammar.enclosed(cursor, Next::Semicolon, Next::RightBrace)
}

impl<F: Fn(Global, &mut Cursor<'_>, usize, Rule) -> Result<Expr, Refusal>> Grammar<F> {
    /// What the rule reads.
    pub fn whole(&self, cursor: &mut Cursor<'_>) -> Result<Expr, Refusal>
        requires parts { Nests self.now.depth self.now.rule (F.pre self.now.expr)
            (F.post self.now.expr) }
        ensures reads { Reads view (spec.by_rule self.now.depth
            (below self.now.depth) self.now.rule cursor.old) result cursor.new }
    {
        match self.rule {
            Rule::Expression => self.expression(cursor),
            Rule::Value => self.chain(cursor, Rule::Conjunction),
            Rule::Conjunction => self.chain(cursor, Rule::Comparison),
            Rule::Comparison => self.chain(cursor, Rule::Sum),
            Rule::Sum => self.chain(cursor, Rule::Product),
            Rule::Product => self.chain(cursor, Rule::Operand),
            Rule::Operand => self.operand(cursor),
        }
    }

    /// What a later rule reads, as deep as this one.
    pub fn tighter(&self, cursor: &mut Cursor<'_>, rule: Rule) -> Result<Expr, Refusal>
        requires parts { Nests self.now.depth self.now.rule (F.pre self.now.expr)
            (F.post self.now.expr) }
        requires later { rank self.now.rule < rank rule }
        ensures reads { Reads view (spec.expr self.now.depth rule cursor.old) result cursor.new }
    {
        (self.expr)(self.alloc, cursor, self.depth, rule)
    }

    /// What any rule reads, one construct further in.
    pub fn inner(&self, cursor: &mut Cursor<'_>, rule: Rule) -> Result<Expr, Refusal>
        requires parts { Nests self.now.depth self.now.rule (F.pre self.now.expr)
            (F.post self.now.expr) }
        ensures reads { Reads view (below self.now.depth rule cursor.old) result cursor.new }
    {
        if self.depth == 0 {
            return Err(cursor.refuse());
        }
        (self.expr)(self.alloc, cursor, self.depth - 1, rule)
    }

    /// One expression or more, one construct further in.
    #[tactic(auto, unfolding(pz_parser_cursor::specs::devices::Lists::list_of))]
    pub fn exprs(&self, cursor: &mut Cursor<'_>, separator: Next) -> Result<Items<Expr>, Refusal>
        requires parts { Nests self.now.depth self.now.rule (F.pre self.now.expr)
            (F.post self.now.expr) }
        ensures reads { Reads (map view) (lists.list_of
            (below self.now.depth rule.Expression) separator cursor.old) result cursor.new }
    {
        let mut found = Items::new(self.alloc);
        found.push(self.inner(cursor, Rule::Expression)?)?;
        self.more(cursor, separator, found)
    }

    #[tactic(auto, unfolding(pz_parser_cursor::specs::devices::Lists::more_of, pz_parser_cursor::specs::devices::Lists::tail_of))]
    fn more(
        &self,
        cursor: &mut Cursor<'_>,
        separator: Next,
        mut found: Items<Expr>,
    ) -> Result<Items<Expr>, Refusal>
        requires parts { Nests self.now.depth self.now.rule (F.pre self.now.expr)
            (F.post self.now.expr) }
        ensures reads { Reads (map view) (lists.more_of
            (below self.now.depth rule.Expression) separator (map view found) cursor.old) result
            cursor.new }
    {
        for _turn in 0..cursor.left() {
            if !cursor.eat(separator) {
                return Ok(found);
            }
            found.push(self.inner(cursor, Rule::Expression)?)?;
        }
        Ok(found)
    }

    /// None or more expressions before this closing token, which is taken too, and so is the opening
    /// one that stands next.
    #[tactic(auto, unfolding(crate::specs::devices::Values::enclosed))]
    pub fn enclosed(
        &self,
        cursor: &mut Cursor<'_>,
        separator: Next,
        close: Next,
    ) -> Result<Items<Expr>, Refusal>
        requires parts { Nests self.now.depth self.now.rule (F.pre self.now.expr)
            (F.post self.now.expr) }
        ensures reads { Reads (map view) (spec.enclosed self.now.depth
            (below self.now.depth) separator close cursor.old) result cursor.new }
    {
        cursor.deepen(self.depth)?;
        let found = self.exprs_before(cursor, separator, close)?;
        cursor.expect(close)?;
        Ok(found)
    }

    #[tactic(auto, unfolding(crate::specs::devices::Values::exprs_before))]
    fn exprs_before(
        &self,
        cursor: &mut Cursor<'_>,
        separator: Next,
        close: Next,
    ) -> Result<Items<Expr>, Refusal>
        requires parts { Nests self.now.depth self.now.rule (F.pre self.now.expr)
            (F.post self.now.expr) }
        ensures reads { Reads (map view) (spec.exprs_before
            (below self.now.depth) separator close cursor.old) result cursor.new }
    {
        if cursor.sees(close) {
            Ok(Items::new(self.alloc))
        } else {
            self.exprs(cursor, separator)
        }
    }

    #[tactic(auto, unfolding(crate::specs::devices::Values::expression))]
    fn expression(&self, cursor: &mut Cursor<'_>) -> Result<Expr, Refusal>
        requires parts { Nests self.now.depth self.now.rule (F.pre self.now.expr)
            (F.post self.now.expr) }
        requires first { rank self.now.rule < 1 }
        ensures reads { Reads view (spec.expression
            (spec.expr self.now.depth rule.Value) cursor.old) result cursor.new }
    {
        match cursor.peek() {
            Next::Return => self.returned(cursor),
            Next::Word => self.named(cursor),
            _ => self.tighter(cursor, Rule::Value),
        }
    }

    #[tactic(auto, unfolding(crate::specs::devices::Values::named))]
    fn named(&self, cursor: &mut Cursor<'_>) -> Result<Expr, Refusal>
        requires parts { Nests self.now.depth self.now.rule (F.pre self.now.expr)
            (F.post self.now.expr) }
        requires first { rank self.now.rule < 1 }
        ensures reads { Reads view (spec.named (spec.expr self.now.depth rule.Value) cursor.old)
            result cursor.new }
    {
        if cursor.sees_second(Next::Assign) {
            self.assignment(cursor)
        } else {
            self.tighter(cursor, Rule::Value)
        }
    }

    #[tactic(auto, unfolding(crate::specs::devices::Values::assignment))]
    fn assignment(&self, cursor: &mut Cursor<'_>) -> Result<Expr, Refusal>
        requires parts { Nests self.now.depth self.now.rule (F.pre self.now.expr)
            (F.post self.now.expr) }
        requires first { rank self.now.rule < 1 }
        ensures reads { Reads view (spec.assignment
            (spec.expr self.now.depth rule.Value) cursor.old) result cursor.new }
    {
        let pos = cursor.pos();
        let name = Boxed::new(self.alloc, cursor.take_id(self.alloc)?)?;
        cursor.skip();
        let value = Boxed::new(self.alloc, self.tighter(cursor, Rule::Value)?)?;
        let form = ExprForm::Assign(name, value);
        Ok(Expr { pos, form })
    }

    #[tactic(auto, unfolding(crate::specs::devices::Values::returned))]
    fn returned(&self, cursor: &mut Cursor<'_>) -> Result<Expr, Refusal>
        requires parts { Nests self.now.depth self.now.rule (F.pre self.now.expr)
            (F.post self.now.expr) }
        requires first { rank self.now.rule < 1 }
        ensures reads { Reads view (spec.returned (spec.expr self.now.depth rule.Value) cursor.old)
            result cursor.new }
    {
        let pos = cursor.pos();
        cursor.skip();
        let value = Boxed::new(self.alloc, self.tighter(cursor, Rule::Value)?)?;
        let form = ExprForm::Return(value);
        Ok(Expr { pos, form })
    }
}
