//! Instances and what their parameters are given.

ghost use Rattle.std.specs.Prelude.{◌≡◌};
ghost use Rattle.pz_parser_cursor.specs.devices.Device.{Reads};
ghost use Rattle.pz_parser_cursor.specs.devices.Lists as lists;
ghost use Rattle.pz_parser_cursor.specs.declared.ahead.Next.TheVariants as n;
ghost use Rattle.pz_parser_declarations.specs.devices.Clusters as spec;

use pz_parser_cursor::{Cursor, Next, Refusal};
use pz_syntax::pz_items::Items;
use pz_syntax::{Arg, Given, Instance};
use std::alloc::Global;

/// The instances, if `instances` stands next.
#[tactic(auto, unfolding(crate::specs::devices::Clusters::instances_section))]
pub fn instances_section(
    alloc: Global,
    cursor: &mut Cursor<'_>,
) -> Result<Option<Items<Instance>>, Refusal>
    ensures reads { Reads (λ x. x) (spec.instances_section cursor.old) result cursor.new }
{
    if cursor.sees(Next::Instances) {
        cursor.expect(Next::Instances)?;
        Ok(Some(instances(alloc, cursor)?))
    } else {
        Ok(None)
    }
}

/// None or more instances. One begins with a head.
#[tactic(auto, unfolding(crate::specs::devices::Clusters::instances, pz_parser_cursor::specs::devices::Lists::each_of, pz_parser_cursor::specs::devices::Lists::repeat))]
fn instances(alloc: Global, cursor: &mut Cursor<'_>) -> Result<Items<Instance>, Refusal>
    ensures { Reads (λ x. x) (spec.instances cursor.old) result cursor.new }
{
    let mut found = Items::new(alloc);
    for _turn in 0..cursor.left() {
        if !cursor.sees(Next::Head) {
            return Ok(found);
        }
        found.push(instance(alloc, cursor)?)?;
    }
    Ok(found)
}

#[tactic(auto, unfolding(crate::specs::devices::Clusters::one_instance))]
fn instance(alloc: Global, cursor: &mut Cursor<'_>) -> Result<Instance, Refusal>
    ensures { Reads (λ x. x) (spec.one_instance cursor.old) result cursor.new }
{
    let name = cursor.take_id(alloc)?;
    cursor.expect(Next::Colon)?;
    let class = cursor.expect_id(alloc, Next::Word)?;
    let given = optional_givens(alloc, cursor)?;
    Ok(Instance { name, class, given })
}

#[tactic(auto, unfolding(crate::specs::devices::Clusters::optional_givens))]
fn optional_givens(alloc: Global, cursor: &mut Cursor<'_>) -> Result<Option<Items<Given>>, Refusal>
    ensures { Reads (λ x. x) (spec.optional_givens cursor.old) result cursor.new }
{
    if cursor.sees(Next::LeftParen) {
        Ok(Some(bracketed_givens(alloc, cursor)?))
    } else {
        Ok(None)
    }
}

#[tactic(auto, unfolding(crate::specs::devices::Clusters::bracketed_givens))]
fn bracketed_givens(alloc: Global, cursor: &mut Cursor<'_>) -> Result<Items<Given>, Refusal>
    ensures { Reads (λ x. x) (spec.bracketed_givens cursor.old) result cursor.new }
{
    cursor.expect(Next::LeftParen)?;
    let found = givens(alloc, cursor)?;
    cursor.expect(Next::RightParen)?;
    Ok(found)
}

/// What parameters are given, or nothing where no name stands next.
#[tactic(auto, unfolding(crate::specs::devices::Clusters::givens, pz_parser_cursor::specs::devices::Lists::list_of))]
fn givens(alloc: Global, cursor: &mut Cursor<'_>) -> Result<Items<Given>, Refusal>
    ensures { Reads (λ x. x) (spec.givens cursor.old) result cursor.new }
{
    let mut found = Items::new(alloc);
    if !cursor.sees(Next::Word) {
        return Ok(found);
    }
    found.push(given(alloc, cursor)?)?;
    more_givens(alloc, cursor, found)
}

#[tactic(auto, unfolding(pz_parser_cursor::specs::devices::Lists::more_of, pz_parser_cursor::specs::devices::Lists::tail_of))]
fn more_givens(
    alloc: Global,
    cursor: &mut Cursor<'_>,
    mut found: Items<Given>,
) -> Result<Items<Given>, Refusal>
    ensures { Reads (λ x. x) (lists.more_of spec.given n.Comma found cursor.old) result cursor.new }
{
    for _turn in 0..cursor.left() {
        if !cursor.eat(Next::Comma) {
            return Ok(found);
        }
        found.push(given(alloc, cursor)?)?;
    }
    Ok(found)
}

#[tactic(auto, unfolding(crate::specs::devices::Clusters::given))]
fn given(alloc: Global, cursor: &mut Cursor<'_>) -> Result<Given, Refusal>
    ensures { Reads (λ x. x) (spec.given cursor.old) result cursor.new }
{
    let name = cursor.expect_id(alloc, Next::Word)?;
    cursor.expect(Next::Assign)?;
    let arg = arg(alloc, cursor)?;
    Ok(Given { name, arg })
}

/// A literal, an integer behind a minus, or the name of a parameter of the cluster.
#[tactic(auto, unfolding(crate::specs::devices::Clusters::arg))]
fn arg(alloc: Global, cursor: &mut Cursor<'_>) -> Result<Arg, Refusal>
    ensures { Reads (λ x. x) (spec.arg cursor.old) result cursor.new }
{
    match cursor.peek() {
        Next::Int => constant(cursor),
        Next::Literal => constant(cursor),
        Next::Minus => negated(cursor),
        Next::Word => parameter(alloc, cursor),
        _ => Err(cursor.refuse()),
    }
}

#[tactic(auto, unfolding(crate::specs::devices::Clusters::constant))]
fn constant(cursor: &mut Cursor<'_>) -> Result<Arg, Refusal>
    ensures { Reads (λ x. x) (spec.constant cursor.old) result cursor.new }
{
    let pos = cursor.pos();
    let literal = cursor.take_literal()?;
    Ok(Arg::Plain(literal, pos))
}

#[tactic(auto, unfolding(crate::specs::devices::Clusters::negated, crate::specs::devices::Clusters::expect_number))]
fn negated(cursor: &mut Cursor<'_>) -> Result<Arg, Refusal>
    ensures { Reads (λ x. x) (spec.negated cursor.old) result cursor.new }
{
    let pos = cursor.pos();
    cursor.skip();
    if !cursor.sees(Next::Int) {
        return Err(cursor.refuse());
    }
    Ok(Arg::Negated(cursor.take_number(), pos))
}

#[tactic(auto, unfolding(crate::specs::devices::Clusters::parameter))]
fn parameter(alloc: Global, cursor: &mut Cursor<'_>) -> Result<Arg, Refusal>
    ensures { Reads (λ x. x) (spec.parameter cursor.old) result cursor.new }
{
    Ok(Arg::Parameter(cursor.take_id(alloc)?))
}
