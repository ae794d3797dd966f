//! Names, variables and formal parameters.

ghost use Rattle.std.specs.Prelude.{◌≡◌};
ghost use Rattle.pz_parser_cursor.specs.devices.Names as spec;
ghost use Rattle.pz_parser_cursor.specs.devices.Lists as lists;
ghost use Rattle.pz_parser_cursor.specs.devices.Device.{Reads, behind};
ghost use Rattle.pz_parser_cursor.specs.declared.ahead.Next.TheVariants as n;

use crate::ahead::Next;
use crate::{Cursor, Refusal};
use pz_syntax::pz_items::Items;
use pz_syntax::{Id, VarGroup};
use std::alloc::Global;

/// One name or more, with commas between them.
#[tactic(auto, unfolding(crate::specs::devices::Names::names, crate::specs::devices::Lists::list_of))]
pub fn names(alloc: Global, cursor: &mut Cursor<'_>) -> Result<Items<Id>, Refusal>
    ensures reads { Reads (λ x. x) (spec.names cursor.old) result cursor.new }
{
    let mut found = Items::new(alloc);
    found.push(cursor.expect_id(alloc, Next::Word)?)?;
    more_names(alloc, cursor, found)
}

#[tactic(auto, unfolding(crate::specs::devices::Lists::more_of, crate::specs::devices::Lists::tail_of))]
fn more_names(
    alloc: Global,
    cursor: &mut Cursor<'_>,
    mut found: Items<Id>,
) -> Result<Items<Id>, Refusal>
    ensures { Reads (λ x. x) (lists.more_of spec.word n.Comma found cursor.old) result cursor.new }
{
    for _turn in 0..cursor.left() {
        if !cursor.eat(Next::Comma) {
            return Ok(found);
        }
        found.push(cursor.expect_id(alloc, Next::Word)?)?;
    }
    Ok(found)
}

/// The names, or none where no name stands next.
#[tactic(auto, unfolding(crate::specs::devices::Names::optional_names))]
pub fn optional_names(alloc: Global, cursor: &mut Cursor<'_>) -> Result<Items<Id>, Refusal>
    ensures reads { Reads (λ x. x) (spec.optional_names cursor.old) result cursor.new }
{
    if cursor.sees(Next::Word) {
        names(alloc, cursor)
    } else {
        Ok(Items::new(alloc))
    }
}

/// The names of a group: commas stand between them, and the last is a head.
#[tactic(auto, unfolding(crate::specs::devices::Names::group_names, crate::specs::devices::Names::names_of_group))]
fn group_names(alloc: Global, cursor: &mut Cursor<'_>) -> Result<Items<Id>, Refusal>
    ensures { Reads (λ x. x) (spec.group_names cursor.old) result cursor.new }
{
    let mut found = Items::new(alloc);
    for _turn in 0..cursor.left() {
        match cursor.peek() {
            Next::Word => {
                found.push(cursor.take_id(alloc)?)?;
                cursor.expect(Next::Comma)?;
            }
            Next::Head => {
                found.push(cursor.take_id(alloc)?)?;
                return Ok(found);
            }
            _ => return Err(cursor.refuse()),
        }
    }
    Err(cursor.refuse())
}

#[tactic(auto, unfolding(crate::specs::devices::Names::group))]
fn group(alloc: Global, cursor: &mut Cursor<'_>) -> Result<VarGroup, Refusal>
    ensures { Reads (λ x. x) (spec.group cursor.old) result cursor.new }
{
    let names = group_names(alloc, cursor)?;
    cursor.expect(Next::Colon)?;
    let kind = cursor.expect_id(alloc, Next::Word)?;
    Ok(VarGroup { names, kind })
}

/// One group of variables or more, with commas between them.
#[tactic(auto, unfolding(crate::specs::devices::Names::variables, crate::specs::devices::Lists::list_of))]
pub fn variables(alloc: Global, cursor: &mut Cursor<'_>) -> Result<Items<VarGroup>, Refusal>
    ensures reads { Reads (λ x. x) (spec.variables cursor.old) result cursor.new }
{
    let mut found = Items::new(alloc);
    found.push(group(alloc, cursor)?)?;
    more_groups(alloc, cursor, found)
}

#[tactic(auto, unfolding(crate::specs::devices::Lists::more_of, crate::specs::devices::Lists::tail_of))]
fn more_groups(
    alloc: Global,
    cursor: &mut Cursor<'_>,
    mut found: Items<VarGroup>,
) -> Result<Items<VarGroup>, Refusal>
    ensures { Reads (λ x. x) (lists.more_of spec.group n.Comma found cursor.old) result cursor.new }
{
    for _turn in 0..cursor.left() {
        if !cursor.eat(Next::Comma) {
            return Ok(found);
        }
        found.push(group(alloc, cursor)?)?;
    }
    Ok(found)
}

/// The variables, or none where no group of them stands next.
#[tactic(auto, unfolding(crate::specs::devices::Names::optional_variables))]
pub fn optional_variables(
    alloc: Global,
    cursor: &mut Cursor<'_>,
) -> Result<Items<VarGroup>, Refusal>
    ensures reads { Reads (λ x. x) (spec.optional_variables cursor.old) result cursor.new }
{
    if begins_group(cursor) {
        variables(alloc, cursor)
    } else {
        Ok(Items::new(alloc))
    }
}

#[tactic(auto, unfolding(crate::specs::devices::Names::begins_group))]
fn begins_group(cursor: &Cursor<'_>) -> bool
    ensures { result ≡ spec.begins_group cursor.now }
{
    cursor.sees(Next::Word) || cursor.sees(Next::Head)
}

/// Formal parameters in round brackets.
#[tactic(auto, unfolding(crate::specs::devices::Names::formal))]
pub fn formal(alloc: Global, cursor: &mut Cursor<'_>) -> Result<Items<VarGroup>, Refusal>
    ensures reads { Reads (λ x. x) (spec.formal cursor.old) result cursor.new }
{
    cursor.expect(Next::LeftParen)?;
    let groups = optional_variables(alloc, cursor)?;
    cursor.expect(Next::RightParen)?;
    Ok(groups)
}

/// Formal parameters, if a `(` stands next.
#[tactic(auto, unfolding(crate::specs::devices::Names::optional_formal))]
pub fn optional_formal(
    alloc: Global,
    cursor: &mut Cursor<'_>,
) -> Result<Option<Items<VarGroup>>, Refusal>
    ensures reads { Reads (λ x. x) (spec.optional_formal cursor.old) result cursor.new }
{
    if cursor.sees(Next::LeftParen) {
        Ok(Some(formal(alloc, cursor)?))
    } else {
        Ok(None)
    }
}

#[tactic(auto, unfolding(crate::specs::devices::Names::locals))]
fn locals(alloc: Global, cursor: &mut Cursor<'_>) -> Result<Items<VarGroup>, Refusal>
    ensures { Reads (λ x. x) (spec.locals cursor.old) result cursor.new }
{
    cursor.expect(Next::Bar)?;
    let groups = variables(alloc, cursor)?;
    cursor.expect(Next::Bar)?;
    Ok(groups)
}

/// Local variables between bars, if a `|` stands next.
#[tactic(auto, unfolding(crate::specs::devices::Names::optional_locals))]
pub fn optional_locals(
    alloc: Global,
    cursor: &mut Cursor<'_>,
) -> Result<Option<Items<VarGroup>>, Refusal>
    ensures reads { Reads (λ x. x) (spec.optional_locals cursor.old) result cursor.new }
{
    if cursor.sees(Next::Bar) {
        Ok(Some(locals(alloc, cursor)?))
    } else {
        Ok(None)
    }
}

fn ports_behind(alloc: Global, cursor: &mut Cursor<'_>) -> Result<Items<Id>, Refusal>
    ensures { Reads (λ x. x) (behind n.Ports spec.optional_names cursor.old) result cursor.new }
{
    cursor.expect(Next::Ports)?;
    optional_names(alloc, cursor)
}

/// The names of ports, if `ports` stands next.
#[tactic(auto, unfolding(crate::specs::devices::Names::ports))]
pub fn ports_section(alloc: Global, cursor: &mut Cursor<'_>) -> Result<Option<Items<Id>>, Refusal>
    ensures reads { Reads (λ x. x) (spec.ports cursor.old) result cursor.new }
{
    if cursor.sees(Next::Ports) {
        Ok(Some(ports_behind(alloc, cursor)?))
    } else {
        Ok(None)
    }
}
