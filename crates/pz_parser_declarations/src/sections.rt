//! Sections of classes: the parent, the variables, and the call with which a process starts.

ghost use Rattle.std.specs.Prelude.{◌≡◌, ◌<◌, ◌-◌, ◌^◌, map, option_map};
ghost use Rattle.pz_syntax.specs.ExpressionView.{view};
ghost use Rattle.pz_syntax.specs.ClassView.{start_view};
ghost use Rattle.pz_parser_cursor.specs.devices.Device.{Reads};
ghost use Rattle.pz_parser_declarations.specs.devices.Sections as spec;

use pz_parser_cursor::{Cursor, Next, Refusal, optional_variables};
use pz_parser_expressions::exprs;
use pz_syntax::pz_items::Items;
use pz_syntax::{Expr, Id, Start, VarGroup};
use std::alloc::Global;

/// The name of the parent, if `extends` stands next.
#[tactic(auto, unfolding(crate::specs::devices::Sections::parent_section, pz_parser_cursor::specs::devices::Device::expect, pz_parser_cursor::specs::devices::Device::past))]
pub fn parent_section(alloc: Global, cursor: &mut Cursor<'_>) -> Result<Option<Id>, Refusal>
    ensures reads { Reads (λ x. x) (spec.parent_section cursor.old) result cursor.new }
{
    if !cursor.eat(Next::Extends) {
        return Ok(None);
    }
    Ok(Some(cursor.expect_id(alloc, Next::Word)?))
}

/// The variables, none or more, if `variables` stands next.
#[tactic(auto, unfolding(crate::specs::devices::Sections::variables_section, pz_parser_cursor::specs::devices::Device::expect, pz_parser_cursor::specs::devices::Device::past))]
pub fn variables_section(
    alloc: Global,
    cursor: &mut Cursor<'_>,
) -> Result<Option<Items<VarGroup>>, Refusal>
    ensures reads { Reads (λ x. x) (spec.variables_section cursor.old) result cursor.new }
{
    if !cursor.eat(Next::Variables) {
        return Ok(None);
    }
    Ok(Some(optional_variables(alloc, cursor)?))
}

/// The call with which a process starts, if `init` stands next. In its arguments at most `depth`
/// constructs stand one in another; its brackets do not count.
#[tactic(auto, unfolding(crate::specs::devices::Sections::start_section, pz_parser_cursor::specs::devices::Device::expect, pz_parser_cursor::specs::devices::Device::past))]
pub fn start_section(
    alloc: Global,
    cursor: &mut Cursor<'_>,
    depth: usize,
) -> Result<Option<Start>, Refusal>
    requires room { depth < 2 ^ 64 - 1 }
    ensures reads { Reads (option_map start_view)
        (spec.start_section depth cursor.old) result cursor.new }
{
    if !cursor.eat(Next::Init) {
        return Ok(None);
    }
    Ok(Some(start(alloc, cursor, depth)?))
}

#[tactic(auto, unfolding(crate::specs::devices::Sections::start))]
fn start(alloc: Global, cursor: &mut Cursor<'_>, depth: usize) -> Result<Start, Refusal>
    requires room { depth < 2 ^ 64 - 1 }
    ensures { Reads start_view (spec.start depth cursor.old) result cursor.new }
{
    let method = cursor.expect_id(alloc, Next::Head)?;
    cursor.expect(Next::LeftParen)?;
    let args = arguments(alloc, cursor, depth)?;
    cursor.expect(Next::RightParen)?;
    cursor.expect(Next::LeftParen)?;
    cursor.expect(Next::RightParen)?;
    Ok(Start { method, args })
}

/// Expressions with commas between them, or none where a `)` stands next.
#[tactic(auto, unfolding(crate::specs::devices::Sections::start_arguments, pz_parser_expressions::specs::devices::Values::exprs_before))]
fn arguments(alloc: Global, cursor: &mut Cursor<'_>, depth: usize) -> Result<Items<Expr>, Refusal>
    requires room { depth < 2 ^ 64 - 1 }
    ensures { Reads (map view) (spec.start_arguments depth cursor.old) result cursor.new }
{
    if cursor.sees(Next::RightParen) {
        Ok(Items::new(alloc))
    } else {
        exprs(alloc, cursor, depth, Next::Comma)
    }
}
