//! Data classes.

ghost use Rattle.std.specs.Prelude.{◌≡◌, ◌<◌, ◌-◌, ◌^◌, map, option_map};
ghost use Rattle.pz_syntax.specs.ClassView.{data_class_view, data_method_view};
ghost use Rattle.pz_parser_cursor.specs.devices.Device.{Reads};
ghost use Rattle.pz_parser_declarations.specs.devices.DataClasses as spec;

use crate::sections::{parent_section, variables_section};
use pz_parser_cursor::{Cursor, Next, Refusal, optional_formal, optional_locals};
use pz_parser_expressions::exprs;
use pz_syntax::pz_items::Items;
use pz_syntax::{DataClass, DataMethod};
use std::alloc::Global;

/// A data class from `data` on. In its methods at most `depth` constructs stand one in another.
#[tactic(auto, unfolding(crate::specs::devices::DataClasses::data_class))]
pub fn data_class(
    alloc: Global,
    cursor: &mut Cursor<'_>,
    depth: usize,
) -> Result<DataClass, Refusal>
    requires room { depth < 2 ^ 64 - 1 }
    ensures reads { Reads data_class_view (spec.data_class depth cursor.old) result cursor.new }
{
    cursor.expect(Next::Data)?;
    cursor.expect(Next::Class)?;
    let name = cursor.expect_id(alloc, Next::Word)?;
    let parent = parent_section(alloc, cursor)?;
    let variables = variables_section(alloc, cursor)?;
    let methods = methods_section(alloc, cursor, depth)?;
    Ok(DataClass {
        name,
        parent,
        variables,
        methods,
    })
}

#[tactic(auto, unfolding(crate::specs::devices::DataClasses::data_methods_section, pz_parser_cursor::specs::devices::Device::expect, pz_parser_cursor::specs::devices::Device::past))]
fn methods_section(
    alloc: Global,
    cursor: &mut Cursor<'_>,
    depth: usize,
) -> Result<Option<Items<DataMethod>>, Refusal>
    requires room { depth < 2 ^ 64 - 1 }
    ensures { Reads (option_map (map data_method_view))
        (spec.data_methods_section depth cursor.old) result cursor.new }
{
    if !cursor.eat(Next::Methods) {
        return Ok(None);
    }
    Ok(Some(data_methods(alloc, cursor, depth)?))
}

/// Methods, as long as a name of one stands next.
#[tactic(auto, unfolding(crate::specs::devices::DataClasses::data_methods, pz_parser_cursor::specs::devices::Lists::each_of, pz_parser_cursor::specs::devices::Lists::repeat))]
fn data_methods(
    alloc: Global,
    cursor: &mut Cursor<'_>,
    depth: usize,
) -> Result<Items<DataMethod>, Refusal>
    requires room { depth < 2 ^ 64 - 1 }
    ensures { Reads (map data_method_view) (spec.data_methods depth cursor.old) result cursor.new }
{
    let mut found = Items::new(alloc);
    for _turn in 0..cursor.left() {
        if !cursor.sees_selector_head() {
            return Ok(found);
        }
        found.push(data_method(alloc, cursor, depth)?)?;
    }
    Ok(found)
}

/// A method from its name on, which stands next.
#[tactic(auto, unfolding(crate::specs::devices::DataClasses::data_method))]
fn data_method(alloc: Global, cursor: &mut Cursor<'_>, depth: usize) -> Result<DataMethod, Refusal>
    requires room { depth < 2 ^ 64 - 1 }
    ensures { Reads data_method_view (spec.data_method depth cursor.old) result cursor.new }
{
    let name = cursor.take_id(alloc)?;
    let inputs = optional_formal(alloc, cursor)?;
    cursor.expect(Next::Colon)?;
    let result = cursor.expect_id(alloc, Next::Word)?;
    let locals = optional_locals(alloc, cursor)?;
    let body = exprs(alloc, cursor, depth, Next::Semicolon)?;
    Ok(DataMethod {
        name,
        inputs,
        result,
        locals,
        body,
    })
}
