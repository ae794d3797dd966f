//! Process methods and process classes.

ghost use Rattle.std.specs.Prelude.{◌≡◌, ◌<◌, ◌-◌, ◌^◌, map, option_map};
ghost use Rattle.pz_syntax.specs.ClassView.{process_method_view, process_class_view};
ghost use Rattle.pz_parser_cursor.specs.devices.Device.{Reads, behind};
ghost use Rattle.pz_parser_cursor.specs.declared.ahead.Next.TheVariants as n;
ghost use Rattle.pz_parser.specs.devices.Processes as spec;

use pz_parser_cursor::{
    Cursor, Next, Refusal, formal, optional_formal, optional_locals, ports_section,
};
use pz_parser_declarations::{messages_section, parent_section, start_section, variables_section};
use pz_parser_statements::stmts;
use pz_syntax::pz_items::Items;
use pz_syntax::{ProcessClass, ProcessMethod};
use std::alloc::Global;

/// A process class from `process` on. In its start and in its methods at most `depth` constructs
/// stand one in another.
#[tactic(auto, unfolding(crate::specs::devices::Processes::process_class))]
pub fn process_class(
    alloc: Global,
    cursor: &mut Cursor<'_>,
    depth: usize,
) -> Result<ProcessClass, Refusal>
    requires room { depth < 2 ^ 64 - 1 }
    ensures reads { Reads process_class_view (spec.process_class depth cursor.old) result
        cursor.new }
{
    cursor.expect(Next::Process)?;
    cursor.expect(Next::Class)?;
    let name = cursor.expect_id(alloc, Next::Word)?;
    let parameters = optional_formal(alloc, cursor)?;
    let parent = parent_section(alloc, cursor)?;
    let ports = ports_section(alloc, cursor)?;
    let messages = messages_section(alloc, cursor)?;
    let variables = variables_section(alloc, cursor)?;
    let start = start_section(alloc, cursor, depth)?;
    let methods = methods_section(alloc, cursor, depth)?;
    Ok(ProcessClass {
        name,
        parameters,
        parent,
        ports,
        messages,
        variables,
        start,
        methods,
    })
}

#[tactic(auto, unfolding(crate::specs::devices::Processes::process_methods_section))]
fn methods_section(
    alloc: Global,
    cursor: &mut Cursor<'_>,
    depth: usize,
) -> Result<Option<Items<ProcessMethod>>, Refusal>
    requires room { depth < 2 ^ 64 - 1 }
    ensures { Reads (option_map (map process_method_view))
        (spec.process_methods_section depth cursor.old) result cursor.new }
{
    if cursor.sees(Next::Methods) {
        Ok(Some(methods_behind(alloc, cursor, depth)?))
    } else {
        Ok(None)
    }
}

fn methods_behind(
    alloc: Global,
    cursor: &mut Cursor<'_>,
    depth: usize,
) -> Result<Items<ProcessMethod>, Refusal>
    requires room { depth < 2 ^ 64 - 1 }
    ensures { Reads (map process_method_view) (behind n.Methods
        (spec.process_methods depth) cursor.old) result cursor.new }
{
    cursor.expect(Next::Methods)?;
    process_methods(alloc, cursor, depth)
}

/// Methods, as long as a head stands next.
#[tactic(auto, unfolding(crate::specs::devices::Processes::process_methods, pz_parser_cursor::specs::devices::Lists::each_of, pz_parser_cursor::specs::devices::Lists::repeat))]
fn process_methods(
    alloc: Global,
    cursor: &mut Cursor<'_>,
    depth: usize,
) -> Result<Items<ProcessMethod>, Refusal>
    requires room { depth < 2 ^ 64 - 1 }
    ensures { Reads (map process_method_view) (spec.process_methods depth cursor.old) result
        cursor.new }
{
    let mut found = Items::new(alloc);
    for _turn in 0..cursor.left() {
        if !cursor.sees(Next::Head) {
            return Ok(found);
        }
        found.push(process_method(alloc, cursor, depth)?)?;
    }
    Ok(found)
}

/// A method from its name on, which stands next.
#[tactic(auto, unfolding(crate::specs::devices::Processes::process_method))]
fn process_method(
    alloc: Global,
    cursor: &mut Cursor<'_>,
    depth: usize,
) -> Result<ProcessMethod, Refusal>
    requires room { depth < 2 ^ 64 - 1 }
    ensures { Reads process_method_view (spec.process_method depth cursor.old) result cursor.new }
{
    let name = cursor.take_id(alloc)?;
    let inputs = formal(alloc, cursor)?;
    let outputs = formal(alloc, cursor)?;
    let locals = optional_locals(alloc, cursor)?;
    let body = stmts(alloc, cursor, depth)?;
    Ok(ProcessMethod {
        name,
        inputs,
        outputs,
        locals,
        body,
    })
}
