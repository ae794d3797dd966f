//! The messages that a process class declares.

ghost use Rattle.std.specs.Prelude.{◌≡◌};
ghost use Rattle.pz_parser_cursor.specs.devices.Device.{Reads};
ghost use Rattle.pz_parser_cursor.specs.devices.Lists as lists;
ghost use Rattle.pz_parser_cursor.specs.declared.ahead.Next.TheVariants as n;
ghost use Rattle.pz_parser_declarations.specs.devices.Sections as spec;

use pz_parser_cursor::{Cursor, Next, Refusal, optional_names};
use pz_syntax::pz_items::Items;
use pz_syntax::{Id, Message};
use std::alloc::Global;

/// The messages of a process class, none or more, if `messages` stands next.
#[tactic(auto, unfolding(crate::specs::devices::Sections::messages_section, pz_parser_cursor::specs::devices::Device::expect, pz_parser_cursor::specs::devices::Device::past))]
pub fn messages_section(
    alloc: Global,
    cursor: &mut Cursor<'_>,
) -> Result<Option<Items<Message>>, Refusal>
    ensures reads { Reads (λ x. x) (spec.messages_section cursor.old) result cursor.new }
{
    if !cursor.eat(Next::Messages) {
        return Ok(None);
    }
    Ok(Some(optional_messages(alloc, cursor)?))
}

#[tactic(auto, unfolding(crate::specs::devices::Sections::optional_messages))]
fn optional_messages(alloc: Global, cursor: &mut Cursor<'_>) -> Result<Items<Message>, Refusal>
    ensures { Reads (λ x. x) (spec.optional_messages cursor.old) result cursor.new }
{
    if cursor.sees(Next::Word) {
        messages(alloc, cursor)
    } else {
        Ok(Items::new(alloc))
    }
}

#[tactic(auto, unfolding(crate::specs::devices::Sections::messages, pz_parser_cursor::specs::devices::Lists::list_of))]
fn messages(alloc: Global, cursor: &mut Cursor<'_>) -> Result<Items<Message>, Refusal>
    ensures { Reads (λ x. x) (spec.messages cursor.old) result cursor.new }
{
    let mut found = Items::new(alloc);
    found.push(message(alloc, cursor)?)?;
    more_messages(alloc, cursor, found)
}

#[tactic(auto, unfolding(pz_parser_cursor::specs::devices::Lists::more_of, pz_parser_cursor::specs::devices::Lists::tail_of))]
fn more_messages(
    alloc: Global,
    cursor: &mut Cursor<'_>,
    mut found: Items<Message>,
) -> Result<Items<Message>, Refusal>
    ensures { Reads (λ x. x) (lists.more_of spec.message n.Comma found cursor.old) result
        cursor.new }
{
    for _turn in 0..cursor.left() {
        if !cursor.eat(Next::Comma) {
            return Ok(found);
        }
        found.push(message(alloc, cursor)?)?;
    }
    Ok(found)
}

/// A port, the direction, the name of the message, and the types of its parameters if a `(` stands
/// behind it.
#[tactic(auto, unfolding(crate::specs::devices::Sections::message))]
fn message(alloc: Global, cursor: &mut Cursor<'_>) -> Result<Message, Refusal>
    ensures { Reads (λ x. x) (spec.message cursor.old) result cursor.new }
{
    let port = cursor.expect_id(alloc, Next::Word)?;
    let out = direction(cursor)?;
    let name = cursor.expect_id(alloc, Next::Word)?;
    let types = optional_types(alloc, cursor)?;
    Ok(Message {
        port,
        out,
        name,
        types,
    })
}

/// Whether the message goes out: `!` or `?`.
#[tactic(auto, unfolding(crate::specs::devices::Sections::direction))]
fn direction(cursor: &mut Cursor<'_>) -> Result<bool, Refusal>
    ensures { Reads (λ x. x) (spec.direction cursor.old) result cursor.new }
{
    match cursor.peek() {
        Next::Bang => {
            cursor.skip();
            Ok(true)
        }
        Next::Query => {
            cursor.skip();
            Ok(false)
        }
        _ => Err(cursor.refuse()),
    }
}

#[tactic(auto, unfolding(crate::specs::devices::Sections::optional_types))]
fn optional_types(alloc: Global, cursor: &mut Cursor<'_>) -> Result<Option<Items<Id>>, Refusal>
    ensures { Reads (λ x. x) (spec.optional_types cursor.old) result cursor.new }
{
    if cursor.sees(Next::LeftParen) {
        Ok(Some(types(alloc, cursor)?))
    } else {
        Ok(None)
    }
}

#[tactic(auto, unfolding(crate::specs::devices::Sections::types))]
fn types(alloc: Global, cursor: &mut Cursor<'_>) -> Result<Items<Id>, Refusal>
    ensures { Reads (λ x. x) (spec.types cursor.old) result cursor.new }
{
    cursor.expect(Next::LeftParen)?;
    let names = optional_names(alloc, cursor)?;
    cursor.expect(Next::RightParen)?;
    Ok(names)
}
