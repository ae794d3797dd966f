//! Channels and their ends.

ghost use Rattle.std.specs.Prelude.{◌≡◌};
ghost use Rattle.pz_parser_cursor.specs.devices.Device.{Reads};
ghost use Rattle.pz_parser_cursor.specs.devices.Lists as lists;
ghost use Rattle.pz_parser_cursor.specs.declared.ahead.Next.TheVariants as n;
ghost use Rattle.pz_parser_declarations.specs.devices.Clusters as spec;

use pz_parser_cursor::{Cursor, Next, Refusal};
use pz_syntax::pz_items::Items;
use pz_syntax::{Channel, ChannelEnd};
use std::alloc::Global;

/// The channels, if `channels` stands next.
#[tactic(auto, unfolding(crate::specs::devices::Clusters::channels_section))]
pub fn channels_section(
    alloc: Global,
    cursor: &mut Cursor<'_>,
) -> Result<Option<Items<Channel>>, Refusal>
    ensures reads { Reads (λ x. x) (spec.channels_section cursor.old) result cursor.new }
{
    if cursor.sees(Next::Channels) {
        cursor.expect(Next::Channels)?;
        Ok(Some(channels(alloc, cursor)?))
    } else {
        Ok(None)
    }
}

/// None or more channels. One begins with a `{`.
#[tactic(auto, unfolding(crate::specs::devices::Clusters::channels, pz_parser_cursor::specs::devices::Lists::each_of, pz_parser_cursor::specs::devices::Lists::repeat))]
fn channels(alloc: Global, cursor: &mut Cursor<'_>) -> Result<Items<Channel>, Refusal>
    ensures { Reads (λ x. x) (spec.channels cursor.old) result cursor.new }
{
    let mut found = Items::new(alloc);
    for _turn in 0..cursor.left() {
        if !cursor.sees(Next::LeftBrace) {
            return Ok(found);
        }
        found.push(channel(alloc, cursor)?)?;
    }
    Ok(found)
}

#[tactic(auto, unfolding(crate::specs::devices::Clusters::one_channel))]
fn channel(alloc: Global, cursor: &mut Cursor<'_>) -> Result<Channel, Refusal>
    ensures { Reads (λ x. x) (spec.one_channel cursor.old) result cursor.new }
{
    let pos = cursor.pos();
    cursor.skip();
    let ends = ends(alloc, cursor)?;
    cursor.expect(Next::RightBrace)?;
    Ok(Channel { pos, ends })
}

/// One end or more, with commas between them.
#[tactic(auto, unfolding(pz_parser_cursor::specs::devices::Lists::list_of))]
fn ends(alloc: Global, cursor: &mut Cursor<'_>) -> Result<Items<ChannelEnd>, Refusal>
    ensures { Reads (λ x. x) (lists.list_of spec.one_end n.Comma cursor.old) result cursor.new }
{
    let mut found = Items::new(alloc);
    found.push(end(alloc, cursor)?)?;
    more_ends(alloc, cursor, found)
}

#[tactic(auto, unfolding(pz_parser_cursor::specs::devices::Lists::more_of, pz_parser_cursor::specs::devices::Lists::tail_of))]
fn more_ends(
    alloc: Global,
    cursor: &mut Cursor<'_>,
    mut found: Items<ChannelEnd>,
) -> Result<Items<ChannelEnd>, Refusal>
    ensures { Reads (λ x. x) (lists.more_of spec.one_end n.Comma found cursor.old) result
        cursor.new }
{
    for _turn in 0..cursor.left() {
        if !cursor.eat(Next::Comma) {
            return Ok(found);
        }
        found.push(end(alloc, cursor)?)?;
    }
    Ok(found)
}

/// A port of an instance, behind its name and a dot, or a port of the cluster itself.
#[tactic(auto, unfolding(crate::specs::devices::Clusters::one_end))]
fn end(alloc: Global, cursor: &mut Cursor<'_>) -> Result<ChannelEnd, Refusal>
    ensures { Reads (λ x. x) (spec.one_end cursor.old) result cursor.new }
{
    let name = cursor.expect_id(alloc, Next::Word)?;
    if cursor.eat(Next::Dot) {
        Ok(ChannelEnd::Inner(name, cursor.expect_id(alloc, Next::Word)?))
    } else {
        Ok(ChannelEnd::Outer(name))
    }
}
