//! Declarations and whole models.

ghost use Rattle.std.specs.Prelude.{◌≡◌, ◌<◌, ◌-◌, ◌^◌, map};
ghost use Rattle.pz_syntax.specs.ClassView.{decl_view, model_view};
ghost use Rattle.pz_parser_cursor.specs.devices.Device.{Reads};
ghost use Rattle.pz_parser.specs.devices.Models as spec;

use crate::processes::process_class;
use pz_parser_cursor::{Cursor, Next, Refusal};
use pz_parser_declarations::{cluster_class, data_class, system};
use pz_syntax::pz_items::Items;
use pz_syntax::{Decl, Model};
use std::alloc::Global;

/// A whole model, which all tokens are to make up. At most `depth` constructs stand one in another.
#[tactic(auto, unfolding(crate::specs::devices::Models::model))]
pub fn model(alloc: Global, cursor: &mut Cursor<'_>, depth: usize) -> Result<Model, Refusal>
    requires room { depth < 2 ^ 64 - 1 }
    ensures reads { Reads model_view (spec.model depth cursor.old) result cursor.new }
{
    let decls = decls(alloc, cursor, depth)?;
    end(cursor)?;
    Ok(Model { decls })
}

#[tactic(auto, unfolding(crate::specs::devices::Models::end))]
fn end(cursor: &Cursor<'_>) -> Result<(), Refusal>
    ensures { Reads (λ _. tt) (spec.end cursor.now) result cursor.now }
{
    if cursor.left() == 0 {
        Ok(())
    } else {
        Err(cursor.refuse())
    }
}

/// One declaration or more.
#[tactic(auto, unfolding(crate::specs::devices::Models::decls))]
fn decls(alloc: Global, cursor: &mut Cursor<'_>, depth: usize) -> Result<Items<Decl>, Refusal>
    requires room { depth < 2 ^ 64 - 1 }
    ensures { Reads (map decl_view) (spec.decls depth cursor.old) result cursor.new }
{
    let mut found = Items::new(alloc);
    found.push(decl(alloc, cursor, depth)?)?;
    more_decls(alloc, cursor, depth, found)
}

#[tactic(auto, unfolding(crate::specs::devices::Models::more_decls, pz_parser_cursor::specs::devices::Lists::each_of, pz_parser_cursor::specs::devices::Lists::repeat))]
fn more_decls(
    alloc: Global,
    cursor: &mut Cursor<'_>,
    depth: usize,
    mut found: Items<Decl>,
) -> Result<Items<Decl>, Refusal>
    requires room { depth < 2 ^ 64 - 1 }
    ensures { Reads (map decl_view) (spec.more_decls depth (map decl_view found) cursor.old) result
        cursor.new }
{
    for _turn in 0..cursor.left() {
        if !begins_decl(cursor) {
            return Ok(found);
        }
        found.push(decl(alloc, cursor, depth)?)?;
    }
    Ok(found)
}

#[tactic(auto, unfolding(crate::specs::devices::Models::begins_decl))]
fn begins_decl(cursor: &Cursor<'_>) -> bool
    ensures { result ≡ spec.begins_decl cursor.now }
{
    match cursor.peek() {
        Next::Data => true,
        Next::Process => true,
        Next::Cluster => true,
        Next::System => true,
        _ => false,
    }
}

#[tactic(auto, unfolding(crate::specs::devices::Models::decl))]
fn decl(alloc: Global, cursor: &mut Cursor<'_>, depth: usize) -> Result<Decl, Refusal>
    requires room { depth < 2 ^ 64 - 1 }
    ensures { Reads decl_view (spec.decl depth cursor.old) result cursor.new }
{
    match cursor.peek() {
        Next::Data => Ok(Decl::Data(data_class(alloc, cursor, depth)?)),
        Next::Process => Ok(Decl::Process(process_class(alloc, cursor, depth)?)),
        Next::Cluster => Ok(Decl::Cluster(cluster_class(alloc, cursor)?)),
        Next::System => Ok(Decl::System(system(alloc, cursor)?)),
        _ => Err(cursor.refuse()),
    }
}
