// The tree of a system that a script closes.

ghost use Rattle.std.specs.Prelude.{◌≡◌, ◌++◌, ◌∷◌, ◌≤◌, ℕ, [], map, length, if◌then◌else◌, IfOk, IfErr, OnOk};
ghost use Rattle.std.specs.Option.{unwrap_or};
ghost use Rattle.pz_syntax.specs.Classes.{process_class};
ghost use Rattle.pz_syntax.specs.ClassView.{decl_view, model_view};
ghost use Rattle.pz_env_tree.specs.pz_env_rules.Environment.{lines_of};
ghost use Rattle.pz_env_tree.specs.pz_env_rules.Ends.{first_mentions};
ghost use Rattle.pz_env_tree.specs.EnvironmentClass.{environment_class};
ghost use Rattle.pz_env_tree.specs.ClosedTree.{environment, channel_of, closed_system, closed_decl, closed_tree};
ghost use Rattle.pz_classes.specs.devices.Rows.{AreClasses};
ghost use Rattle.pz_env_tree.specs.Refusals.{IsFirstRefused};
ghost use Rattle.pz_env.specs.declared.error.CloseError.TheVariants.{Refused};
ghost use Rattle.pz_env.specs.devices.Ends.{ends_in, has_end, number_of, with_end, end_of_entry};
ghost use Rattle.pz_env.specs.devices.Making.{channel_at};

use crate::class::{environment_class, place_of};
use crate::ends::EndSet;
use crate::error::CloseError;
use crate::names::{CLASS, FIRST, INSTANCE, id, id_of, port_id};
use crate::refusing::{entries_of, refused_line};
use pz_ast::copy_model;
use pz_classes::Classes;
use pz_env_tree::pz_env_script::{Entry, Script};
use pz_syntax::pz_items::Items;
use pz_syntax::{Channel, ChannelEnd, Decl, Instance, Model, Pos, SystemDecl};
use std::alloc::{AllocError, Global};

/// The channel of the entry's end, with the port of this number. The only error is want of memory.
fn channel(alloc: Global, number: usize, at: Pos, entry: &Entry) -> Result<Channel, AllocError>
    ensures { IfOk result (λ h. h ≡ channel_at at number entry.now) }
{
    let mut ends = Items::new(alloc);
    let port = id_of(&entry.port, at)?;
    ends.push(ChannelEnd::Inner(id_of(&entry.instance, at)?, port))?;
    let port = port_id(alloc, number, at)?;
    ends.push(ChannelEnd::Inner(id(alloc, INSTANCE, at)?, port))?;
    Ok(Channel { pos: at, ends })
}

/// Adds the channel of the entry's end, unless it is there. The only error is want of memory.
fn add_channel<'a>(
    alloc: Global,
    ends: &mut EndSet<'a>,
    channels: &mut Items<Channel>,
    at: Pos,
    entry: &'a Entry,
) -> Result<(), AllocError>
    ensures ends { OnOk result (ends_in ends.new ≡ with_end (ends_in ends.old)
        (end_of_entry entry.now)) }
    ensures channels { OnOk result (channels.new ≡
        (if has_end (ends_in ends.old) (end_of_entry entry.now) then channels.old else
        channels.old ++ channel_at at (number_of (ends_in ends.old) (end_of_entry entry.now))
        entry.now ∷ [])) }
{
    let instance = entry.instance.as_str().as_bytes();
    let end = ends.add(instance, entry.port.as_str().as_bytes())?;
    if end.is_new {
        channels.push(channel(alloc, end.number, at, entry)?)?;
    }
    Ok(())
}

/// Adds a channel for each end that these entries name. The only error is want of memory.
fn add_channels(
    alloc: Global,
    channels: &mut Items<Channel>,
    entries: &[Entry],
) -> Result<(), AllocError>
    requires few { length entries.now ≤ 100000 }
    ensures { OnOk result (channels.new ≡ channels.old ++
        map (channel_of (lines_of entries.now)) (first_mentions (lines_of entries.now))) }
{
    let mut ends = EndSet::new(alloc);
    for (index, entry) in entries.iter().enumerate() {
        add_channel(alloc, &mut ends, channels, place_of(index), entry)?;
    }
    Ok(())
}

/// These, or none.
fn list_of<T: Drop>(alloc: Global, part: Option<Items<T>>) -> Items<T>
    ensures { result ≡ unwrap_or part [] }
{
    match part {
        Some(list) => list,
        None => Items::new(alloc),
    }
}

/// The instance of the environment. The only error is want of memory.
fn instance(alloc: Global) -> Result<Instance, AllocError>
    ensures { IfOk result (λ i. i ≡ environment) }
{
    let class = id(alloc, CLASS, FIRST)?;
    Ok(Instance {
        name: id(alloc, INSTANCE, FIRST)?,
        class,
        given: None,
    })
}

/// The system with the environment. The only error is want of memory.
fn closed_system(
    alloc: Global,
    system: SystemDecl,
    entries: &[Entry],
) -> Result<SystemDecl, AllocError>
    requires few { length entries.now ≤ 100000 }
    ensures { IfOk result (λ s. s ≡ closed_system (lines_of entries.now) system) }
{
    let SystemDecl {
        pos,
        instances,
        channels,
    } = system;
    let mut channels = list_of(alloc, channels);
    add_channels(alloc, &mut channels, entries)?;
    let mut instances = list_of(alloc, instances);
    instances.push(instance(alloc)?)?;
    Ok(SystemDecl {
        pos,
        instances: Some(instances),
        channels: Some(channels),
    })
}

/// The declaration, with the environment if it is that of the system. The only error is want of memory.
fn closed_decl(alloc: Global, decl: Decl, entries: &[Entry]) -> Result<Decl, AllocError>
    requires few { length entries.now ≤ 100000 }
    ensures { IfOk result (λ d. decl_view d ≡
        closed_decl (lines_of entries.now) (decl_view decl)) }
{
    match decl {
        Decl::System(system) => Ok(Decl::System(closed_system(alloc, system, entries)?)),
        other => Ok(other),
    }
}

/// These declarations with the environment, and its class behind them. The only error is want of memory.
fn closed_decls(
    alloc: Global,
    decls: Items<Decl>,
    entries: &[Entry],
) -> Result<Items<Decl>, AllocError>
    requires few { length entries.now ≤ 100000 }
    ensures { IfOk result (λ ds. map decl_view ds ≡
        map (closed_decl (lines_of entries.now)) (map decl_view decls) ++
        process_class (environment_class (lines_of entries.now)) ∷ []) }
{
    let mut closed = Items::new(alloc);
    for decl in decls.into_vec() {
        closed.push(closed_decl(alloc, decl, entries)?)?;
    }
    let class = environment_class(alloc, entries)?;
    closed.push(Decl::Process(class))?;
    Ok(closed)
}

/// The tree of the model's system, closed by these entries. The only error is want of memory.
fn closed_by(alloc: Global, model: &Model, entries: &[Entry]) -> Result<Model, AllocError>
    requires few { length entries.now ≤ 100000 }
    ensures { IfOk result (λ m. model_view m ≡ closed_tree (model_view model.now) entries.now) }
{
    let decls = copy_model(alloc, model)?.into_decls();
    Ok(Model {
        decls: closed_decls(alloc, decls, entries)?,
    })
}

/// The tree of the model's system, closed by the script; or the first line of the script from which on it
/// cannot drive the system. Takes a time that is linear in the model and in what the script says, where
/// the model is sound.
pub fn close(
    alloc: Global,
    model: &Model,
    classes: &Classes,
    script: &Script,
) -> Result<Model, CloseError>
    requires { AreClasses (model_view model.now) classes.now }
    ensures refused { IfErr result (λ e. (line : ℕ) → e ≡ Refused line →
        IsFirstRefused (model_view model.now) script.now line) }
    ensures only { IfOk result (λ _. (line : ℕ) →
        IsFirstRefused (model_view model.now) script.now line → ⊥) }
    ensures tree { IfOk result (λ c. model_view c ≡ closed_tree (model_view model.now)
        script.now) }
{
    match refused_line(alloc, model, classes, script)? {
        Some(line) => Err(CloseError::Refused { line }),
        None => Ok(closed_by(alloc, model, entries_of(script))?),
    }
}
