// Names that repeat one another.

ghost use Rattle.std.specs.Prelude.{◌≡◌, ◌++◌, [], map, IfOk, OnOk};
ghost use Rattle.std.specs.Option.{unwrap_or};
ghost use Rattle.pz_classes.specs.pz_syntax.declared.clusters.Instance.{Instance as Tree};
ghost use Rattle.pz_check_violations.specs.Least.{least_from};
ghost use Rattle.pz_classes_mentions.specs.Stretches.{local_names};
ghost use Rattle.pz_classes.specs.pz_classes_rules.Members.{grouped, section};
ghost use Rattle.pz_classes.specs.pz_classes_rules.RepeatRules.{same_name};
ghost use Rattle.pz_check_duplicates.specs.devices.Again.{repeats};
ghost use Rattle.pz_check_duplicates.specs.devices.Names.{id_of, id_place};

use crate::again::least_again;
use crate::places::Thing;
use pz_check_violations::Violation;
use pz_classes::pz_items::Items;
use pz_classes::pz_syntax::{Id, Instance, VarGroup};
use pz_classes_mentions::Locals;
use std::alloc::{AllocError, Global};

fn name_thing(id: &Id) -> Thing<&[u8]>
    ensures { id_of result ≡ id.now }
{
    Thing {
        key: id.name.as_str().as_bytes(),
        place: id.pos,
    }
}

/// Adds these names. The only error is want of memory.
pub(crate) fn push_ids<'a>(
    things: &mut Items<Thing<&'a [u8]>>,
    ids: &'a [Id],
) -> Result<(), AllocError>
    ensures { OnOk result (map id_of things.new ≡ map id_of things.old ++ ids.now) }
{
    for id in ids {
        things.push(name_thing(id))?;
    }
    Ok(())
}

fn push_groups<'a>(
    things: &mut Items<Thing<&'a [u8]>>,
    groups: &'a [VarGroup],
) -> Result<(), AllocError>
    ensures { OnOk result (map id_of things.new ≡ map id_of things.old ++ grouped groups.now) }
{
    for group in groups {
        push_ids(things, group.names.as_slice())?;
    }
    Ok(())
}

/// Adds the names of a section. The only error is want of memory.
pub(crate) fn push_section<'a>(
    things: &mut Items<Thing<&'a [u8]>>,
    groups: &'a Option<Items<VarGroup>>,
) -> Result<(), AllocError>
    ensures { OnOk result (map id_of things.new ≡ map id_of things.old ++ section groups.now) }
{
    match groups {
        None => Ok(()),
        Some(groups) => push_groups(things, groups.as_slice()),
    }
}

/// Adds the names of the variables of a part of a declaration. The only error is want of memory.
fn push_locals<'a>(
    things: &mut Items<Thing<&'a [u8]>>,
    locals: Locals<'a>,
) -> Result<(), AllocError>
    ensures { OnOk result (map id_of things.new ≡ map id_of things.old ++ local_names
        locals.entry) }
{
    push_groups(things, locals.inputs)?;
    push_groups(things, locals.outputs)?;
    push_groups(things, locals.others)
}

/// Adds these names, if they are written. The only error is want of memory.
pub(crate) fn push_optional<'a>(
    things: &mut Items<Thing<&'a [u8]>>,
    ids: &'a Option<Items<Id>>,
) -> Result<(), AllocError>
    ensures { OnOk result (map id_of things.new ≡ map id_of things.old ++ unwrap_or ids.now []) }
{
    match ids {
        None => Ok(()),
        Some(ids) => push_ids(things, ids.as_slice()),
    }
}

/// The least of what was found before and the names that repeat one of these. The only error is
/// want of memory.
pub(crate) fn least_name(
    alloc: Global,
    names: &[Thing<&[u8]>],
    before: Option<Violation>,
) -> Result<Option<Violation>, AllocError>
    ensures { IfOk result (λ least. least ≡ least_from before
        (repeats same_name id_place 4 (map id_of names.now))) }
{
    least_again(alloc, 4, names, before)
}

/// The same for the variables of a part of a declaration.
pub(crate) fn least_variable(
    alloc: Global,
    locals: Locals,
    before: Option<Violation>,
) -> Result<Option<Violation>, AllocError>
    ensures { IfOk result (λ least. least ≡ least_from before
        (repeats same_name id_place 4 (local_names locals.entry))) }
{
    let mut names = Items::new(alloc);
    push_locals(&mut names, locals)?;
    least_name(alloc, names.as_slice(), before)
}

/// The same for the names of instances.
pub(crate) fn least_instance(
    alloc: Global,
    instances: &[Instance],
    before: Option<Violation>,
) -> Result<Option<Violation>, AllocError>
    ensures { IfOk result (λ least. least ≡ least_from before
        (repeats same_name id_place 4 (map (λ (i : Tree). i.name) instances.now))) }
{
    let mut names = Items::new(alloc);
    for instance in instances {
        names.push(name_thing(&instance.name))?;
    }
    least_name(alloc, names.as_slice(), before)
}
