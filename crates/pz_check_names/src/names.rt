// Names that classes and methods declare, in nested scopes.

ghost use Rattle.std.specs.Prelude.{◌≡◌, [], ◌∷◌, ◌++◌, List, IfOk, OnOk};
ghost use Rattle.std.specs.List.{list_any};
ghost use Rattle.std.specs.Option.{unwrap_or};
ghost use Rattle.pz_classes_code.specs.pz_syntax.declared.names.Id.{Id as Named};
ghost use Rattle.pz_classes_mentions.specs.Stretches.{local_names};
ghost use Rattle.pz_classes.specs.pz_classes_rules.Members.{grouped, section};
ghost use Rattle.pz_check_names.specs.devices.Shown.{ShowsNames};
ghost use Rattle.pz_classes.specs.pz_classes_rules.Words.{is_among};

use pz_check_scopes::Nested;
use pz_classes_code::pz_items::Items;
use pz_classes_code::pz_syntax::{Id, Name, VarGroup};
use pz_classes_mentions::Locals;
use std::alloc::{AllocError, Global};

/// One scope with the names of these variables. The only error is want of memory.
pub(crate) fn scope_of(alloc: Global, locals: Locals) -> Result<Nested<&[u8], ()>, AllocError>
    ensures { IfOk result (ShowsNames (local_names locals.entry ∷ [])) }
{
    let mut names = Nested::new(alloc);
    names.open()?;
    note_groups(&mut names, locals.inputs)?;
    note_groups(&mut names, locals.outputs)?;
    note_groups(&mut names, locals.others)?;
    Ok(names)
}

/// Notes these names. The only error is want of memory.
fn note_ids<'a>(names: &mut Nested<&'a [u8], ()>, ids: &'a [Id]) -> Result<(), AllocError>
    ensures { (own : List Named) (outer : List (List Named)) → ShowsNames (own ∷ outer) names.old →
        OnOk result (ShowsNames ((own ++ ids.now) ∷ outer) names.new) }
{
    for id in ids {
        names.note(id.name.as_str().as_bytes(), ())?;
    }
    Ok(())
}

fn note_groups<'a>(
    names: &mut Nested<&'a [u8], ()>,
    groups: &'a [VarGroup],
) -> Result<(), AllocError>
    ensures { (own : List Named) (outer : List (List Named)) → ShowsNames (own ∷ outer) names.old →
        OnOk result (ShowsNames ((own ++ grouped groups.now) ∷ outer) names.new) }
{
    for group in groups {
        note_ids(names, group.names.as_slice())?;
    }
    Ok(())
}

/// Notes the names of a section. The only error is want of memory.
pub(crate) fn note_section<'a>(
    names: &mut Nested<&'a [u8], ()>,
    groups: &'a Option<Items<VarGroup>>,
) -> Result<(), AllocError>
    ensures { (own : List Named) (outer : List (List Named)) → ShowsNames (own ∷ outer) names.old →
        OnOk result (ShowsNames ((own ++ section groups.now) ∷ outer) names.new) }
{
    match groups {
        None => Ok(()),
        Some(groups) => note_groups(names, groups.as_slice()),
    }
}

/// Notes these names, if they are written. The only error is want of memory.
pub(crate) fn note_optional<'a>(
    names: &mut Nested<&'a [u8], ()>,
    ids: &'a Option<Items<Id>>,
) -> Result<(), AllocError>
    ensures { (own : List Named) (outer : List (List Named)) → ShowsNames (own ∷ outer) names.old →
        OnOk result (ShowsNames ((own ++ unwrap_or ids.now []) ∷ outer) names.new) }
{
    match ids {
        None => Ok(()),
        Some(ids) => note_ids(names, ids.as_slice()),
    }
}

/// Whether the name is noted in a scope.
pub(crate) fn has_name(names: &Nested<&[u8], ()>, name: &Name) -> bool
    ensures { (lists : List (List Named)) → ShowsNames lists names.now →
        result ≡ list_any (λ ids. is_among ids name.now) lists }
{
    names.get(name.as_str().as_bytes()).is_some()
}
