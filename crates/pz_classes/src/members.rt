// The fields, variables and ports of a class.

ghost use Rattle.std.specs.Prelude.{◌≡◌, ◌++◌, [], IfOk, OnOk};
ghost use Rattle.std.specs.Option.{unwrap_or};
ghost use Rattle.pz_classes_code.specs.pz_syntax.ClassView.{decl_view, model_view};
ghost use Rattle.pz_classes_rules.specs.Members.{spelled, grouped, section};
ghost use Rattle.pz_classes.specs.devices.Inherited.{Adds, AddsAt, none_yet};
ghost use Rattle.pz_classes.specs.devices.Fronts.{lengths};

use crate::declarations::declaration;
use pz_classes_code::pz_items::Items;
use pz_classes_code::pz_syntax::{Decl, Id, Model, Name, VarGroup};
use std::alloc::{AllocError, Global};

/// Names of fields, variables and ports, in the order in which classes declare them.
#[derive(Drop)]
pub(crate) struct Members {
    pub(crate) fields: Items<Name>,
    pub(crate) variables: Items<Name>,
    pub(crate) ports: Items<Name>,
}

/// How many fields, variables and ports there are.
#[derive(Clone, Copy, PartialEq, Eq)]
pub(crate) struct Lengths {
    pub(crate) fields: usize,
    pub(crate) variables: usize,
    pub(crate) ports: usize,
}

fn push_ids(names: &mut Items<Name>, ids: &[Id]) -> Result<(), AllocError>
    ensures { OnOk result (names.new ≡ names.old ++ spelled ids.now) }
{
    for id in ids {
        names.push(id.name.copy()?)?;
    }
    Ok(())
}

pub(crate) fn push_groups(names: &mut Items<Name>, groups: &[VarGroup]) -> Result<(), AllocError>
    ensures { OnOk result (names.new ≡ names.old ++ spelled (grouped groups.now)) }
{
    for group in groups {
        push_ids(names, group.names.as_slice())?;
    }
    Ok(())
}

pub(crate) fn push_section(
    names: &mut Items<Name>,
    groups: &Option<Items<VarGroup>>,
) -> Result<(), AllocError>
    ensures { OnOk result (names.new ≡ names.old ++ spelled (section groups.now)) }
{
    match groups {
        None => Ok(()),
        Some(groups) => push_groups(names, groups.as_slice()),
    }
}

fn push_optional(names: &mut Items<Name>, ids: &Option<Items<Id>>) -> Result<(), AllocError>
    ensures { OnOk result (names.new ≡ names.old ++ spelled (unwrap_or ids.now [])) }
{
    match ids {
        None => Ok(()),
        Some(ids) => push_ids(names, ids.as_slice()),
    }
}

impl Members {
    /// No name yet. Takes no memory.
    pub(crate) fn new(alloc: Global) -> Members
        ensures { result ≡ none_yet }
    {
        Members {
            fields: Items::new(alloc),
            variables: Items::new(alloc),
            ports: Items::new(alloc),
        }
    }

    /// How many there are.
    pub(crate) fn lengths(&self) -> Lengths
        ensures { result ≡ lengths self.now }
    {
        Lengths {
            fields: self.fields.len(),
            variables: self.variables.len(),
            ports: self.ports.len(),
        }
    }

    /// Adds what the class of this declaration has of its own. The only error is want of memory.
    fn add_own(&mut self, decl: &Decl) -> Result<(), AllocError>
        ensures { OnOk result (Adds (decl_view decl.now) self.old self.new) }
    {
        match decl {
            Decl::Data(class) => push_section(&mut self.fields, &class.variables),
            Decl::Process(class) => {
                push_section(&mut self.variables, &class.parameters)?;
                push_section(&mut self.variables, &class.variables)?;
                push_optional(&mut self.ports, &class.ports)
            }
            Decl::Cluster(class) => push_optional(&mut self.ports, &class.ports),
            Decl::System(_) => Ok(()),
        }
    }

    /// Adds what the class of this number has of its own. The only error is want of memory.
    pub(crate) fn add_own_of(&mut self, model: &Model, class: u32) -> Result<(), AllocError>
        ensures { OnOk result (AddsAt (model_view model.now) class self.old self.new) }
    {
        match declaration(model, class) {
            Some(decl) => self.add_own(decl),
            None => Ok(()),
        }
    }
}
