// What classes inherit by name.

ghost use Rattle.std.specs.Prelude.{◌≡◌, ◌++◌, map, IfOk, OnOk};
ghost use Rattle.pz_classes.specs.pz_syntax.ClassView.{decl_view, model_view};
ghost use Rattle.pz_check_duplicates.specs.devices.Names.{id_of};
ghost use Rattle.pz_check_duplicates.specs.declared.inherited.Inherited.TheVariants.{Fields, Variables, Ports};
ghost use Rattle.pz_check_duplicates.specs.devices.RepeatList.{own_of, own_at};

use crate::names::{push_optional, push_section};
use crate::places::Thing;
use pz_classes::declaration;
use pz_classes::pz_items::Items;
use pz_classes::pz_syntax::{Decl, Model};
use std::alloc::{AllocError, Global};

/// What a class inherits by name.
#[derive(Clone, Copy, Debug, PartialEq, Eq)]
pub(crate) enum Inherited {
    Fields,
    /// The parameters and variables of process classes.
    Variables,
    Ports,
}

fn push_fields<'a>(names: &mut Items<Thing<&'a [u8]>>, decl: &'a Decl) -> Result<(), AllocError>
    ensures { OnOk result (map id_of names.new ≡ map id_of names.old ++ own_of Fields
        (decl_view decl.now)) }
{
    match decl {
        Decl::Data(class) => push_section(names, &class.variables),
        _ => Ok(()),
    }
}

fn push_variables<'a>(names: &mut Items<Thing<&'a [u8]>>, decl: &'a Decl) -> Result<(), AllocError>
    ensures { OnOk result (map id_of names.new ≡ map id_of names.old ++ own_of Variables
        (decl_view decl.now)) }
{
    match decl {
        Decl::Process(class) => {
            push_section(names, &class.parameters)?;
            push_section(names, &class.variables)
        }
        _ => Ok(()),
    }
}

fn push_ports<'a>(names: &mut Items<Thing<&'a [u8]>>, decl: &'a Decl) -> Result<(), AllocError>
    ensures { OnOk result (map id_of names.new ≡ map id_of names.old ++ own_of Ports
        (decl_view decl.now)) }
{
    match decl {
        Decl::Process(class) => push_optional(names, &class.ports),
        Decl::Cluster(class) => push_optional(names, &class.ports),
        _ => Ok(()),
    }
}

/// Adds the names of this sort that a class itself declares.
fn push_own<'a>(
    names: &mut Items<Thing<&'a [u8]>>,
    decl: &'a Decl,
    sort: Inherited,
) -> Result<(), AllocError>
    ensures { OnOk result (map id_of names.new ≡ map id_of names.old ++ own_of sort
        (decl_view decl.now)) }
{
    match sort {
        Inherited::Fields => push_fields(names, decl),
        Inherited::Variables => push_variables(names, decl),
        Inherited::Ports => push_ports(names, decl),
    }
}

/// The names of this sort that the class of this number itself declares. The only error is want of
/// memory.
pub(crate) fn own_names<'a>(
    alloc: Global,
    model: &'a Model,
    class: u32,
    sort: Inherited,
) -> Result<Items<Thing<&'a [u8]>>, AllocError>
    ensures { IfOk result (λ names. map id_of names ≡ own_at sort (model_view model.now) class) }
{
    let mut names = Items::new(alloc);
    if let Some(decl) = declaration(model, class) {
        push_own(&mut names, decl, sort)?;
    }
    Ok(names)
}
