// The parts of a declaration that rules on instances speak of.

ghost use Rattle.std.specs.Prelude.{◌≡◌, []};
ghost use Rattle.std.specs.Option.{unwrap_or, option_map_or};
ghost use Rattle.pz_classes_code.specs.pz_syntax.ClassView.{decl_view, model_view};
ghost use Rattle.pz_classes.specs.pz_classes_rules.Numbers.{declaration as declared};
ghost use Rattle.pz_classes.specs.pz_classes_rules.Members as members;
ghost use Rattle.pz_classes.specs.pz_classes_rules.Members.{grouped};
ghost use Rattle.pz_classes.specs.pz_classes_rules.Instances as spec;

use pz_classes::declaration;
use pz_classes_code::pz_items::Items;
use pz_classes_code::pz_syntax::{Decl, Given, Id, Instance, Model, VarGroup};

/// What a section has, nothing where it is not written.
fn written<T>(section: &Option<Items<T>>) -> &[T]
    ensures { result.now ≡ unwrap_or section.now [] }
{
    match section {
        Some(items) => items.as_slice(),
        None => &[],
    }
}

/// The parameters that a class itself declares.
fn own_parameters(decl: &Decl) -> &[VarGroup]
    ensures { grouped result.now ≡ spec.own_parameters (decl_view decl.now) }
{
    match decl {
        Decl::Data(_) => &[],
        Decl::Process(class) => written(&class.parameters),
        Decl::Cluster(class) => written(&class.parameters),
        Decl::System(_) => &[],
    }
}

/// The ports that a class itself declares.
fn own_ports(decl: &Decl) -> &[Id]
    ensures { result.now ≡ members.own_ports (decl_view decl.now) }
{
    match decl {
        Decl::Data(_) => &[],
        Decl::Process(class) => written(&class.ports),
        Decl::Cluster(class) => written(&class.ports),
        Decl::System(_) => &[],
    }
}

/// The parameters that the class of this number itself declares.
pub(crate) fn parameters_at(model: &Model, class: u32) -> &[VarGroup]
    ensures { grouped result.now ≡ option_map_or spec.own_parameters
        (declared (model_view model.now) class) [] }
{
    match declaration(model, class) {
        Some(decl) => own_parameters(decl),
        None => &[],
    }
}

/// The ports that the class of this number itself declares.
pub(crate) fn ports_at(model: &Model, class: u32) -> &[Id]
    ensures { result.now ≡ option_map_or members.own_ports
        (declared (model_view model.now) class) [] }
{
    match declaration(model, class) {
        Some(decl) => own_ports(decl),
        None => &[],
    }
}

/// What an instance is given.
pub(crate) fn given_of(instance: &Instance) -> &[Given]
    ensures { result.now ≡ unwrap_or instance.now.given [] }
{
    written(&instance.given)
}
