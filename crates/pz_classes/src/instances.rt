// The instances and channels of a cluster class or of the system.

ghost use Rattle.std.specs.Prelude.{◌≡◌, ◌||◌, false, [], IfSome};
ghost use Rattle.std.specs.Option.{option_map, option_map_or, unwrap_or};
ghost use Rattle.pz_classes_code.specs.pz_syntax.ClassView.{decl_view, model_view};
ghost use Rattle.pz_classes_rules.specs.Numbers as numbers;
ghost use Rattle.pz_classes_rules.specs.Kinds as kinds;
ghost use Rattle.pz_classes_rules.specs.Kinds.{is_process, is_cluster};
ghost use Rattle.pz_classes_rules.specs.Instances as spec;
ghost use Rattle.pz_classes_rules.specs.ClassNames.{class_id};
ghost use Rattle.pz_classes.specs.Tables.{HasClass};
ghost use Rattle.pz_classes.specs.devices.Rows.{AreClasses};

use crate::Classes;
use crate::declarations::declaration;
use pz_classes_code::pz_items::Items;
use pz_classes_code::pz_syntax::{Channel, Decl, Instance, Model, Name};
use pz_classes_code::pz_value::ClassId;
use pz_classes_code::{is_primitive, is_unsupported};

/// What a section has, nothing where it is not written.
fn written<T>(section: &Option<Items<T>>) -> &[T]
    ensures { result.now ≡ unwrap_or section.now [] }
{
    match section {
        Some(items) => items.as_slice(),
        None => &[],
    }
}

/// The instances that stand in the class that is declared.
pub fn instances_of(decl: &Decl) -> &[Instance]
    ensures { result.now ≡ spec.instances (decl_view decl.now) }
{
    match decl {
        Decl::Data(_) => &[],
        Decl::Process(_) => &[],
        Decl::Cluster(class) => written(&class.instances),
        Decl::System(system) => written(&system.instances),
    }
}

/// The channels of the class that is declared.
pub fn channels_of(decl: &Decl) -> &[Channel]
    ensures { result.now ≡ spec.channels (decl_view decl.now) }
{
    match decl {
        Decl::Data(_) => &[],
        Decl::Process(_) => &[],
        Decl::Cluster(class) => written(&class.channels),
        Decl::System(system) => written(&system.channels),
    }
}

fn is_process(decl: &Decl) -> bool
    ensures { result ≡ kinds.is_process (decl_view decl.now) }
{
    matches!(decl, Decl::Process(_))
}

/// Whether a cluster class is declared.
pub fn is_cluster(decl: &Decl) -> bool
    ensures { result ≡ kinds.is_cluster (decl_view decl.now) }
{
    matches!(decl, Decl::Cluster(_))
}

/// Whether it is a process class or a cluster class.
fn may_have_instances(model: &Model, class: ClassId) -> bool
    ensures { result ≡ (option_map_or is_process
        (numbers.declaration (model_view model.now) class.0) false || option_map_or is_cluster
        (numbers.declaration (model_view model.now) class.0) false) }
{
    match declaration(model, class.0) {
        Some(decl) => is_process(decl) || is_cluster(decl),
        None => false,
    }
}

/// The class of this name, if it may have instances: a process class or a cluster class.
pub fn class_of_instance(model: &Model, classes: &Classes, name: &Name) -> Option<ClassId>
    requires { ∥ AreClasses (model_view model.now) classes.now ∥₁ }
    ensures class { result ≡ option_map class_id
        (spec.instance_class (model_view model.now) name.now) }
    ensures belongs { IfSome result (HasClass classes.now) }
{
    if is_unsupported(name) || is_primitive(name) {
        return None;
    }
    match classes.class(name.as_str().as_bytes()) {
        Some(class) => if may_have_instances(model, class) {
            Some(class)
        } else {
            None
        },
        None => None,
    }
}
