// What a rule asks of a name.

ghost use Rattle.std.specs.Prelude.{◌≡◌, IfOk};
ghost use Rattle.std.specs.Option.{option_copied, option_map, option_and_then};
ghost use Rattle.pz_classes_code.specs.pz_syntax.Classes.{ModelTree};
ghost use Rattle.pz_classes_code.specs.pz_syntax.ClassView.{decl_view, model_view};
ghost use Rattle.pz_classes.specs.pz_classes_rules.Kinds as kinds;
ghost use Rattle.pz_classes.specs.pz_classes_rules.NameRules as names;
ghost use Rattle.pz_classes.specs.pz_classes_rules.Numbers as numbers;
ghost use Rattle.pz_classes.specs.pz_classes_rules.CallRules as calls;
ghost use Rattle.pz_classes.specs.devices.Rows.{AreClasses};

use pz_classes::{Classes, declaration};
use pz_classes_code::pz_syntax::{Decl, Model, Name};
use pz_classes_code::{is_array, is_primitive};

/// The number of the class of this name.
fn number_of(classes: &Classes, name: &Name) -> Option<u32>
    ensures { (m : ModelTree) → AreClasses m classes.now → result ≡ numbers.class m name.now }
{
    match classes.class(name.as_str().as_bytes()) {
        Some(class) => Some(class.0),
        None => None,
    }
}

/// The declaration of the class of this name.
fn class_named<'a>(model: &'a Model, classes: &Classes, name: &Name) -> Option<&'a Decl>
    requires { AreClasses (model_view model.now) classes.now }
    ensures { option_map decl_view (option_copied result) ≡ option_and_then
        (numbers.declaration (model_view model.now))
        (numbers.class (model_view model.now) name.now) }
{
    match number_of(classes, name) {
        Some(number) => declaration(model, number),
        None => None,
    }
}

/// Whether the model declares a data class by this name.
fn is_data_class(model: &Model, classes: &Classes, name: &Name) -> bool
    requires { AreClasses (model_view model.now) classes.now }
    ensures { result ≡ kinds.is_declared_as kinds.is_data (model_view model.now) name.now }
{
    match class_named(model, classes, name) {
        Some(decl) => matches!(decl, Decl::Data(_)),
        None => false,
    }
}

/// Whether it is a primitive class or a data class.
pub(crate) fn is_type(model: &Model, classes: &Classes, name: &Name) -> bool
    requires { AreClasses (model_view model.now) classes.now }
    ensures { result ≡ names.is_type (model_view model.now) name.now }
{
    is_primitive(name) || is_data_class(model, classes, name)
}

/// Whether `new` may create one.
pub(crate) fn may_create(model: &Model, classes: &Classes, name: &Name) -> bool
    requires { AreClasses (model_view model.now) classes.now }
    ensures { result ≡ names.may_create (model_view model.now) name.now }
{
    if is_primitive(name) {
        return is_array(name);
    }
    is_data_class(model, classes, name)
}

/// Whether it is a process class or a cluster class.
pub(crate) fn has_instances(model: &Model, classes: &Classes, name: &Name) -> bool
    requires { AreClasses (model_view model.now) classes.now }
    ensures { result ≡ names.has_instances (model_view model.now) name.now }
{
    if is_primitive(name) {
        return false;
    }
    match class_named(model, classes, name) {
        Some(decl) => matches!(decl, Decl::Process(_) | Decl::Cluster(_)),
        None => false,
    }
}

fn is_primitive_without(name: &str) -> bool
    ensures { result ≡ calls.is_primitive_selector name.now 0 }
{
    name == "isNil"
        || name == "abs"
        || name == "asString"
        || name == "not"
        || name == "asInteger"
        || name == "size"
}

fn is_primitive_with_one(name: &str) -> bool
    ensures { result ≡ calls.is_primitive_selector name.now 1 }
{
    name == "div"
        || name == "modulo"
        || name == "min"
        || name == "max"
        || name == "xor"
        || name == "concat"
        || name == "get"
        || name == "resize"
}

/// Whether primitive values have this selector with so many arguments.
pub(crate) fn is_primitive_selector(name: &Name, count: usize) -> bool
    ensures { result ≡ calls.is_primitive_selector name.now count }
{
    let name = name.as_str();
    match count {
        0 => is_primitive_without(name),
        1 => is_primitive_with_one(name),
        2 => name == "put",
        _ => false,
    }
}
