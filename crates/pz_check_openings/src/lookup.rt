// The classes of a checked model.

ghost use Rattle.std.specs.Prelude.{◌≡◌, ◌<◌, ◌+◌, false, length};
ghost use Rattle.std.specs.Option.{option_map_or};
ghost use Rattle.pz_classes.specs.pz_value.declared.value.ClassId.{ClassId as Number};
ghost use Rattle.pz_classes.specs.CheckedView.{checked_model, checked_classes};
ghost use Rattle.pz_classes.specs.pz_classes_rules.Kinds as kinds;
ghost use Rattle.pz_classes.specs.pz_classes_rules.Methods as methods;
ghost use Rattle.pz_classes.specs.pz_classes_rules.Numbers as numbers;
ghost use Rattle.pz_classes.specs.Tables.{HasClass};

use pz_classes::pz_syntax::{Decl, Name};
use pz_classes::pz_value::ClassId;
use pz_classes::{Checked, MethodId, declaration};

/// How many numbers of classes there are.
pub(crate) fn count(checked: &Checked) -> u32
    ensures count { result ≡ length (checked_model checked.now).decls + 1 }
    ensures belongs { (class : Number) → class.0 < result →
        HasClass (checked_classes checked.now) class }
{
    let _ = checked.model();
    checked.classes().count() as u32
}

/// How the name is spelled.
fn bytes_of(name: &Name) -> &[u8]
    ensures { result.now ≡ name.now }
{
    name.as_str().as_bytes()
}

/// The method of the process class with this name and numbers of inputs and outputs.
pub(crate) fn called(
    checked: &Checked,
    class: ClassId,
    name: &Name,
    inputs: usize,
    outputs: usize,
) -> Option<MethodId>
    requires { HasClass (checked_classes checked.now) class }
    ensures { result ≡
        methods.process_method (checked_model checked.now) class.0 name.now inputs outputs }
{
    checked
        .classes()
        .process_method(class, bytes_of(name), inputs, outputs)
}

/// Whether the class of this number is a process class.
pub(crate) fn is_process(checked: &Checked, class: u32) -> bool
    ensures { result ≡ option_map_or kinds.is_process
        (numbers.declaration (checked_model checked.now) class) false }
{
    match declaration(checked.model(), class) {
        Some(Decl::Process(_)) => true,
        _ => false,
    }
}
