// What a checked model says of a class, by its number. Where there is no such class, nothing stands
// in it.

ghost use Rattle.std.specs.Prelude.{◌≡◌};
ghost use Rattle.std.specs.Option.{option_copied, option_map};
ghost use Rattle.pz_bind_rules.specs.pz_syntax.ClassView.{decl_view};
ghost use Rattle.pz_bind_rules.specs.pz_classes_code.devices.Above.{names_above};
ghost use Rattle.pz_classes.specs.CheckedView.{checked_model};
ghost use Rattle.pz_bind_rules.specs.pz_classes_rules.Members as members;
ghost use Rattle.pz_bind_rules.specs.pz_classes_rules.Members.{spelled};
ghost use Rattle.pz_bind_rules.specs.pz_classes_rules.Numbers as numbers;
ghost use Rattle.pz_bind_rules.specs.pz_classes_rules.SoundClasses.{ClassesFit};
ghost use Rattle.pz_bind_rules.specs.pz_classes_rules.SoundNumbers.{NumbersFit};
ghost use Rattle.pz_bind_rules.specs.pz_classes_rules.SoundSystem.{SystemFits};
ghost use Rattle.pz_bind_rules.specs.Nest as spec;
ghost use Rattle.pz_bind_rules.specs.devices.Layouts as layouts;

use pz_bind_rules::pz_classes_code::NameFront;
use pz_bind_rules::pz_syntax::{Channel, Decl, Instance};
use pz_bind_rules::pz_value::ClassId;
use pz_classes::{Checked, channels_of, class_of_instance, instances_of, is_cluster};

/// A checked model is sound: what that says of its system and its classes. Does nothing when it runs.
pub(crate) fn is_sound(checked: &Checked)
    ensures system { SystemFits (checked_model checked.now) }
    ensures classes { ClassesFit (checked_model checked.now) }
{
    pz_bind_rules::pz_classes_rules::laws::sound_systems_fit();
    pz_bind_rules::pz_classes_rules::laws::sound_classes_fit();
    let _model = checked.model();
}

/// The text of a checked model has few marks: 32 bits number what is in it. Does nothing when it runs.
pub(crate) fn is_numbered(checked: &Checked)
    ensures { NumbersFit (checked_model checked.now) }
{
    pz_bind_rules::pz_classes_rules::laws::sound_numbers_fit();
    let _model = checked.model();
}

/// The declaration of a class.
fn declared(checked: &Checked, class: usize) -> Option<&Decl>
    ensures { option_map decl_view (option_copied result) ≡ numbers.declaration
        (checked_model checked.now) class }
{
    if class == 0 {
        return None;
    }
    checked.model().decls.as_slice().get(class - 1)
}

/// The instances in a level of this class.
pub(crate) fn instances_in(checked: &Checked, class: usize) -> &[Instance]
    ensures { result.now ≡ spec.instances_in (checked_model checked.now) class }
{
    match declared(checked, class) {
        Some(decl) => instances_of(decl),
        None => &[],
    }
}

/// The channels of a level of this class.
pub(crate) fn channels_in(checked: &Checked, class: usize) -> &[Channel]
    ensures { result.now ≡ spec.channels_in (checked_model checked.now) class }
{
    match declared(checked, class) {
        Some(decl) => channels_of(decl),
        None => &[],
    }
}

pub(crate) fn is_cluster_class(checked: &Checked, class: usize) -> bool
    ensures { result ≡ layouts.is_cluster_class (checked_model checked.now) class }
{
    match declared(checked, class) {
        Some(decl) => is_cluster(decl),
        None => false,
    }
}

/// The class of an instance.
pub(crate) fn class_of(checked: &Checked, instance: &Instance) -> u32
    ensures { result ≡ spec.class_of (checked_model checked.now) instance.now }
{
    match class_of_instance(checked.model(), checked.classes(), &instance.class.name) {
        Some(class) => class.0,
        None => 0,
    }
}

/// The number of the port of this name of a class, if it has one.
fn numbered_port(checked: &Checked, class: u32, name: &[u8]) -> Option<u32>
    ensures { result ≡ layouts.port_number (checked_model checked.now) class name.now }
{
    let classes = checked.classes();
    if (class as usize) < classes.count() {
        classes.ports(ClassId(class)).place(name)
    } else {
        None
    }
}

/// The same, as an index.
pub(crate) fn port_in(checked: &Checked, class: u32, name: &[u8]) -> Option<usize>
    ensures { result ≡ layouts.port_number (checked_model checked.now) class name.now }
{
    let number = numbered_port(checked, class, name)?;
    Some(number as usize)
}

/// The parameters and variables of a class, if there is one of this number.
pub(crate) fn variables_of(checked: &Checked, class: u32) -> Option<&NameFront>
    ensures { names_above (option_copied result) ≡ spelled (members.variables
        (checked_model checked.now) class) }
{
    let classes = checked.classes();
    if (class as usize) < classes.count() {
        Some(classes.variables(ClassId(class)))
    } else {
        None
    }
}

/// The class of the system.
pub(crate) fn system_class(checked: &Checked) -> usize
    ensures { result ≡ spec.system_class (checked_model checked.now) }
{
    let decls = checked.model().decls.as_slice();
    for (index, decl) in decls.iter().enumerate() {
        if let Decl::System(_) = decl {
            return index + 1;
        }
    }
    0
}
