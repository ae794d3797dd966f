// The names of what lines speak of. Takes no memory.

ghost use Rattle.std.specs.Prelude.{◌≡◌};
ghost use Rattle.pz_rules.specs.pz_syntax.Classes.{ModelTree};
ghost use Rattle.pz_bind.specs.pz_classes.CheckedView.{checked_model};
ghost use Rattle.pz_rules.specs.pz_classes_rules.ClassNames as tables;
ghost use Rattle.pz_bind.specs.NetView.{HasProcess, IsWireOf};
ghost use Rattle.pz_bind.specs.devices.Nets.{IsNet};
ghost use Rattle.pz_trace.specs.Labels.{path_of, wire_of};

use pz_bind::Net;
use pz_bind::pz_classes::Checked;
use pz_rules::pz_value::Text;

/// The path of a process.
pub(crate) fn path(net: &Net, process: u32) -> &[u8]
    requires { HasProcess net.now process }
    ensures { (m : ModelTree) → ∥ IsNet m net.now ∥₁ → result.now ≡ path_of m process }
{
    net.path(process)
}

/// The name of a wire.
pub(crate) fn wire_name(net: &Net, wire: u32) -> &[u8]
    requires { IsWireOf net.now wire }
    ensures { (m : ModelTree) → ∥ IsNet m net.now ∥₁ → result.now ≡ wire_of m wire }
{
    net.wire_name(wire)
}

/// The names of the classes, each at its number.
pub(crate) fn class_names(checked: &Checked) -> &[Text]
    ensures { result.now ≡ tables.class_names (checked_model checked.now) }
{
    checked.classes().names()
}
