// The names of processes, of their variables and of classes. Takes no memory.

ghost use Rattle.std.specs.Prelude.{◌≡◌, ◌<◌, ℕ, length, MatchOption, Some, slice_get, IfSome};
ghost use Rattle.pz_classes_code.specs.Places.{place_in};
ghost use Rattle.std.specs.Str.{bytes_eq};
ghost use Rattle.pz_classes_code.specs.pz_syntax.Classes.{ModelTree};
ghost use Rattle.pz_bind.specs.pz_classes.CheckedView.{checked_model};
ghost use Rattle.pz_rules.specs.pz_classes_rules.Members.{variables, spelled};
ghost use Rattle.pz_rules.specs.pz_classes_rules.ClassNames as tables;
ghost use Rattle.pz_bind_levels.specs.Places.{Address};
ghost use Rattle.pz_rules.specs.pz_bind_rules.Nest.{processes, class_at};
ghost use Rattle.pz_bind.specs.NetView.{HasProcess};
ghost use Rattle.pz_bind.specs.devices.Nets.{IsNet};
ghost use Rattle.pz_trace.specs.Labels.{path_of};
ghost use Rattle.pz_debug_replies.specs.devices.Searching.{IsFirst, IsOfNone};

use pz_bind::Net;
use pz_bind::pz_classes::Checked;
use pz_classes_code::NameFront;
use pz_classes_code::pz_value::Text;

/// The names of the classes, each at its number.
pub(crate) fn class_names(checked: &Checked) -> &[Text]
    ensures { result.now ≡ tables.class_names (checked_model checked.now) }
{
    checked.classes().names()
}

// The path of a process.
fn path(net: &Net, process: u32) -> &[u8]
    requires { HasProcess net.now process }
    ensures { (m : ModelTree) → ∥ IsNet m net.now ∥₁ → result.now ≡ path_of m process }
{
    net.path(process)
}

// How many processes there are.
fn process_count(net: &Net) -> u32
    ensures counted { (m : ModelTree) → ∥ IsNet m net.now ∥₁ → result ≡ length (processes m) }
    ensures belongs { (process : ℕ) → process < result → HasProcess net.now process }
{
    net.processes()
}

fn is_same(text: &[u8], other: &[u8]) -> bool
    ensures { result ≡ bytes_eq text.now other.now }
{
    text == other
}

/// The number of the first process with this path.
pub(crate) fn find_process(net: &Net, word: &[u8]) -> Option<u32>
    ensures found { (m : ModelTree) → ∥ IsNet m net.now ∥₁ →
        MatchOption result (IsOfNone m word.now) (IsFirst m word.now) }
    ensures belongs { IfSome result (HasProcess net.now) }
{
    for process in 0..process_count(net) {
        if is_same(path(net, process), word) {
            return Some(process);
        }
    }
    None
}

// The names of the variables of a process.
fn variables_of<'a>(checked: &'a Checked, net: &Net, process: u32) -> &'a NameFront
    requires of_model { ∥ IsNet (checked_model checked.now) net.now ∥₁ }
    requires belongs { HasProcess net.now process }
    ensures { (place : Address) →
        slice_get (processes (checked_model checked.now)) process ≡ Some place →
        result.now.names ≡ spelled (variables (checked_model checked.now)
        (class_at (checked_model checked.now) place)) }
{
    checked.classes().variables(net.class(process))
}

/// The number of the variable of this name of a process.
pub(crate) fn find_variable(checked: &Checked, net: &Net, process: u32, name: &[u8]) -> Option<u32>
    requires of_model { ∥ IsNet (checked_model checked.now) net.now ∥₁ }
    requires belongs { HasProcess net.now process }
    ensures { (place : Address) →
        slice_get (processes (checked_model checked.now)) process ≡ Some place →
        result ≡ place_in (spelled (variables
        (checked_model checked.now) (class_at (checked_model checked.now) place))) name.now }
{
    variables_of(checked, net, process).place(name)
}
