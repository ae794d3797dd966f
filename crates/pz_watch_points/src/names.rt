// The words that lines have for processes and for kinds of actions. Takes no memory.

ghost use Rattle.std.specs.Prelude.{◌≡◌};
ghost use Rattle.pz_bind.specs.pz_syntax.Classes.{ModelTree};
ghost use Rattle.pz_bind.specs.NetView.{HasProcess};
ghost use Rattle.pz_bind.specs.devices.Nets.{IsNet};
ghost use Rattle.pz_trace.specs.Labels.{path_of};
ghost use Rattle.pz_trace.specs.Words as words;

use pz_bind::Net;
use pz_trace::pz_rules::Kind;

/// The path of a process.
pub(crate) fn path(net: &Net, process: u32) -> &[u8]
    requires { HasProcess net.now process }
    ensures { (m : ModelTree) → ∥ IsNet m net.now ∥₁ → result.now ≡ path_of m process }
{
    net.path(process)
}

/// The word of a kind.
pub(crate) fn kind_word(kind: Kind) -> &'static [u8]
    ensures { result.now ≡ words.kind_word kind }
{
    match kind {
        Kind::Skip => b"skip",
        Kind::Eval => b"eval",
        Kind::Test => b"test",
        Kind::Expire => b"expire",
        Kind::Call => b"call",
    }
}
