// The numbers of the names that methods can name.

ghost use Rattle.std.specs.Prelude.{◌≡◌, ◌<◌, ◌^◌, length};

use pz_classes_code::NameFront;
use pz_classes_code::pz_syntax::Name;

/// What the methods of a class have in common: its fields or variables, and its ports.
#[derive(Clone, Copy)]
pub(crate) struct Surroundings<'a> {
    pub(crate) shared: &'a NameFront,
    pub(crate) ports: &'a NameFront,
}

/// How many names these are.
pub(crate) fn count(names: &[Name]) -> u32
    requires { length names.now < 2 ^ 32 }
    ensures { result ≡ length names.now }
{
    names.len() as u32
}
