// The names of classes that no model declares.

ghost use Rattle.std.specs.Prelude.{◌≡◌};
ghost use Rattle.pz_classes_code.specs.ReservedNames as spec;

use pz_syntax::Name;

/// Whether a primitive class has this name.
pub fn is_primitive(name: &Name) -> bool
    ensures { result ≡ spec.is_primitive name.now }
{
    let name = name.as_str();
    name == "Object"
        || name == "Nil"
        || name == "Boolean"
        || name == "Integer"
        || name == "Char"
        || name == "String"
        || name == "Array"
}

/// Whether a class that is left out of the language has this name.
pub fn is_unsupported(name: &Name) -> bool
    ensures { result ≡ spec.is_unsupported name.now }
{
    let name = name.as_str();
    name == "Real" || name == "Float" || name == "RandomGenerator"
}

/// Whether it is the name of the class that a data class may extend, though it is primitive.
pub fn is_object(name: &Name) -> bool
    ensures { result ≡ spec.is_object name.now }
{
    name.as_str() == "Object"
}

/// Whether it is the name of the primitive class that may be created.
pub fn is_array(name: &Name) -> bool
    ensures { result ≡ spec.is_array name.now }
{
    name.as_str() == "Array"
}
