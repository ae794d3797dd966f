// What a declaration says of the class that it declares.

ghost use Rattle.std.specs.Prelude.{◌≡◌};
ghost use Rattle.std.specs.Option.{option_copied, option_map};
ghost use Rattle.pz_classes_code.specs.pz_syntax.ClassView.{decl_view, model_view};
ghost use Rattle.pz_classes_rules.specs.Numbers as numbers;
ghost use Rattle.pz_classes_rules.specs.Ancestors as ancestors;
ghost use Rattle.pz_classes_rules.specs.Kinds as kinds;
ghost use Rattle.pz_classes_rules.specs.Violations as rules;

use pz_classes_code::pz_syntax::{Decl, Id, Model};

/// The name of the class; a system declares none.
pub(crate) fn declared_name(decl: &Decl) -> Option<&Id>
    ensures { option_copied result ≡ numbers.declared_name (decl_view decl.now) }
{
    match decl {
        Decl::Data(class) => Some(&class.name),
        Decl::Process(class) => Some(&class.name),
        Decl::Cluster(class) => Some(&class.name),
        Decl::System(_) => None,
    }
}

/// The name behind `extends`, if there is one.
pub fn extended(decl: &Decl) -> Option<&Id>
    ensures { option_copied result ≡ ancestors.extended (decl_view decl.now) }
{
    match decl {
        Decl::Data(class) => class.parent.as_ref(),
        Decl::Process(class) => class.parent.as_ref(),
        Decl::Cluster(_) => None,
        Decl::System(_) => None,
    }
}

pub(crate) fn is_data(decl: &Decl) -> bool
    ensures { result ≡ kinds.is_data (decl_view decl.now) }
{
    matches!(decl, Decl::Data(_))
}

/// Whether both are data classes, or both process classes.
pub(crate) fn same_sort(decl: &Decl, other: &Decl) -> bool
    ensures { result ≡ rules.same_sort (decl_view decl.now) (decl_view other.now) }
{
    match (decl, other) {
        (Decl::Data(_), Decl::Data(_)) => true,
        (Decl::Process(_), Decl::Process(_)) => true,
        _ => false,
    }
}

/// The declaration of the class of this number.
pub fn declaration(model: &Model, number: u32) -> Option<&Decl>
    ensures { option_map decl_view (option_copied result) ≡ numbers.declaration
        (model_view model.now) number }
{
    if number == 0 {
        return None;
    }
    model.decls.as_slice().get(number as usize - 1)
}
