use crate::inherited::Inherited;
use pz_classes_code::pz_syntax::Decl;
use pz_classes_code::pz_value::ClassId;

/// A class that a walk has come to, and what it and its ancestors declare.
#[derive(Drop)]
pub(crate) struct ClassScope<'s, 'm> {
    /// The contracts name it.
    pub(crate) class: ClassId,
    pub(crate) decl: &'m Decl,
    pub(crate) inherited: &'s Inherited<'m>,
}
