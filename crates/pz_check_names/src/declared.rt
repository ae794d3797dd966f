use crate::selectors::Selectors;
use pz_classes::Classes;
use pz_classes_code::pz_syntax::Model;

/// What a model declares: its classes, and the selectors of its data classes.
#[derive(Drop)]
pub(crate) struct Declared<'s, 'm> {
    pub(crate) model: &'m Model,
    pub(crate) classes: &'m Classes,
    pub(crate) selectors: &'s Selectors<'m>,
}
