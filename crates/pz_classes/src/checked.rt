// A sound model.

ghost use Rattle.std.specs.Prelude.{◌≡◌};
ghost use Rattle.pz_classes_code.specs.pz_syntax.ClassView.{model_view};
ghost use Rattle.pz_classes_code.specs.pz_syntax.ModelText.{HasFewMarks};
ghost use Rattle.pz_check_violations.specs.declared.violation.Violation.{Violation};
ghost use Rattle.pz_classes_rules.specs.Violations.{Violates};
ghost use Rattle.pz_classes_rules.specs.Soundness.{Breaks};
ghost use Rattle.pz_classes.specs.devices.Rows.{AreClasses};

use crate::Classes;
use pz_classes_code::pz_syntax::Model;

/// A model that violates none of the rules C1 to C22, and its classes. Its text has fewer than
/// 2^32 - 1 marks.
pub struct Checked {
    model: Model,
    classes: Classes,
    ghost classes_hold: { (v : Violation) → Violates (model_view model) v → ⊥ },
    ghost rules_hold: { (v : Violation) → Breaks (model_view model) v → ⊥ },
    ghost few: { HasFewMarks (model_view model) },
    ghost tabled: { ∥ AreClasses (model_view model) classes ∥₁ },
}

// Written out, so that it is proved once, here, and not in each function that drops one.
impl Drop for Checked {
    fn drop(self) {
        let Checked { model, classes } = self;
        std::mem::drop(model);
        std::mem::drop(classes);
    }
}

impl Checked {
    ghost use Rattle.pz_classes.specs.CheckedView.{checked_model, checked_classes};
    ghost use Rattle.pz_classes_rules.specs.Soundness.{IsSound};

    /// The model with its classes. Takes no memory.
    pub fn new(model: Model, classes: Classes) -> Checked
        requires sound { IsSound (model_view model) }
        requires few { HasFewMarks (model_view model) }
        requires tabled { AreClasses (model_view model) classes }
        ensures model { checked_model result ≡ model_view model }
        ensures classes { checked_classes result ≡ classes }
    {
        Checked { model, classes }
    }

    /// The model. It is sound, and its text has few marks.
    pub fn model(&self) -> &Model
        ensures is { model_view result.now ≡ checked_model self.now }
        ensures sound { IsSound (model_view result.now) }
        ensures few { HasFewMarks (model_view result.now) }
    {
        &self.model
    }

    /// The classes of the model.
    pub fn classes(&self) -> &Classes
        ensures is { result.now ≡ checked_classes self.now }
        ensures tabled { ∥ AreClasses (checked_model self.now) result.now ∥₁ }
    {
        &self.classes
    }
}
