// Whether C13 or C18 is broken, where the size of the system cannot be told.

ghost use Rattle.std.specs.Prelude.{◌≡◌, ◌⊎◌, ◌||◌, true, false, IfOk};
ghost use Rattle.std.specs.List.{list_any};
ghost use Rattle.pz_classes_code.specs.pz_syntax.declared.tokens.Pos.{Pos as Place};
ghost use Rattle.pz_classes_code.specs.pz_syntax.ClassView.{model_view};
ghost use Rattle.pz_classes_mentions.specs.Words.{mention};
ghost use Rattle.pz_classes.specs.devices.Rows.{AreClasses};
ghost use Rattle.pz_classes.specs.pz_classes_rules.WordRules.{BreaksWord};
ghost use Rattle.pz_check_violations.specs.Order.{violation};
ghost use Rattle.pz_check_names.specs.devices.Unsized as spec;

use crate::rules::has_instances;
use pz_classes::Classes;
use pz_classes_code::is_unsupported;
use pz_classes_code::pz_syntax::Model;
use pz_classes_mentions::{Listener, Part, Word, parts_of};
use std::alloc::{AllocError, Global};

/// Whether C13 or C18 is broken at this word.
fn is_unsized(model: &Model, classes: &Classes, word: Word) -> bool
    requires { AreClasses (model_view model.now) classes.now }
    ensures { result ≡ spec.is_unsized (model_view model.now) (mention word.entry) }
{
    match word {
        Word::Instantiated(x) => {
            is_unsupported(&x.name) || !has_instances(model, classes, &x.name)
        }
        Word::Declared(x) => is_unsupported(&x.name),
        Word::Extended(x) => is_unsupported(&x.name),
        Word::Typed(x) => is_unsupported(&x.name),
        Word::Created(x) => is_unsupported(&x.name),
        Word::Float(_) => true,
        _ => false,
    }
}

/// Whether C13 or C18 was broken at a word that it was told.
#[derive(Drop)]
struct Sizes<'a> {
    model: &'a Model,
    classes: &'a Classes,
}

impl Listener for Sizes<'_> {
    type Heard = bool;

    ghost listens = { λ s. AreClasses (model_view s.model.now) s.classes.now };

    ghost after = { λ s has word. has || spec.is_unsized (model_view s.model.now) word };

    fn hear(&self, heard: bool, word: Word) -> bool {
        heard || is_unsized(self.model, self.classes, word)
    }
}

/// Whether C13 or C18 is broken at a word of this part.
fn is_unsized_part(model: &Model, classes: &Classes, part: &Part) -> bool
    requires { AreClasses (model_view model.now) classes.now }
    ensures { result ≡ spec.is_unsized_part (model_view model.now) part.now }
{
    part.tell(&Sizes { model, classes }, false)
}

fn has_unsized_part(model: &Model, classes: &Classes, parts: &[Part]) -> bool
    requires { AreClasses (model_view model.now) classes.now }
    ensures { result ≡ list_any (spec.is_unsized_part (model_view model.now)) parts.now }
{
    for part in parts {
        if is_unsized_part(model, classes, part) {
            return true;
        }
    }
    false
}

/// Whether C13 or C18 is broken at a word of this model, in one of its declarations.
fn has_unsized_class(alloc: Global, model: &Model, classes: &Classes) -> Result<bool, AllocError>
    requires { AreClasses (model_view model.now) classes.now }
    ensures { IfOk result (λ has. has ≡ spec.is_unsized_model (model_view model.now)) }
{
    for decl in model.decls.as_slice() {
        let parts = parts_of(alloc, decl)?;
        if has_unsized_part(model, classes, parts.as_slice()) {
            return Ok(true);
        }
    }
    Ok(false)
}

/// Whether the model violates C13 or C18. The only error is want of memory.
pub fn has_unsized_words(
    alloc: Global,
    model: &Model,
    classes: &Classes,
) -> Result<bool, AllocError>
    requires { AreClasses (model_view model.now) classes.now }
    ensures found { IfOk result (λ has. has ≡ true →
        (pos : Place) × (BreaksWord (model_view model.now) (violation 13 pos)
        ⊎ BreaksWord (model_view model.now) (violation 18 pos))) }
    ensures none { IfOk result (λ has. has ≡ false → (pos : Place) →
        BreaksWord (model_view model.now) (violation 13 pos)
        ⊎ BreaksWord (model_view model.now) (violation 18 pos) → ⊥) }
{
    has_unsized_class(alloc, model, classes)
}
