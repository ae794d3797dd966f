// A model that is closed by a script, with its classes.

ghost use Rattle.std.specs.Prelude.{◌≡◌, ◌<◌, ◌^◌, ℕ, length, IfOk, IfErr};
ghost use Rattle.pz_classes.specs.pz_syntax.ClassView.{model_view};
ghost use Rattle.pz_classes.specs.pz_syntax.ModelText.{text, HasFewMarks};
ghost use Rattle.pz_classes.specs.pz_classes_rules.Soundness.{IsSound};
ghost use Rattle.pz_classes.specs.CheckedView.{checked_model};
ghost use Rattle.pz_classes.specs.devices.Rows.{AreClasses};
ghost use Rattle.pz_classes_openings.specs.OpeningRules.{Opens};
ghost use Rattle.pz_env_joined.specs.pz_env_tree.Refusals.{IsFirstRefused};
ghost use Rattle.pz_env_joined.specs.pz_env_tree.ClosedTree.{closed_tree};
ghost use Rattle.pz_env.specs.declared.error.CloseError.TheVariants.{Refused};

use pz_classes::pz_syntax::Model;
use pz_classes::{BuildError, Checked, Classes};
use pz_env::{CloseError, close};
use pz_env_joined::pz_env_script::Script;
use std::alloc::{AllocError, Global};
use std::mem::drop;

/// The model, closed by the script; or the first line of the script from which on it cannot drive the system.
/// Takes a time that is linear in the model and in what the script says.
///
/// The model opens, and so does what is given.
pub fn close_checked(
    alloc: Global,
    checked: &Checked,
    script: &Script,
) -> Result<Checked, CloseError>
    requires opens { Opens (checked_model checked.now) }
    requires small { length (text (checked_model checked.now)) < 2 ^ 31 }
    ensures refused { IfErr result (λ e. (line : ℕ) → e ≡ Refused line →
        IsFirstRefused (checked_model checked.now) script.now line) }
    ensures only { IfOk result (λ _. (line : ℕ) →
        IsFirstRefused (checked_model checked.now) script.now line → ⊥) }
    ensures tree { IfOk result (λ c. checked_model c ≡ closed_tree (checked_model checked.now)
        script.now) }
    ensures opens { IfOk result (λ c. Opens (checked_model c)) }
{
    pz_env_sound::laws::closed_trees_are_sound();
    pz_env_sound::laws::closed_trees_open();
    pz_env_sound::laws::closed_trees_have_few_marks();
    let _entries = script.entries();
    let model = checked.model();
    let classes = classes_of(alloc, model)?;
    let closed = close(alloc, model, &classes, script);
    drop(classes);
    Ok(checked_of(alloc, closed?)?)
}

// The classes of a model that is sound. The only error is want of memory.
fn classes_of(alloc: Global, model: &Model) -> Result<Classes, AllocError>
    requires sound { IsSound (model_view model.now) }
    requires few { HasFewMarks (model_view model.now) }
    ensures { IfOk result (AreClasses (model_view model.now)) }
{
    match Classes::build(alloc, model) {
        Ok(classes) => Ok(classes),
        Err(BuildError::NoMemory) => Err(AllocError),
        Err(BuildError::Refused(_)) => unreachable!(),
    }
}

// A model that is sound, with its classes. The only error is want of memory.
fn checked_of(alloc: Global, model: Model) -> Result<Checked, AllocError>
    requires sound { IsSound (model_view model) }
    requires few { HasFewMarks (model_view model) }
    ensures { IfOk result (λ c. checked_model c ≡ model_view model) }
{
    match classes_of(alloc, &model) {
        Ok(classes) => Ok(Checked::new(model, classes)),
        Err(error) => {
            drop(model);
            Err(error)
        }
    }
}
