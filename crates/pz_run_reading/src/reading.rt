// Reading a model: its tokens, its tree, and whether that violates a rule.

ghost use Rattle.std.specs.Prelude.{◌≡◌, ◌≤◌, ◌-◌, ◌<◌, ◌^◌, IfOk, IfErr, length};
ghost use Rattle.pz_bind_rules.specs.pz_syntax.Classes.{ModelTree};
ghost use Rattle.pz_bind_rules.specs.pz_syntax.ClassView.{model_view};
ghost use Rattle.pz_bind_rules.specs.pz_syntax.ModelText.{text as text_of, HasFewMarks};
ghost use Rattle.pz_bind.specs.pz_classes.CheckedView.{checked_model};
ghost use Rattle.pz_bind_rules.specs.pz_classes_rules.Soundness.{IsSound};
ghost use Rattle.pz_run_reading.specs.Models.{IsModelOf};
ghost use Rattle.pz_run_reading.specs.Refusals.{IsRefused};
ghost use Rattle.pz_run_reading.specs.Answers.{OnRefused, ReadsAs};
ghost use Rattle.pz_run_reading.specs.devices.Reading.{HasTree, IsOnlyTree, IsViolationOf};

use crate::read_error::ReadModelError;
use pz_bind::pz_classes::{Checked, Classes};
use pz_bind_rules::pz_syntax::Model;
use pz_check::check;
use pz_lexer::{end_of, lex, one_answer};
use pz_parser::parse;
use std::alloc::Global;
use std::mem::drop;

/// The model of a text. The error is want of memory, or why the text is refused: first its tokens,
/// then its tree, then the rules.
pub fn read_model(alloc: Global, text: &[u8]) -> Result<Checked, ReadModelError>
    requires { length text.now < 2 ^ 32 - 1 }
    ensures found { IfOk result (λ checked. IsModelOf text.now (checked_model checked)) }
    // It has at most as many marks as the text has bytes.
    ensures small { IfOk result (λ checked. length (text_of (checked_model checked)) ≤
        length text.now) }
    // The text of a model is refused for want of memory alone.
    ensures only { (m : ModelTree) → IsModelOf text.now m → ReadsAs m result }
    ensures refused { IfErr result (OnRefused (IsRefused text.now)) }
{
    let model = read_tree(alloc, text)?;
    check_model(alloc, model)
}

/// The tree of a text.
fn read_tree(alloc: Global, text: &[u8]) -> Result<Model, ReadModelError>
    requires { length text.now < 2 ^ 32 - 1 }
    ensures found { IfOk result (λ model. HasTree text.now (model_view model)) }
    ensures small { IfOk result (λ model. length (text_of (model_view model)) ≤
        length text.now) }
    ensures only { (m : ModelTree) → HasTree text.now m → IsOnlyTree m result }
    ensures refused { IfErr result (OnRefused (IsRefused text.now)) }
{
    one_answer();
    let tokens = lex(alloc, text)?;
    let model = parse(alloc, tokens.as_slice(), end_of(text))?;
    Ok(model)
}

/// The model with its classes. The error is want of memory, or the least violation of the first
/// rules that are violated: C1 to C3 are asked before the others.
fn check_model(alloc: Global, model: Model) -> Result<Checked, ReadModelError>
    requires { HasFewMarks (model_view model) }
    ensures model { IfOk result (λ checked. checked_model checked ≡ model_view model) }
    ensures sound { IfOk result (λ checked. IsSound (model_view model)) }
    ensures refused { IfErr result (OnRefused (IsViolationOf (model_view model))) }
{
    match Classes::build(alloc, &model) {
        Ok(classes) => Ok(check(alloc, model, classes)?),
        Err(error) => {
            drop(model);
            Err(ReadModelError::from(error))
        }
    }
}
