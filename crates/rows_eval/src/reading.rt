//! From a text to its model.

ghost use Rattle.std.specs.Prelude.{◌≡◌, ◌≤◌, length, IfSome};
ghost use Rattle.pz_classes_code.specs.pz_syntax.ClassView.{model_view};
ghost use Rattle.pz_classes_code.specs.pz_syntax.ModelText.{HasFewMarks, text as text_of};

use pz_classes_code::pz_items::Items;
use pz_classes_code::pz_syntax::{Model, Token};
use pz_lexer::{end_of, lex};
use pz_parser::parse;
use std::alloc::Global;

/// The most bytes of a text.
pub const LIMIT: usize = 1_000_000;

/// The tokens of a text of at most `LIMIT` bytes, if it has any.
fn tokens_in(alloc: Global, text: &[u8]) -> Option<Items<Token>>
    ensures { IfSome result (λ tokens. length tokens ≤ LIMIT) }
{
    if text.len() > LIMIT {
        return None;
    }
    match lex(alloc, text) {
        Ok(tokens) => Some(tokens),
        Err(_) => None,
    }
}

/// The model of these tokens of a text.
fn tree_of(alloc: Global, text: &[u8], tokens: &[Token]) -> Option<Model>
    ensures { IfSome result (λ model. length (text_of (model_view model)) ≡ length tokens.now) }
{
    if text.len() > LIMIT {
        return None;
    }
    match parse(alloc, tokens, end_of(text)) {
        Ok(model) => Some(model),
        Err(_) => None,
    }
}

/// The model of a text, if it is the text of one.
pub fn model_in(alloc: Global, text: &[u8]) -> Option<Model>
    ensures { IfSome result (λ model. HasFewMarks (model_view model)) }
{
    match tokens_in(alloc, text) {
        Some(tokens) => tree_of(alloc, text, tokens.as_slice()),
        None => None,
    }
}
