//! From a text to its tokens and its model.

ghost use Rattle.std.specs.Prelude.{◌≡◌, ◌≤◌, true, length, IfOk};
ghost use Rattle.pz_classes_code.specs.pz_syntax.ClassView.{model_view};
ghost use Rattle.pz_classes_code.specs.pz_syntax.ModelText.{HasFewMarks, text as text_of};

use pz_ast::tokens_of;
use pz_classes_code::pz_items::Items;
use pz_classes_code::pz_syntax::{Model, Token};
use pz_lexer::{LexError, end_of, lex};
use pz_parser::{ParseError, parse};
use std::alloc::Global;
use std::fmt;

/// The most bytes of a text.
pub const LIMIT: usize = 4_000_000;

/// Why a text is that of no model.
#[derive(Clone, Copy)]
pub enum NoModel {
    TooLong,
    Tokens(LexError),
    Tree(ParseError),
}

impl fmt::Display for NoModel {
    fn fmt<W: fmt::Write>(&self, f: &mut fmt::Formatter<W>) -> fmt::Result {
        match self {
            NoModel::TooLong => write!(f, "too long"),
            NoModel::Tokens(error) => write!(f, "{error:?}"),
            NoModel::Tree(error) => write!(f, "{error:?}"),
        }
    }
}

/// The tokens of a text of at most `LIMIT` bytes.
pub fn tokens_in(alloc: Global, text: &[u8]) -> Result<Items<Token>, NoModel>
    ensures { IfOk result (λ tokens. length tokens ≤ LIMIT) }
{
    if text.len() > LIMIT {
        return Err(NoModel::TooLong);
    }
    match lex(alloc, text) {
        Ok(tokens) => Ok(tokens),
        Err(error) => Err(NoModel::Tokens(error)),
    }
}

/// The model of these tokens of a text.
pub fn tree_of(alloc: Global, text: &[u8], tokens: &[Token]) -> Result<Model, NoModel>
    ensures { IfOk result (λ model. length (text_of (model_view model)) ≡ length tokens.now) }
{
    if text.len() > LIMIT {
        return Err(NoModel::TooLong);
    }
    match parse(alloc, tokens, end_of(text)) {
        Ok(model) => Ok(model),
        Err(error) => Err(NoModel::Tree(error)),
    }
}

/// The model of a text.
pub fn model_in(alloc: Global, text: &[u8]) -> Result<Model, NoModel>
    ensures { IfOk result (λ model. HasFewMarks (model_view model)) }
{
    match tokens_in(alloc, text) {
        Ok(tokens) => tree_of(alloc, text, tokens.as_slice()),
        Err(refusal) => Err(refusal),
    }
}

/// Whether the text of a model has at most `LIMIT` tokens; no where memory is wanting.
pub fn is_short(alloc: Global, model: &Model) -> bool
    ensures { result ≡ true → HasFewMarks (model_view model.now) }
{
    match tokens_of(alloc, model) {
        Ok(marks) => marks.len() <= LIMIT,
        Err(_) => false,
    }
}
