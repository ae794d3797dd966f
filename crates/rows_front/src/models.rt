//! Models: that their text is that of their tokens, their heads and their nesting.

ghost use Rattle.pz_classes_code.specs.pz_syntax.ClassView.{model_view};
ghost use Rattle.pz_classes_code.specs.pz_syntax.ModelText.{HasFewMarks};

use crate::reading::{tokens_in, tree_of};
use pz_ast::{nesting, tokens_of};
use pz_classes_code::pz_syntax::{Mark, Model, Token};
use std::alloc::{AllocError, Global};
use std::io;

/// Whether two marks are the same, as they are printed.
fn is_same(alloc: Global, mark: &Mark, other: &Mark) -> Result<bool, AllocError> {
    let mark = format!(in alloc; "{mark:?}")?;
    let other = format!(in alloc; "{other:?}")?;
    Ok(mark.as_str() == other.as_str())
}

/// Whether these are the marks of the tokens.
fn are_marks_of(alloc: Global, marks: &[Mark], tokens: &[Token]) -> Result<bool, AllocError> {
    if marks.len() != tokens.len() {
        return Ok(false);
    }
    for (mark, token) in marks.iter().zip(tokens) {
        if !is_same(alloc, mark, &token.mark)? {
            return Ok(false);
        }
    }
    Ok(true)
}

/// Whether the text of the model are the marks of the tokens.
fn is_text(alloc: Global, model: &Model, tokens: &[Token]) -> Result<bool, AllocError> {
    match tokens_of(alloc, model) {
        Ok(marks) => are_marks_of(alloc, marks.as_slice(), tokens),
        Err(error) => Err(error),
    }
}

fn show_parsed(rt: &HostRuntime, text: &[u8], tokens: &[Token]) -> io::Result<()> {
    match tree_of(rt.alloc(), text, tokens) {
        Ok(model) => {
            let same = is_text(rt.alloc(), &model, tokens);
            let decls = model.decls.len();
            println!(rt; "{decls} declarations, text as read: {same:?}")
        }
        Err(refusal) => println!(rt; "{refusal}"),
    }
}

/// How many declarations a text has, and whether their text is the one that was read.
pub fn show_model(rt: &HostRuntime, text: &[u8]) -> io::Result<()> {
    match tokens_in(rt.alloc(), text) {
        Ok(tokens) => show_parsed(rt, text, tokens.as_slice()),
        Err(refusal) => println!(rt; "{refusal}"),
    }
}

/// The marks that are heads, by their numbers from 0.
fn show_heads(rt: &HostRuntime, marks: &[Mark]) -> io::Result<()> {
    for (number, mark) in marks.iter().enumerate() {
        if mark.head {
            println!(rt; "  head {number} {:?}", mark.kind)?;
        }
    }
    Ok(())
}

/// How many tokens a model has, its nesting and its heads.
pub fn show_shape(rt: &HostRuntime, model: &Model) -> io::Result<()>
    requires { HasFewMarks (model_view model.now) }
{
    match tokens_of(rt.alloc(), model) {
        Ok(marks) => {
            println!(rt; "  {} tokens, nesting {}", marks.len(), nesting(model))?;
            show_heads(rt, marks.as_slice())
        }
        Err(_) => println!(rt; "  no memory"),
    }
}
