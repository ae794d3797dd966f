//! Questions in the comments of a model: `//? f 5 3` evaluates the statements of the method `f` of the
//! process class `P` in a new state, with 5 units and a depth of 3 for each.

ghost use Rattle.pz_classes_code.specs.pz_syntax.ClassView.{model_view};
ghost use Rattle.pz_classes_code.specs.pz_syntax.ModelText.{HasFewMarks};
ghost use Rattle.pz_eval.specs.pz_classes.devices.Rows.{AreClasses};

use crate::reading::model_in;
use crate::statements::show_statements;
use pz_classes_code::pz_syntax::Model;
use pz_eval::Allowance;
use pz_eval::pz_classes::{Body, Classes};
use std::io;

/// What a comment begins with that asks a question.
const QUESTION: &str = "//? ";

/// A question: the name of a method, and an allowance.
#[derive(Clone, Copy)]
struct Question<'a> {
    name: &'a str,
    allowance: Allowance,
}

fn read_question(words: &str) -> Option<Question<'_>> {
    let mut words = words.split_whitespace();
    let name = words.next()?;
    let units = words.next()?.parse::<u64>().ok()?;
    let depth = words.next()?.parse::<u32>().ok()?;
    Some(Question {
        name,
        allowance: Allowance { units, depth },
    })
}

/// The body of the method without inputs and outputs that has this name, in the class `P`.
fn find_body<'a>(model: &Model, classes: &'a Classes, name: &str) -> Option<&'a Body>
    requires { AreClasses (model_view model.now) classes.now }
{
    let _model = model;
    let class = classes.class("P".as_bytes())?;
    let method = classes.process_method(class, name.as_bytes(), 0, 0)?;
    Some(classes.body(method))
}

fn show_answer(rt: &HostRuntime, model: &Model, classes: &Classes, words: &str) -> io::Result<()>
    requires { AreClasses (model_view model.now) classes.now }
{
    let Some(question) = read_question(words) else {
        return println!(rt; "no question: {words}");
    };
    print!(rt; "{words}:")?;
    match find_body(model, classes, question.name) {
        Some(Body::Process { locals, stmts }) => {
            show_statements(
                rt,
                classes,
                *locals,
                stmts.get().as_slice(),
                question.allowance,
            )
        }
        _ => println!(rt; " no method"),
    }
}

/// The answer to each question in the comments of a text.
fn show_each(rt: &HostRuntime, model: &Model, classes: &Classes, text: &str) -> io::Result<()>
    requires { AreClasses (model_view model.now) classes.now }
{
    for line in text.lines() {
        if let Some(words) = line.strip_prefix(QUESTION) {
            show_answer(rt, model, classes, words)?;
        }
    }
    Ok(())
}

fn show_built(rt: &HostRuntime, model: &Model, text: &str) -> io::Result<()>
    requires { HasFewMarks (model_view model.now) }
{
    match Classes::build(rt.alloc(), model) {
        Ok(classes) => show_each(rt, model, &classes, text),
        Err(_) => println!(rt; "no classes"),
    }
}

/// The answers to the questions of a text.
pub fn show_answers(rt: &HostRuntime, text: &[u8]) -> io::Result<()> {
    let Ok(lines) = std::str::from_utf8(text) else {
        return println!(rt; "no text");
    };
    match model_in(rt.alloc(), text) {
        Some(model) => show_built(rt, &model, lines),
        None => println!(rt; "no model"),
    }
}
