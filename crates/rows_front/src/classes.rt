//! The classes of a model: what each inherits, the look-up of methods, and bodies with slots.

ghost use Rattle.std.specs.Prelude.{IfSome};
ghost use Rattle.pz_classes_code.specs.pz_syntax.ClassView.{model_view};
ghost use Rattle.pz_classes_code.specs.pz_syntax.ModelText.{HasFewMarks};
ghost use Rattle.pz_bind.specs.pz_classes.Tables.{HasClass, HasMethod};
ghost use Rattle.pz_bind.specs.pz_classes.devices.Rows.{AreClasses};

use crate::bodies::{show_body, show_step};
use pz_bind::pz_classes::{Classes, MethodId, Step};
use pz_classes_code::NameFront;
use pz_classes_code::pz_syntax::Model;
use pz_classes_code::pz_value::ClassId;
use std::io;

/// What a comment begins with that asks for a class or a method.
const QUESTION: &str = "//? ";

fn show_names(rt: &HostRuntime, what: &str, names: &NameFront) -> io::Result<()> {
    for place in 0..names.len() {
        if let Some(name) = names.name(place) {
            let name = name.as_str();
            println!(rt; "  {what} {name}")?;
        }
    }
    Ok(())
}

fn show_start(rt: &HostRuntime, step: &Step) -> io::Result<()> {
    print!(rt; "  starts with")?;
    show_step(rt, step)?;
    println!(rt)
}

/// What a class has.
fn show_class(rt: &HostRuntime, classes: &Classes, class: ClassId) -> io::Result<()>
    requires { HasClass classes.now class }
{
    let number = class.0;
    let parent = classes.parent(class);
    println!(rt; "{number} extends {parent:?}")?;
    show_names(rt, "field", classes.fields(class))?;
    show_names(rt, "variable", classes.variables(class))?;
    show_names(rt, "port", classes.ports(class))?;
    match classes.init(class) {
        Some(step) => show_start(rt, step),
        None => Ok(()),
    }
}

/// What each class has, by its number.
fn show_classes(rt: &HostRuntime, classes: &Classes) -> io::Result<()> {
    for number in 0..u32::MAX {
        if number as usize >= classes.count() {
            return Ok(());
        }
        show_class(rt, classes, ClassId(number))?;
    }
    Ok(())
}

/// The method that a question asks for: the class, the name, the inputs, and of a process class the
/// outputs.
fn answer(model: &Model, classes: &Classes, question: &str) -> Option<MethodId>
    requires { AreClasses (model_view model.now) classes.now }
    ensures { IfSome result (HasMethod classes.now) }
{
    let mut words = question.split_whitespace();
    let class = classes.class(words.next()?.as_bytes())?;
    let name = words.next()?.as_bytes();
    let inputs = words.next()?.parse::<usize>().ok()?;
    match words.next() {
        None => classes.method(class, name, inputs),
        Some(outputs) => {
            let outputs = outputs.parse::<usize>().ok()?;
            classes.process_method(class, name, inputs, outputs)
        }
    }
}

/// The method that a question asks for, and its body.
fn show_method(rt: &HostRuntime, model: &Model, classes: &Classes, question: &str) -> io::Result<()>
    requires { AreClasses (model_view model.now) classes.now }
{
    match answer(model, classes, question) {
        None => println!(rt; "{question}: none"),
        Some(method) => {
            print!(rt; "{question}: {}", method.0)?;
            show_body(rt, classes.body(method))?;
            println!(rt)
        }
    }
}

/// The class that a question of one word asks for, and how many numbers classes have.
fn show_number(rt: &HostRuntime, classes: &Classes, name: &str) -> io::Result<()> {
    let class = classes.class(name.as_bytes());
    let count = classes.names().len();
    println!(rt; "{name}: {class:?} of {count}")
}

/// The answer to a question.
fn show_answer(rt: &HostRuntime, model: &Model, classes: &Classes, question: &str) -> io::Result<()>
    requires { AreClasses (model_view model.now) classes.now }
{
    if question.contains(' ') {
        show_method(rt, model, classes, question)
    } else {
        show_number(rt, classes, question)
    }
}

/// The answer to each question in the comments of a text.
fn show_answers(rt: &HostRuntime, model: &Model, classes: &Classes, text: &str) -> io::Result<()>
    requires { AreClasses (model_view model.now) classes.now }
{
    for line in text.lines() {
        if let Some(question) = line.strip_prefix(QUESTION) {
            show_answer(rt, model, classes, question)?;
        }
    }
    Ok(())
}

/// What each class of a model has, and the answers to the questions in the comments of its text.
pub fn show_family(rt: &HostRuntime, model: &Model, text: &str) -> io::Result<()>
    requires { HasFewMarks (model_view model.now) }
{
    match Classes::build(rt.alloc(), model) {
        Ok(classes) => {
            show_classes(rt, &classes)?;
            show_answers(rt, model, &classes, text)
        }
        Err(error) => println!(rt; "{error:?}"),
    }
}

/// Which of the rules on classes and their parents the model of a line violates.
pub fn show_violated(rt: &HostRuntime, model: &Model, line: &str) -> io::Result<()>
    requires { HasFewMarks (model_view model.now) }
{
    match Classes::build(rt.alloc(), model) {
        Ok(_) => println!(rt; "accepted: {line}"),
        Err(error) => println!(rt; "{error:?}: {line}"),
    }
}
