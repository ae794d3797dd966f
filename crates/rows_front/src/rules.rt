//! What each call that looks for a violation answers, also where declarations and channels do not
//! stand in the order of their places.

ghost use Rattle.pz_classes_code.specs.pz_syntax.ClassView.{model_view};
ghost use Rattle.pz_classes_code.specs.pz_syntax.ModelText.{HasFewMarks};
ghost use Rattle.pz_bind.specs.pz_classes.devices.Rows.{AreClasses};

use crate::checking::{refusal_of, show_error};
use crate::reading::is_short;
use pz_bind::pz_classes::{Classes, Violation};
use pz_check::CheckError;
use pz_check_duplicates::{least_double_end, least_repeat, least_system};
use pz_check_instances::{least_ill_given, least_missing_end};
use pz_check_names::{has_unsized_words, least_misuse};
use pz_check_size::least_holding;
use pz_classes_code::pz_items::Items;
use pz_classes_code::pz_syntax::{Decl, Model, SystemDecl};
use std::alloc::{AllocError, Global};
use std::io;

/// What a search answers.
fn show_answer(
    rt: &HostRuntime,
    search: &str,
    found: Result<Option<Violation>, AllocError>,
) -> io::Result<()> {
    print!(rt; "{search} ")?;
    match found {
        Ok(None) => print!(rt; "none"),
        Ok(Some(violation)) => show_error(rt, CheckError::Refused(violation)),
        Err(_) => show_error(rt, CheckError::NoMemory),
    }
}

/// What is found at words, and what is declared again.
fn show_words(rt: &HostRuntime, model: &Model, classes: &Classes) -> io::Result<()>
    requires few { HasFewMarks (model_view model.now) }
    requires classes { AreClasses (model_view model.now) classes.now }
{
    let alloc = rt.alloc();
    show_answer(rt, "misuse", least_misuse(alloc, model, classes))?;
    let has_unsized = has_unsized_words(alloc, model, classes).unwrap_or(false);
    print!(rt; ", unsized {has_unsized}")?;
    show_answer(rt, ", repeat", least_repeat(alloc, model, classes))
}

/// What is found at instances and channels, and of clusters and systems.
fn show_systems(rt: &HostRuntime, model: &Model, classes: &Classes) -> io::Result<()>
    requires few { HasFewMarks (model_view model.now) }
    requires classes { AreClasses (model_view model.now) classes.now }
{
    let alloc = rt.alloc();
    show_answer(rt, ", ill given", least_ill_given(alloc, model, classes))?;
    show_answer(
        rt,
        ", missing end",
        least_missing_end(alloc, model, classes),
    )?;
    show_answer(rt, ", double end", least_double_end(alloc, model))?;
    show_answer(rt, ", holding", least_holding(alloc, model, classes))?;
    show_answer(rt, ", system", least_system(alloc, model))
}

fn show_found(rt: &HostRuntime, model: &Model, classes: &Classes) -> io::Result<()>
    requires few { HasFewMarks (model_view model.now) }
    requires classes { AreClasses (model_view model.now) classes.now }
{
    show_words(rt, model, classes)?;
    show_systems(rt, model, classes)
}

/// The answers of all calls on a model, or its violation of the rules on classes and parents.
fn show_built(rt: &HostRuntime, model: &Model) -> io::Result<()>
    requires { HasFewMarks (model_view model.now) }
{
    match Classes::build(rt.alloc(), model) {
        Ok(classes) => show_found(rt, model, &classes),
        Err(error) => show_error(rt, refusal_of(error)),
    }
}

/// The same on a line of its own.
fn show_answers(rt: &HostRuntime, order: &str, model: &Model) -> io::Result<()> {
    print!(rt; "  {order}: ")?;
    if !is_short(rt.alloc(), model) {
        return println!(rt; "too long");
    }
    show_built(rt, model)?;
    println!(rt)
}

/// The items, the last one first.
fn turned<T: Drop>(items: Items<T>) -> Items<T> {
    let mut items = items.into_vec();
    items.as_mut_slice().reverse();
    Items::from_vec(items)
}

fn with_turned_channels(system: SystemDecl) -> SystemDecl {
    let SystemDecl {
        pos,
        instances,
        channels,
    } = system;
    let channels = match channels {
        None => None,
        Some(channels) => Some(turned(channels)),
    };
    SystemDecl {
        pos,
        instances,
        channels,
    }
}

fn turned_within(decl: Decl) -> Decl {
    match decl {
        Decl::System(system) => Decl::System(with_turned_channels(system)),
        other => other,
    }
}

/// The model with its declarations turned round, and the channels of its systems.
fn turned_model(alloc: Global, model: Model) -> Result<Model, AllocError> {
    let mut decls = Items::new(alloc);
    for decl in model.into_decls().into_vec() {
        decls.push(turned_within(decl))?;
    }
    Ok(Model {
        decls: turned(decls),
    })
}

/// What each call answers on a model, as it was read and turned round.
pub fn show_rules(rt: &HostRuntime, model: Model) -> io::Result<()> {
    show_answers(rt, "as read", &model)?;
    let turned = turned_model(rt.alloc(), model)?;
    show_answers(rt, "turned round", &turned)
}
