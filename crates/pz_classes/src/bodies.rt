// The bodies of methods, with slots and numbers in place of names. The only error is want of memory.

ghost use Rattle.std.specs.Prelude.{◌≡◌, ◌<◌, ◌+◌, ◌^◌, ◌++◌, ℕ, List, length, map, All, IfOk, OnOk};
ghost use Rattle.pz_classes_code.specs.pz_syntax.Classes.{ModelTree};
ghost use Rattle.pz_classes_code.specs.pz_syntax.ClassView.{decl_view, model_view, data_method_view, process_method_view};
ghost use Rattle.pz_classes_code.specs.NumberIn.{number_in};
ghost use Rattle.pz_classes_rules.specs.Numbers.{class};
ghost use Rattle.pz_classes_rules.specs.Ancestors.{ancestors};
ghost use Rattle.pz_classes_code.specs.pz_syntax.ModelText.{decl_text, HasFewMarks};
ghost use Rattle.pz_classes_rules.specs.Members.{spelled};
ghost use Rattle.pz_classes.specs.devices.Inherited.{HasMembers};
ghost use Rattle.pz_classes_rules.specs.Bodies as spec;
ghost use Rattle.pz_classes_rules.specs.BodyView.{body_view};
ghost use Rattle.pz_classes.specs.devices.Surrounding.{scope_around, Numbers};
ghost use Rattle.pz_classes.specs.devices.Rows.{row_view, rows};

use crate::Body;
use crate::entry::Entry;
use crate::front::Front;
use crate::members::{push_groups, push_section};
use crate::surroundings::{Surroundings, count};
use pz_classes_code::pz_items::Items;
use pz_classes_code::pz_syntax::{DataMethod, Decl, Model, Name, ProcessMethod};
use pz_classes_code::{Numbering, Scope, places_of, resolve_list, resolve_statements};
use std::alloc::{AllocError, Global};

/// The names of inputs and locals.
fn data_names(alloc: Global, method: &DataMethod) -> Result<Items<Name>, AllocError>
    ensures { IfOk result (λ names. names ≡ spelled
        (spec.data_locals (data_method_view method.now))) }
{
    let mut names = Items::new(alloc);
    push_section(&mut names, &method.inputs)?;
    push_section(&mut names, &method.locals)?;
    Ok(names)
}

/// The names of inputs, outputs and locals.
fn process_names(alloc: Global, method: &ProcessMethod) -> Result<Items<Name>, AllocError>
    ensures { IfOk result (λ names. names ≡ spelled
        (spec.process_locals (process_method_view method.now))) }
{
    let mut names = Items::new(alloc);
    push_groups(&mut names, method.inputs.as_slice())?;
    push_groups(&mut names, method.outputs.as_slice())?;
    push_section(&mut names, &method.locals)?;
    Ok(names)
}

fn data_body(
    alloc: Global,
    around: &Surroundings<'_>,
    classes: &Numbering,
    method: &DataMethod,
) -> Result<Body, AllocError>
    requires { length (spec.data_locals (data_method_view method.now)) < 2 ^ 32 }
    ensures { IfOk result (λ b. body_view b ≡ spec.data_body_in
        (scope_around around.now classes.now) (data_method_view method.now)) }
{
    let names = data_names(alloc, method)?;
    let places = places_of(alloc, names.as_slice())?;
    let scope = Scope {
        locals: &places,
        shared: around.shared,
        ports: around.ports,
        classes,
    };
    let code = resolve_list(alloc, &scope, method.body.as_slice())?;
    let locals = count(names.as_slice());
    Ok(Body::Data { locals, code })
}

fn process_body(
    alloc: Global,
    around: &Surroundings<'_>,
    classes: &Numbering,
    method: &ProcessMethod,
) -> Result<Body, AllocError>
    requires { length (spec.process_locals (process_method_view method.now)) < 2 ^ 32 }
    ensures { IfOk result (λ b. body_view b ≡ spec.process_body_in
        (scope_around around.now classes.now) (process_method_view method.now)) }
{
    let names = process_names(alloc, method)?;
    let places = places_of(alloc, names.as_slice())?;
    let scope = Scope {
        locals: &places,
        shared: around.shared,
        ports: around.ports,
        classes,
    };
    let stmts = resolve_statements(alloc, &scope, method.body.as_slice())?;
    let locals = count(names.as_slice());
    Ok(Body::Process { locals, stmts })
}

fn push_data_bodies(
    alloc: Global,
    around: &Surroundings<'_>,
    classes: &Numbering,
    methods: &[DataMethod],
    bodies: &mut Items<Body>,
) -> Result<(), AllocError>
    requires { All (λ r. length (spec.data_locals (data_method_view r)) < 2 ^ 32) methods.now }
    ensures { OnOk result (map body_view bodies.new ≡ map body_view bodies.old ++ map
        (spec.data_body_in (scope_around around.now classes.now))
        (map data_method_view methods.now)) }
{
    for method in methods {
        bodies.push(data_body(alloc, around, classes, method)?)?;
    }
    Ok(())
}

fn push_process_bodies(
    alloc: Global,
    around: &Surroundings<'_>,
    classes: &Numbering,
    methods: &[ProcessMethod],
    bodies: &mut Items<Body>,
) -> Result<(), AllocError>
    requires { All (λ r. length (spec.process_locals (process_method_view r)) < 2 ^ 32)
        methods.now }
    ensures { OnOk result (map body_view bodies.new ≡ map body_view bodies.old ++ map
        (spec.process_body_in (scope_around around.now classes.now))
        (map process_method_view methods.now)) }
{
    for method in methods {
        bodies.push(process_body(alloc, around, classes, method)?)?;
    }
    Ok(())
}

/// Adds the bodies of the methods that the class of this declaration itself declares.
fn push_bodies(
    alloc: Global,
    classes: &Numbering,
    members: &Front,
    decl: &Decl,
    bodies: &mut Items<Body>,
) -> Result<(), AllocError>
    requires { length (decl_text (decl_view decl.now)) < 2 ^ 32 }
    ensures { OnOk result ((m : ModelTree) (c : ℕ) → Numbers m classes.now →
        HasMembers m (ancestors m c) members.now →
        map body_view bodies.new ≡ map body_view bodies.old ++ spec.own_bodies m c
        (decl_view decl.now)) }
{
    match decl {
        Decl::Data(class) => match &class.methods {
            Some(methods) => {
                let around = members.around_data();
                push_data_bodies(alloc, &around, classes, methods.as_slice(), bodies)
            }
            None => Ok(()),
        },
        Decl::Process(class) => match &class.methods {
            Some(methods) => {
                let around = members.around_process();
                push_process_bodies(alloc, &around, classes, methods.as_slice(), bodies)
            }
            None => Ok(()),
        },
        Decl::Cluster(_) => Ok(()),
        Decl::System(_) => Ok(()),
    }
}

/// The body of each method of the model, at its number.
pub(crate) fn bodies_of(
    alloc: Global,
    model: &Model,
    numbering: &Numbering,
    entries: &[Entry],
) -> Result<Items<Body>, AllocError>
    requires numbered { Numbers (model_view model.now) numbering.now }
    requires listed { map row_view entries.now ≡ rows (model_view model.now) }
    requires few { HasFewMarks (model_view model.now) }
    requires room { length model.now.decls + 1 < 2 ^ 32 }
    ensures { IfOk result (λ bodies. map body_view bodies ≡ spec.bodies (model_view model.now)) }
{
    let mut bodies = Items::new(alloc);
    let mut number = 0u32;
    for decl in model.decls.as_slice() {
        number += 1;
        let members = &entries[number as usize].members;
        push_bodies(alloc, numbering, members, decl, &mut bodies)?;
    }
    Ok(bodies)
}
