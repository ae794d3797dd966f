// C14: an instance gives the parameters of its class.

ghost use Rattle.std.specs.Prelude.{◌≡◌, ◌++◌, ℕ, [], suc, length, map, IfOk, OnOk};
ghost use Rattle.std.specs.List.{flat_map};
ghost use Rattle.pz_classes_code.specs.pz_syntax.ClassView.{model_view};
ghost use Rattle.pz_classes.specs.pz_check_violations.Least.{LeastOf, least_from};
ghost use Rattle.pz_classes.specs.pz_classes_rules.InstanceRules.{BreaksC14, given_names};
ghost use Rattle.pz_classes.specs.devices.Rows.{AreClasses};
ghost use Rattle.pz_check_instances.specs.devices.NameSets.{names_in};
ghost use Rattle.pz_check_instances.specs.devices.ClassRows.{row, row_count};
ghost use Rattle.pz_check_instances.specs.devices.Given as spec;
ghost use Rattle.pz_check_instances.specs.devices.Given.{gives_wanted, lacking, if_of_class, of_class, all_instances};

use crate::by_class::ByClass;
use crate::name_set::NameSet;
use crate::open_names::OpenNames;
use crate::parts::{given_of, parameters_at};
use pz_classes::pz_check_violations::{Violation, lesser};
use pz_classes::{Classes, class_of_instance, instances_of};
use pz_classes_code::pz_syntax::{Given, Instance, Model};
use std::alloc::{AllocError, Global};

/// Whether each of these names is wanted, and none is given twice. The only error is want of memory.
fn all_new(alloc: Global, given: &[Given], wanted: &NameSet) -> Result<bool, AllocError>
    ensures { IfOk result (λ are. are ≡ spec.all_new (names_in wanted.now) []
        (map (λ g. g.name.name) given.now)) }
{
    let mut seen = NameSet::new(alloc);
    for item in given {
        let name = item.name.name.as_str().as_bytes();
        if !wanted.has(name) {
            return Ok(false);
        }
        if !seen.add(name)? {
            return Ok(false);
        }
    }
    Ok(true)
}

/// Whether an instance gives each of the wanted names once, and no other: as many as there are,
/// and all of them different. The only error is want of memory.
fn gives_each(alloc: Global, instance: &Instance, wanted: &NameSet) -> Result<bool, AllocError>
    ensures { IfOk result (λ gives. gives ≡ gives_wanted (given_names instance.now)
        (names_in wanted.now)) }
{
    let given = given_of(instance);
    if given.len() != wanted.len() {
        return Ok(false);
    }
    all_new(alloc, given, wanted)
}

/// The least of what was found before and the violation of this instance, of whose class these are
/// the parameters. The only error is want of memory.
fn least_of_instance(
    alloc: Global,
    wanted: &NameSet,
    instance: &Instance,
    before: Option<Violation>,
) -> Result<Option<Violation>, AllocError>
    ensures { IfOk result (λ least. least ≡ least_from before
        (lacking (names_in wanted.now) instance.now)) }
{
    if gives_each(alloc, instance, wanted)? {
        return Ok(before);
    }
    let violation = Violation {
        rule: 14,
        pos: instance.name.pos,
    };
    Ok(lesser(before, violation))
}

/// The least of what was found before and the violations of these instances, of whose class these
/// are the parameters. The only error is want of memory.
fn least_of_class(
    alloc: Global,
    wanted: &NameSet,
    instances: &[&Instance],
    before: Option<Violation>,
) -> Result<Option<Violation>, AllocError>
    ensures { IfOk result (λ least. least ≡ least_from before
        (flat_map (λ i. lacking (names_in wanted.now) i.now) instances.now)) }
{
    let mut least = before;
    for instance in instances {
        least = least_of_instance(alloc, wanted, instance, least)?;
    }
    Ok(least)
}

/// Adds an instance to the row of its class, if that may have instances. The only error is want of
/// memory.
fn add_instance<'a>(
    rows: &mut ByClass<&'a Instance>,
    model: &Model,
    classes: &Classes,
    instance: &'a Instance,
) -> Result<(), AllocError>
    requires known { AreClasses (model_view model.now) classes.now }
    requires rows { row_count rows.old ≡ suc (length model.now.decls) }
    ensures counted { OnOk result (row_count rows.new ≡ row_count rows.old) }
    ensures added { OnOk result ((k : ℕ) → map (λ i. i.now) (row rows.new k) ≡ map (λ i. i.now)
        (row rows.old k) ++ if_of_class (model_view model.now) k instance.now) }
{
    match class_of_instance(model, classes, &instance.class.name) {
        Some(class) => rows.add(class.0, instance),
        None => Ok(()),
    }
}

/// Adds each of these instances to the row of its class. The only error is want of memory.
fn add_instances<'a>(
    rows: &mut ByClass<&'a Instance>,
    model: &Model,
    classes: &Classes,
    instances: &'a [Instance],
) -> Result<(), AllocError>
    requires known { AreClasses (model_view model.now) classes.now }
    requires rows { row_count rows.old ≡ suc (length model.now.decls) }
    ensures counted { OnOk result (row_count rows.new ≡ row_count rows.old) }
    ensures added { OnOk result ((k : ℕ) → map (λ i. i.now) (row rows.new k) ≡ map (λ i. i.now)
        (row rows.old k) ++ of_class (model_view model.now) k instances.now) }
{
    for instance in instances {
        add_instance(rows, model, classes, instance)?;
    }
    Ok(())
}

/// The instances of each class. The only error is want of memory.
fn instances_by_class<'a>(
    alloc: Global,
    model: &'a Model,
    classes: &Classes,
) -> Result<ByClass<&'a Instance>, AllocError>
    requires { AreClasses (model_view model.now) classes.now }
    ensures counted { IfOk result (λ rows. row_count rows ≡ suc (length model.now.decls)) }
    ensures listed { IfOk result (λ rows. (k : ℕ) →
        map (λ i. i.now) (row rows k) ≡ of_class (model_view model.now) k
        (all_instances (model_view model.now))) }
{
    let mut rows = ByClass::new(alloc, classes.count())?;
    for decl in model.decls.as_slice() {
        add_instances(&mut rows, model, classes, instances_of(decl))?;
    }
    Ok(rows)
}

/// The least violation of C14, if there is one: an instance that does not give each parameter of its
/// class once, or gives what is none. The only error is want of memory.
pub fn least_ill_given(
    alloc: Global,
    model: &Model,
    classes: &Classes,
) -> Result<Option<Violation>, AllocError>
    requires { AreClasses (model_view model.now) classes.now }
    ensures { IfOk result (LeastOf (BreaksC14 (model_view model.now))) }
{
    let instances = instances_by_class(alloc, model, classes)?;
    let mut opened = OpenNames::new(alloc);
    let mut least = None;
    for visit in classes.preorder() {
        opened.enter(visit.depth)?;
        opened.add_groups(parameters_at(model, visit.class))?;
        least = least_of_class(alloc, opened.names(), instances.of(visit.class), least)?;
    }
    Ok(least)
}
