// What is asked of the methods of a model, whatever the class.

ghost use Rattle.std.specs.Prelude.{◌≡◌, ◌<◌, ◌^◌, ◌++◌, Some, None, length, map, All, IfOk, OnOk};
ghost use Rattle.std.specs.List.{flat_map};
ghost use Rattle.pz_classes.specs.pz_syntax.ClassView.{decl_view, model_view, data_method_view, process_method_view};
ghost use Rattle.pz_classes.specs.pz_syntax.ModelText.{decl_text, HasFewMarks};
ghost use Rattle.pz_classes.specs.pz_syntax.StatementView.{sequence_view};
ghost use Rattle.pz_classes.specs.pz_classes_rules.Members.{grouped};
ghost use Rattle.pz_classes_beginnings.specs.Beginning.{begun_all, all_plain_calls};
ghost use Rattle.pz_check_openings.specs.devices.Outlines as spec;

use pz_check_calls::MANY;
use pz_classes::count_names;
use pz_classes::pz_items::Items;
use pz_classes::pz_syntax::{Decl, Id, Model, ProcessMethod, Stmt};
use pz_classes_beginnings::{add_begun, add_plain_calls, count_up_to};
use std::alloc::{AllocError, Global};

/// A process method: its name, its counts, how many statements its body has as far as `MANY`, the
/// plain calls with which it begins, and all its plain calls.
#[derive(Drop)]
pub(crate) struct Outline {
    pub(crate) name: Id,
    pub(crate) inputs: usize,
    pub(crate) outputs: usize,
    pub(crate) statements: u32,
    pub(crate) begun: Items<Id>,
    pub(crate) calls: Items<Id>,
}

/// Equal names at the same places. The only error is want of memory.
fn copy_of(alloc: Global, names: &[Id]) -> Result<Items<Id>, AllocError>
    ensures { IfOk result (λ xs. xs ≡ names.now) }
{
    let mut copy = Items::new(alloc);
    for name in names {
        copy.push(name.copy()?)?;
    }
    Ok(copy)
}

impl Outline {
    /// An equal outline. The only error is want of memory.
    pub(crate) fn copy(&self, alloc: Global) -> Result<Outline, AllocError>
        ensures { IfOk result (λ copy. copy ≡ self.now) }
    {
        let name = self.name.copy()?;
        let begun = copy_of(alloc, self.begun.as_slice())?;
        let calls = copy_of(alloc, self.calls.as_slice())?;
        Ok(Outline {
            name,
            inputs: self.inputs,
            outputs: self.outputs,
            statements: self.statements,
            begun,
            calls,
        })
    }
}

/// The plain calls with which these statements begin. The only error is want of memory.
fn begun_of(alloc: Global, body: &[Stmt]) -> Result<Items<Id>, AllocError>
    ensures { IfOk result (λ xs. xs ≡ begun_all (sequence_view body.now)) }
{
    let mut begun = Items::new(alloc);
    add_begun(&mut begun, body)?;
    Ok(begun)
}

/// The plain calls in these statements. The only error is want of memory.
fn calls_of(alloc: Global, body: &[Stmt]) -> Result<Items<Id>, AllocError>
    ensures { IfOk result (λ xs. xs ≡ all_plain_calls (sequence_view body.now)) }
{
    let mut calls = Items::new(alloc);
    add_plain_calls(&mut calls, body)?;
    Ok(calls)
}

fn outline_of(alloc: Global, method: &ProcessMethod) -> Result<Outline, AllocError>
    requires inputs { length (grouped method.now.inputs) < 2 ^ 32 }
    requires outputs { length (grouped method.now.outputs) < 2 ^ 32 }
    ensures { IfOk result (λ o. o ≡ spec.outline_of (process_method_view method.now)) }
{
    let name = method.name.copy()?;
    let begun = begun_of(alloc, method.body.as_slice())?;
    let calls = calls_of(alloc, method.body.as_slice())?;
    Ok(Outline {
        name,
        inputs: count_names(method.inputs.as_slice()) as usize,
        outputs: count_names(method.outputs.as_slice()) as usize,
        statements: count_up_to(method.body.as_slice(), MANY),
        begun,
        calls,
    })
}

/// Adds those of the methods of a process class. The only error is want of memory.
fn push_process(
    alloc: Global,
    methods: &[ProcessMethod],
    outlines: &mut Items<Option<Outline>>,
) -> Result<(), AllocError>
    requires inputs { All (λ r. length (grouped r.inputs) < 2 ^ 32) methods.now }
    requires outputs { All (λ r. length (grouped r.outputs) < 2 ^ 32) methods.now }
    ensures { OnOk result (outlines.new ≡ outlines.old ++
        map (λ r. Some (spec.outline_of (process_method_view r))) methods.now) }
{
    for method in methods {
        outlines.push(Some(outline_of(alloc, method)?))?;
    }
    Ok(())
}

/// Adds so many methods of a data class. The only error is want of memory.
fn push_data(count: usize, outlines: &mut Items<Option<Outline>>) -> Result<(), AllocError>
    ensures { OnOk result (outlines.new ≡ outlines.old ++ spec.nones count) }
{
    for _method in 0..count {
        outlines.push(None)?;
    }
    Ok(())
}

/// Adds those of the methods that a class declares. The only error is want of memory.
fn push_declared(
    alloc: Global,
    decl: &Decl,
    outlines: &mut Items<Option<Outline>>,
) -> Result<(), AllocError>
    requires { length (decl_text (decl_view decl.now)) < 2 ^ 32 }
    ensures { OnOk result (outlines.new ≡ outlines.old ++ spec.declared_outlines
        (decl_view decl.now)) }
{
    match decl {
        Decl::Data(class) => match &class.methods {
            Some(methods) => push_data(methods.len(), outlines),
            None => Ok(()),
        },
        Decl::Process(class) => match &class.methods {
            Some(methods) => push_process(alloc, methods.as_slice(), outlines),
            None => Ok(()),
        },
        Decl::Cluster(_) => Ok(()),
        Decl::System(_) => Ok(()),
    }
}

/// Those of all methods of the model, each at its number. The only error is want of memory.
pub(crate) fn outlines_of(
    alloc: Global,
    model: &Model,
) -> Result<Items<Option<Outline>>, AllocError>
    requires { HasFewMarks (model_view model.now) }
    ensures { IfOk result (λ os. os ≡ spec.outlines (model_view model.now)) }
{
    let mut outlines = Items::new(alloc);
    for decl in model.decls.as_slice() {
        push_declared(alloc, decl, &mut outlines)?;
    }
    Ok(outlines)
}
