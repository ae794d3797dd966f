// The parts of a declaration, and what is asked of one.

ghost use Rattle.std.specs.Prelude.{◌≡◌, [], ◌∷◌, ◌++◌, map, IfOk, OnOk};
ghost use Rattle.pz_syntax.specs.ClassView.{data_method_view, data_class_view, process_method_view, process_class_view, decl_view};
ghost use Rattle.pz_classes_mentions.specs.Declarations.{data_method, process_method, data_class_parts, process_class_parts, parts};
ghost use Rattle.pz_classes_mentions.specs.Stretches.{scope, local_names};
ghost use Rattle.pz_classes_mentions.specs.Words.{told};

use crate::classes::{
    tell_cluster, tell_data_head, tell_data_method, tell_process_head, tell_process_method,
};
use crate::groups::section;
use crate::instances::tell_instances;
use crate::part::Stretch;
use crate::{Listener, Locals, Part};
use pz_syntax::pz_items::Items;
use pz_syntax::{DataClass, DataMethod, Decl, ProcessClass, ProcessMethod};
use std::alloc::{AllocError, Global};

impl<'a> Part<'a> {
    fn new(stretch: Stretch<'a>) -> Part<'a>
        ensures { result ≡ scope stretch.entry }
    {
        Part { stretch }
    }

    /// The variables that are declared in the part, and known in it alone.
    pub fn locals(&self) -> Locals<'a>
        ensures { local_names result ≡ self.now.locals }
    {
        match self.stretch {
            Stretch::DataMethod(method) => Locals {
                inputs: section(&method.inputs),
                outputs: &[],
                others: section(&method.locals),
            },
            Stretch::ProcessMethod(method) => Locals {
                inputs: method.inputs.as_slice(),
                outputs: method.outputs.as_slice(),
                others: section(&method.locals),
            },
            Stretch::Cluster(class) => Locals {
                inputs: &[],
                outputs: &[],
                others: section(&class.parameters),
            },
            Stretch::DataHead(_) | Stretch::ProcessHead(_) | Stretch::System(_) => Locals {
                inputs: &[],
                outputs: &[],
                others: &[],
            },
        }
    }

    /// Tells each word of the part, in the order of the text: what is drawn from them, after what was
    /// drawn before.
    pub fn tell<L: Listener>(&self, listener: &L, heard: L::Heard) -> L::Heard
        requires { L.listens listener.now }
        ensures { result ≡ told (L.after listener.now) heard self.now.mentions }
    {
        match self.stretch {
            Stretch::DataHead(class) => tell_data_head(listener, heard, class),
            Stretch::DataMethod(method) => tell_data_method(listener, heard, method),
            Stretch::ProcessHead(class) => tell_process_head(listener, heard, class),
            Stretch::ProcessMethod(method) => tell_process_method(listener, heard, method),
            Stretch::Cluster(class) => tell_cluster(listener, heard, class),
            Stretch::System(system) => tell_instances(listener, heard, &system.instances),
        }
    }
}

fn push_data_methods<'a>(
    out: &mut Items<Part<'a>>,
    methods: &'a [DataMethod],
) -> Result<(), AllocError>
    ensures { OnOk result (out.new ≡ out.old ++ map data_method
        (map data_method_view methods.now)) }
{
    for method in methods {
        out.push(Part::new(Stretch::DataMethod(method)))?;
    }
    Ok(())
}

fn push_process_methods<'a>(
    out: &mut Items<Part<'a>>,
    methods: &'a [ProcessMethod],
) -> Result<(), AllocError>
    ensures { OnOk result (out.new ≡ out.old ++ map process_method
        (map process_method_view methods.now)) }
{
    for method in methods {
        out.push(Part::new(Stretch::ProcessMethod(method)))?;
    }
    Ok(())
}

fn only(alloc: Global, part: Part) -> Result<Items<Part>, AllocError>
    ensures { IfOk result (λ ps. ps ≡ part.entry ∷ []) }
{
    let mut out = Items::new(alloc);
    out.push(part)?;
    Ok(out)
}

fn data_parts(alloc: Global, class: &DataClass) -> Result<Items<Part>, AllocError>
    ensures { IfOk result (λ ps. ps ≡ data_class_parts (data_class_view class.now)) }
{
    let mut out = only(alloc, Part::new(Stretch::DataHead(class)))?;
    if let Some(methods) = &class.methods {
        push_data_methods(&mut out, methods.as_slice())?;
    }
    Ok(out)
}

fn process_parts(alloc: Global, class: &ProcessClass) -> Result<Items<Part>, AllocError>
    ensures { IfOk result (λ ps. ps ≡ process_class_parts (process_class_view class.now)) }
{
    let mut out = only(alloc, Part::new(Stretch::ProcessHead(class)))?;
    if let Some(methods) = &class.methods {
        push_process_methods(&mut out, methods.as_slice())?;
    }
    Ok(out)
}

/// The parts of a declaration, in the order of the text: what stands before its methods, then each
/// method. The only error is want of memory.
pub fn parts_of(alloc: Global, decl: &Decl) -> Result<Items<Part>, AllocError>
    ensures { IfOk result (λ ps. ps ≡ parts (decl_view decl.now)) }
{
    match decl {
        Decl::Data(class) => data_parts(alloc, class),
        Decl::Process(class) => process_parts(alloc, class),
        Decl::Cluster(class) => only(alloc, Part::new(Stretch::Cluster(class))),
        Decl::System(system) => only(alloc, Part::new(Stretch::System(system))),
    }
}
