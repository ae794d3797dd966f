// The methods that a class declares.

ghost use Rattle.std.specs.Prelude.{◌≡◌, ◌<◌, ◌+◌, ◌^◌, length, map, All, IfOk};
ghost use Rattle.pz_classes_code.specs.pz_syntax.ClassView.{decl_view, data_method_view, process_method_view};
ghost use Rattle.pz_classes_code.specs.pz_syntax.ModelText.{decl_text};
ghost use Rattle.std.specs.Option.{unwrap_or};
ghost use Rattle.pz_classes_rules.specs.Members.{grouped, section};
ghost use Rattle.pz_classes_rules.specs.Methods.{data_signature, process_signature, signatures};
ghost use Rattle.pz_classes.specs.devices.MethodIn.{HasMethods};

use crate::Counts;
use crate::method_index::Methods;
use pz_classes_code::pz_items::Items;
use pz_classes_code::pz_syntax::{DataMethod, Decl, ProcessMethod, VarGroup};
use std::alloc::{AllocError, Global};

/// How many names these are.
pub fn count_names(groups: &[VarGroup]) -> u32
    requires { length (grouped groups.now) < 2 ^ 32 }
    ensures { result ≡ length (grouped groups.now) }
{
    let mut count = 0u32;
    for group in groups {
        count += group.names.len() as u32;
    }
    count
}

/// How many names a section has, none where it is not written.
pub fn count_section(groups: &Option<Items<VarGroup>>) -> u32
    requires { length (section groups.now) < 2 ^ 32 }
    ensures { result ≡ length (section groups.now) }
{
    match groups {
        None => 0,
        Some(groups) => count_names(groups.as_slice()),
    }
}

/// The methods of a data class, of which the first has this number. The only error is want of memory.
fn data_methods(alloc: Global, first: u32, methods: &[DataMethod]) -> Result<Methods, AllocError>
    requires room { first + length methods.now < 2 ^ 32 }
    requires inputs { All (λ r. length (section r.inputs) < 2 ^ 32) methods.now }
    ensures { IfOk result (HasMethods first (map data_signature
        (map data_method_view methods.now))) }
{
    let mut named = Methods::new(alloc, first);
    for method in methods {
        let counts = Counts::Data {
            inputs: count_section(&method.inputs) as usize,
        };
        named.add(alloc, &method.name.name, counts)?;
    }
    Ok(named)
}

/// The methods of a process class, of which the first has this number. The only error is want of memory.
fn process_methods(
    alloc: Global,
    first: u32,
    methods: &[ProcessMethod],
) -> Result<Methods, AllocError>
    requires room { first + length methods.now < 2 ^ 32 }
    requires inputs { All (λ r. length (grouped r.inputs) < 2 ^ 32) methods.now }
    requires outputs { All (λ r. length (grouped r.outputs) < 2 ^ 32) methods.now }
    ensures { IfOk result (HasMethods first (map process_signature
        (map process_method_view methods.now))) }
{
    let mut named = Methods::new(alloc, first);
    for method in methods {
        let counts = Counts::Process {
            inputs: count_names(method.inputs.as_slice()) as usize,
            outputs: count_names(method.outputs.as_slice()) as usize,
        };
        named.add(alloc, &method.name.name, counts)?;
    }
    Ok(named)
}

/// The methods that a class itself declares, of which the first has this number. The only error is
/// want of memory.
pub(crate) fn methods_of(alloc: Global, first: u32, decl: &Decl) -> Result<Methods, AllocError>
    requires room { first + length (signatures (decl_view decl.now)) < 2 ^ 32 }
    requires marks { length (decl_text (decl_view decl.now)) < 2 ^ 32 }
    ensures { IfOk result (HasMethods first (signatures (decl_view decl.now))) }
{
    match decl {
        Decl::Data(declared) => match &declared.methods {
            Some(methods) => data_methods(alloc, first, methods.as_slice()),
            None => Ok(Methods::new(alloc, first)),
        },
        Decl::Process(declared) => match &declared.methods {
            Some(methods) => process_methods(alloc, first, methods.as_slice()),
            None => Ok(Methods::new(alloc, first)),
        },
        Decl::Cluster(_) => Ok(Methods::new(alloc, first)),
        Decl::System(_) => Ok(Methods::new(alloc, first)),
    }
}
