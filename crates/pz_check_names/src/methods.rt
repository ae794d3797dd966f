// Methods that process classes declare, in nested scopes.

ghost use Rattle.std.specs.Prelude.{◌≡◌, ◌<◌, ◌^◌, ℕ, [], ◌∷◌, ◌++◌, List, length, map, All, OnOk};
ghost use Rattle.std.specs.Option.{unwrap_or, option_map};
ghost use Rattle.pz_classes_code.specs.pz_syntax.Classes.{ProcessMethodTree as Tree};
ghost use Rattle.pz_classes_code.specs.pz_syntax.ClassView.{process_method_view};
ghost use Rattle.pz_classes.specs.pz_classes_rules.Members.{grouped};
ghost use Rattle.pz_classes.specs.pz_classes_rules.Methods.{process_signature};
ghost use Rattle.pz_check_names.specs.devices.Shown.{ShowsMethods, called, signature_of};

use pz_check_scopes::Nested;
use pz_classes::count_names;
use pz_classes_code::pz_items::Items;
use pz_classes_code::pz_syntax::{Name, ProcessMethod};
use std::alloc::AllocError;

/// A method as it is called: by which name, and with how many inputs and outputs.
#[derive(Clone, Copy, PartialEq, Eq, Hash)]
pub(crate) struct Call<'a> {
    name: &'a [u8],
    inputs: usize,
    outputs: usize,
}

impl<'a> Call<'a> {
    pub(crate) fn new(name: &'a Name, inputs: usize, outputs: usize) -> Self
        ensures { signature_of result ≡ called name.now inputs outputs }
    {
        Call {
            name: name.as_str().as_bytes(),
            inputs,
            outputs,
        }
    }
}

/// How the method is called.
fn call_of(method: &ProcessMethod) -> Call
    requires inputs { length (grouped method.now.inputs) < 2 ^ 32 }
    requires outputs { length (grouped method.now.outputs) < 2 ^ 32 }
    ensures { signature_of result ≡ process_signature (process_method_view method.now) }
{
    let inputs = count_names(method.inputs.as_slice());
    let outputs = count_names(method.outputs.as_slice());
    Call::new(&method.name.name, inputs as usize, outputs as usize)
}

fn note_each<'a>(
    noted: &mut Nested<Call<'a>, ()>,
    methods: &'a [ProcessMethod],
) -> Result<(), AllocError>
    requires inputs { All (λ r. length (grouped r.inputs) < 2 ^ 32) methods.now }
    requires outputs { All (λ r. length (grouped r.outputs) < 2 ^ 32) methods.now }
    ensures { (own : List Tree) (outer : List (List Tree)) → ShowsMethods (own ∷ outer) noted.old →
        OnOk result (ShowsMethods ((own ++ map process_method_view methods.now) ∷ outer)
        noted.new) }
{
    for method in methods {
        noted.note(call_of(method), ())?;
    }
    Ok(())
}

/// Notes these methods, if they are written. The only error is want of memory.
pub(crate) fn note_methods<'a>(
    noted: &mut Nested<Call<'a>, ()>,
    methods: &'a Option<Items<ProcessMethod>>,
) -> Result<(), AllocError>
    requires inputs { All (λ r. length (grouped r.inputs) < 2 ^ 32) (unwrap_or methods.now []) }
    requires outputs { All (λ r. length (grouped r.outputs) < 2 ^ 32) (unwrap_or methods.now []) }
    ensures { (own : List Tree) (outer : List (List Tree)) → ShowsMethods (own ∷ outer) noted.old →
        OnOk result (ShowsMethods ((own ++ unwrap_or
        (option_map (map process_method_view) methods.now) []) ∷ outer) noted.new) }
{
    match methods {
        Some(methods) => note_each(noted, methods.as_slice()),
        None => Ok(()),
    }
}
