// Which scripts cannot drive a system, and the first line that is to blame.

ghost use Rattle.std.specs.Prelude.{◌≡◌, ◌≤◌, ◌||◌, ◌↔◌, ℕ, Some, length, is_some, IfOk};
ghost use Rattle.std.specs.List.{list_any};
ghost use Rattle.std.specs.Str.{bytes_eq};
ghost use Rattle.pz_syntax.specs.ClassView.{model_view};
ghost use Rattle.pz_classes.specs.pz_classes_rules.Numbers.{class};
ghost use Rattle.pz_classes.specs.devices.Rows.{AreClasses};
ghost use Rattle.pz_env_tree.specs.Names.{class_name, instance_name};
ghost use Rattle.pz_env_tree.specs.Refusals.{IsFirstRefused};
ghost use Rattle.pz_env_tree.specs.devices.Refused as spec;
ghost use Rattle.pz_env.specs.devices.Ends.{ends_in};
ghost use Rattle.pz_env.specs.devices.Refusing.{is_refused, first_refused};

use crate::ends::EndSet;
use crate::names::{CLASS, INSTANCE};
use crate::room::has_large_system;
use crate::standing::{connected_ports, system_instances, system_ports};
use pz_classes::Classes;
use pz_env_tree::pz_env_script::{Entry, Script};
use pz_syntax::{Instance, Model};
use std::alloc::{AllocError, Global};

/// Whether one of these has the name of the environment.
fn has_its_name(instances: &[Instance]) -> bool
    ensures { result ≡ list_any (λ x. bytes_eq x.name.name instance_name) instances.now }
{
    for instance in instances {
        if instance.name.name.as_str() == INSTANCE {
            return true;
        }
    }
    false
}

/// Whether a name of the environment is taken.
fn is_taken(model: &Model, classes: &Classes) -> bool
    requires { AreClasses (model_view model.now) classes.now }
    ensures { result ≡ (is_some (class (model_view model.now) class_name) ||
        spec.is_named_so (model_view model.now)) }
{
    classes.class(CLASS.as_bytes()).is_some() || has_its_name(system_instances(model))
}

/// Whether there is no room for an environment. The only error is want of memory.
fn is_full(alloc: Global, model: &Model, classes: &Classes) -> Result<bool, AllocError>
    requires { AreClasses (model_view model.now) classes.now }
    ensures { IfOk result (λ full. full ≡ spec.is_full (model_view model.now)) }
{
    if is_taken(model, classes) {
        Ok(true)
    } else {
        has_large_system(alloc, model, classes)
    }
}

/// Whether the end of the entry is no port of the system, or is in a channel.
fn is_refused<'a>(ports: &EndSet<'a>, taken: &EndSet<'a>, entry: &'a Entry) -> bool
    ensures { result ≡ is_refused (ends_in ports.now) (ends_in taken.now) entry.now }
{
    let instance = entry.instance.as_str().as_bytes();
    let port = entry.port.as_str().as_bytes();
    !ports.has(instance, port) || taken.has(instance, port)
}

/// The line of the first entry that is refused, counted from 1.
fn first_refused<'a>(ports: &EndSet<'a>, taken: &EndSet<'a>, entries: &'a [Entry]) -> Option<u32>
    requires { length entries.now ≤ 100000 }
    ensures { result ≡ first_refused (ends_in ports.now) (ends_in taken.now) 1 entries.now }
{
    for (index, entry) in entries.iter().enumerate() {
        if is_refused(ports, taken, entry) {
            return Some(index as u32 + 1);
        }
    }
    None
}

/// The first of these entries' lines from which on they cannot drive the system, if there is one; it is
/// 1 where there is no room for an environment. The only error is want of memory.
fn line_among(
    alloc: Global,
    model: &Model,
    classes: &Classes,
    entries: &[Entry],
) -> Result<Option<u32>, AllocError>
    requires tabled { AreClasses (model_view model.now) classes.now }
    requires few { length entries.now ≤ 100000 }
    ensures { IfOk result (λ line. line ≡ spec.refused (model_view model.now) entries.now) }
{
    if is_full(alloc, model, classes)? {
        return Ok(Some(1));
    }
    let ports = system_ports(alloc, model, classes)?;
    let taken = connected_ports(alloc, model)?;
    Ok(first_refused(&ports, &taken, entries))
}

/// The entries of a script, which are not many.
pub(crate) fn entries_of(script: &Script) -> &[Entry]
    ensures list { result.now ≡ script.now }
    ensures few { length result.now ≤ 100000 }
{
    script.entries()
}

/// The first line of a script that cannot drive the model's system, counted from 1; None where it can.
/// It is line 1 where there is no room for an environment. Takes a time that is linear in what stands in
/// the system, with the ports of its instances, and in the script, where the model is sound. The only
/// error is want of memory.
pub fn refused_line(
    alloc: Global,
    model: &Model,
    classes: &Classes,
    script: &Script,
) -> Result<Option<u32>, AllocError>
    requires { AreClasses (model_view model.now) classes.now }
    ensures { IfOk result (λ found. (line : ℕ) →
        IsFirstRefused (model_view model.now) script.now line ↔ (found ≡ Some line)) }
{
    pz_env_tree::laws::refusals_are_computed();
    line_among(alloc, model, classes, entries_of(script))
}
