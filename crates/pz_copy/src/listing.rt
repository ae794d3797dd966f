//! The objects that values lead to.

ghost use Rattle.std.specs.Prelude.{◌≡◌, ◌≤◌, ◌<◌, length, All, IfOk, OnOk};
ghost use Rattle.pz_state.specs.References.{RefersWithin};
ghost use Rattle.pz_copy.specs.References.{references};
ghost use Rattle.pz_copy.specs.Packing.{IsListing, HasOneListing};
ghost use Rattle.pz_copy.specs.devices.Gathering.{gathered};
ghost use Rattle.pz_state.specs.States.{object_limit};

use indexmap::IndexSet;
use pz_state::State;
use pz_state::pz_value::Value;
use std::alloc::{AllocError, Global};

/// Lists the references of the values that are not in the list. The only error is want of memory.
fn list_references(values: &[Value], listed: &mut IndexSet<u32>) -> Result<(), AllocError>
    ensures { OnOk result (listed.new.keys ≡ gathered listed.old.keys (references values.now)) }
{
    for value in values {
        if let Value::Ref(r) = value {
            listed.insert(*r)?;
        }
    }
    Ok(())
}

/// The objects that the values lead to, each once: those that the values name, then those that each
/// listed object names. The only error is want of memory.
pub fn list_reached(
    alloc: Global,
    state: &State,
    values: &[Value],
) -> Result<IndexSet<u32>, AllocError>
    requires { All (RefersWithin (length state.now.held.objects)) values.now }
    ensures one { HasOneListing state.now.held values.now }
    ensures listing { IfOk result (λ listed. IsListing state.now.held values.now listed.keys) }
    ensures few { IfOk result (λ listed. length listed.keys ≤ object_limit) }
    ensures there { IfOk result (λ listed. All (λ r. r < length state.now.held.objects)
        listed.keys) }
{
    // Each reference in a state names an object, so the list is never longer than this.
    let _count = state.objects();
    let mut listed = IndexSet::new(alloc);
    list_references(values, &mut listed)?;
    let mut next = 0;
    while next < listed.len() {
        let r = listed[next];
        list_references(state.object(r).items(), &mut listed)?;
        next += 1;
    }
    Ok(listed)
}
