// The processes and the names of the wires, from what is known of the levels.

ghost use Rattle.std.specs.Prelude.{◌≡◌, ◌<◌, ◌++◌, suc, codes, length, map, IfOk, Some, slice_get};
ghost use Rattle.std.specs.Fmt.{decimal};
ghost use Rattle.pz_classes.specs.CheckedView.{checked_model};
ghost use Rattle.pz_bind_levels.specs.Places.{Address};
ghost use Rattle.pz_bind_rules.specs.Nest.{class_at, levels};
ghost use Rattle.pz_bind_rules.specs.Nest as nest;
ghost use Rattle.pz_bind_rules.specs.Names as spec_names;
ghost use Rattle.pz_bind_rules.specs.Wires as spec_wires;
ghost use Rattle.pz_bind.specs.devices.Nets.{node_at};
ghost use Rattle.pz_bind.specs.devices.Sites.{AreSites, IsPlaced, StandsIn};
ghost use Rattle.pz_bind.specs.declared.sites.Site.{Site as Known};
ghost use Rattle.pz_bind.specs.devices.Processes.{AreProcesses, AreWires};

use crate::declared::variables_of;
use crate::net::Node;
use crate::sites::Site;
use pz_bind_levels::{Process, Wire};
use pz_bind_rules::pz_items::Items;
use pz_bind_rules::pz_syntax::Name;
use pz_bind_rules::pz_value::ClassId;
use pz_classes::Checked;
use std::alloc::{AllocError, Global};

/// A process. The only error is want of memory.
fn node_of<'a>(
    alloc: Global,
    checked: &'a Checked,
    sites: &[Site<'a>],
    process: Process,
) -> Result<Node, AllocError>
    requires { IsPlaced (checked_model checked.now) sites.now process.standing }
    ensures { IfOk result (λ node. (place : Address) →
        StandsIn (checked_model checked.now) sites.now (Some process.standing) place →
        process.class ≡ class_at (checked_model checked.now) place →
        node ≡ node_at (checked_model checked.now) place) }
{
    let up = &sites[process.standing.level];
    let instance = up.instance(checked, process.standing.part);
    let bindings = up.bindings.below(alloc, instance)?;
    let values = bindings.values(alloc, variables_of(checked, process.class))?;
    let path = up.path_of(alloc, instance)?;
    Ok(Node {
        path,
        class: ClassId(process.class),
        values,
    })
}

/// These processes. The only error is want of memory.
pub(crate) fn nodes_of<'a>(
    alloc: Global,
    checked: &'a Checked,
    sites: &[Site<'a>],
    processes: &[Process],
) -> Result<Items<Node>, AllocError>
    requires known { AreSites (checked_model checked.now)
        (levels (checked_model checked.now)) sites.now }
    requires expanded { AreProcesses (checked_model checked.now) processes.now }
    ensures { IfOk result (λ nodes. nodes ≡ map (node_at (checked_model checked.now))
        (nest.processes (checked_model checked.now))) }
{
    let mut nodes = Items::new(alloc);
    for process in processes {
        nodes.push(node_of(alloc, checked, sites, *process)?)?;
    }
    Ok(nodes)
}

/// The name of a wire. The only error is want of memory.
fn wire_name(alloc: Global, sites: &[Site], wire: Wire) -> Result<Name, AllocError>
    requires { wire.level < length sites.now }
    ensures { IfOk result (λ name. (site : Known) → slice_get sites.now wire.level ≡ Some site →
        name ≡ site.path ++ (codes "#" ++ decimal (suc wire.channel))) }
{
    let path = sites[wire.level].path.as_str();
    // Wide enough for one more.
    let number = wire.channel as u128 + 1;
    let name = format!(in alloc; "{path}#{number}")?;
    Name::new(alloc, name.as_str())
}

/// The names of these wires. The only error is want of memory.
pub(crate) fn wire_names_of(
    alloc: Global,
    checked: &Checked,
    sites: &[Site],
    wires: &[Wire],
) -> Result<Items<Name>, AllocError>
    requires known { AreSites (checked_model checked.now)
        (levels (checked_model checked.now)) sites.now }
    requires expanded { AreWires (checked_model checked.now) wires.now }
    ensures { IfOk result (λ names. names ≡ map (spec_names.wire_name (checked_model checked.now))
        (spec_wires.wires (checked_model checked.now))) }
{
    let mut names = Items::new(alloc);
    for wire in wires {
        names.push(wire_name(alloc, sites, *wire)?)?;
    }
    Ok(names)
}
