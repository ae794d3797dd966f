ghost use Rattle.std.specs.Prelude.{◌≡◌, ◌<◌, ◌≤◌, ◌^◌, ℕ, List, length, IfOk, IfSome, IsTrue, MatchOption, Some, false, slice_get};
ghost use Rattle.std.specs.Option.{option_map_or};
ghost use Rattle.pz_bind_rules.specs.pz_syntax.Classes.{ModelTree};
ghost use Rattle.pz_classes.specs.CheckedView.{checked_model};
ghost use Rattle.pz_bind_rules.specs.pz_classes_rules.Members.{ports, spelled};
ghost use Rattle.pz_bind_rules.specs.pz_classes_rules.Kinds.{is_process};
ghost use Rattle.pz_bind_rules.specs.pz_classes_rules.Numbers.{declaration};
ghost use Rattle.pz_classes.specs.declared.classes.Classes.{Classes as Table};
ghost use Rattle.pz_bind_rules.specs.pz_classes_rules.ClassNames.{class_id};
ghost use Rattle.pz_classes.specs.Tables.{HasClass};
ghost use Rattle.pz_classes.specs.devices.Rows.{AreClasses};
ghost use Rattle.pz_bind_levels.specs.Places.{Address};
ghost use Rattle.pz_bind_levels.specs.Wires.{Channel};
ghost use Rattle.pz_bind_rules.specs.Nest as nest;
ghost use Rattle.pz_bind_rules.specs.Names as names;
ghost use Rattle.pz_bind_rules.specs.Values as values;
ghost use Rattle.pz_bind_rules.specs.Connections.{end, IsInNone};
ghost use Rattle.pz_bind_rules.specs.Wires as wires;
ghost use Rattle.pz_bind_rules.specs.Wires.{HasWire};

use crate::declared::{is_sound, system_class};
use crate::nodes::{nodes_of, wire_names_of};
use crate::plans::plans_of;
use crate::sites::sites_of;
use pz_bind_levels::{Expansion, Plan, expand};
use pz_bind_rules::pz_items::Items;
use pz_bind_rules::pz_syntax::Name;
use pz_bind_rules::pz_value::{ClassId, Value};
use pz_classes::Checked;
use std::alloc::{AllocError, Global};

/// A process: its path, its class, and the values that its variables have at first.
#[derive(Drop)]
pub(crate) struct Node {
    pub(crate) path: Name,
    pub(crate) class: ClassId,
    pub(crate) values: Items<Value>,
}

/// The processes of a system, and the wires between them. Both are numbered from 0: the processes
/// in the order of the text, each cluster expanded where it stands; of the wires first those of the
/// system, then those of each cluster, which come before those of the clusters in it.
#[derive(Drop)]
pub struct Net {
    plans: Items<Plan>,
    expansion: Expansion,
    nodes: Items<Node>,
    wire_names: Items<Name>,
    ghost few_processes: { length nodes ≤ 10000 },
    ghost few_wires: { length wire_names ≤ 1000000 },
    ghost paired: { length expansion.processes ≡ length nodes },
}

/// A number of 32 bits.
fn narrowed(wire: Option<usize>) -> Option<u32>
    ensures { IfSome wire (λ w. w < 2 ^ 32) → result ≡ wire }
{
    match wire {
        Some(wire) => u32::try_from(wire).ok(),
        None => None,
    }
}

impl Net {
    ghost use Rattle.pz_bind.specs.NetView.{HasProcess, IsWireOf};
    ghost use Rattle.pz_bind.specs.devices.Nets.{IsNet};

    /// The net of a checked model. The time is linear in what stands in the system and in the names
    /// in full. The only error is want of memory.
    pub fn flatten(alloc: Global, checked: &Checked) -> Result<Net, AllocError>
        ensures { IfOk result (IsNet (checked_model checked.now)) }
    {
        is_sound(checked);
        let plans = plans_of(alloc, checked)?;
        let expansion = expand(alloc, plans.as_slice(), system_class(checked))?;
        let sites = sites_of(alloc, checked, expansion.levels.as_slice())?;
        let nodes = nodes_of(
            alloc,
            checked,
            sites.as_slice(),
            expansion.processes.as_slice(),
        )?;
        let wire_names = wire_names_of(
            alloc,
            checked,
            sites.as_slice(),
            expansion.wires.as_slice(),
        )?;
        Ok(Net {
            plans,
            expansion,
            nodes,
            wire_names,
        })
    }

    /// How many processes there are. Each number below it is that of a process.
    pub fn processes(&self) -> u32
        ensures counted { (m : ModelTree) → IsNet m self.now → result ≡ length (nest.processes m) }
        ensures belongs { (process : ℕ) → process < result → HasProcess self.now process }
        ensures few { result ≤ 10000 }
    {
        self.nodes.len() as u32
    }

    /// How many wires there are. Each number below it is that of a wire.
    pub fn wires(&self) -> u32
        ensures counted { (m : ModelTree) → IsNet m self.now → result ≡ length (wires.wires m) }
        ensures belongs { (wire : ℕ) → wire < result → IsWireOf self.now wire }
        ensures few { result ≤ 1000000 }
    {
        self.wire_names.len() as u32
    }

    /// The path of a process: the names of the instances from the system down, joined by dots.
    pub fn path(&self, process: u32) -> &[u8]
        requires { HasProcess self.now process }
        ensures { (m : ModelTree) (place : Address) → IsNet m self.now →
            slice_get (nest.processes m) process ≡ Some place → result.now ≡ names.path m place }
    {
        self.nodes.as_slice()[process as usize]
            .path
            .as_str()
            .as_bytes()
    }

    /// The class of a process: a process class of the model.
    pub fn class(&self, process: u32) -> ClassId
        requires { HasProcess self.now process }
        ensures is { (m : ModelTree) (place : Address) → IsNet m self.now →
            slice_get (nest.processes m) process ≡ Some place →
            result ≡ class_id (nest.class_at m place) }
        ensures process { (m : ModelTree) → IsNet m self.now →
            IsTrue (option_map_or is_process (declaration m result.0) false) }
        ensures belongs { (m : ModelTree) (classes : Table) → IsNet m self.now →
            AreClasses m classes → HasClass classes result }
    {
        self.nodes.as_slice()[process as usize].class
    }

    /// The values that the parameters and variables of a process have at first, in the order of
    /// those of its class: what is given to a parameter, nil for a variable.
    pub fn values(&self, process: u32) -> &[Value]
        requires { HasProcess self.now process }
        ensures { (m : ModelTree) (place : Address) → IsNet m self.now →
            slice_get (nest.processes m) process ≡ Some place →
            result.now ≡ values.values_at m place }
    {
        self.nodes.as_slice()[process as usize].values.as_slice()
    }

    /// The name of a wire: the path of its cluster, `#`, and the number of its channel within that
    /// cluster, from 1.
    pub fn wire_name(&self, wire: u32) -> &[u8]
        requires { IsWireOf self.now wire }
        ensures { (m : ModelTree) (channel : Channel) → IsNet m self.now →
            slice_get (wires.wires m) wire ≡ Some channel → result.now ≡ names.wire_name m channel }
    {
        self.wire_names.as_slice()[wire as usize]
            .as_str()
            .as_bytes()
    }

    /// The wire of a port of a process, by the port's number in the class of the process: the last
    /// channel that it reaches. None exactly where the port is in no channel.
    pub fn wire(&self, process: u32, port: u32) -> Option<u32>
        requires { HasProcess self.now process }
        ensures { (m : ModelTree) (place : Address) (name : List ℕ) → IsNet m self.now →
            slice_get (nest.processes m) process ≡ Some place →
            slice_get (spelled (ports m (nest.class_at m place))) port ≡ Some name →
            MatchOption result (IsInNone m (end place name)) (HasWire m (end place name)) }
    {
        let standing = self.expansion.processes.as_slice()[process as usize].standing;
        narrowed(
            self.expansion
                .wire(self.plans.as_slice(), standing, port as usize),
        )
    }
}
