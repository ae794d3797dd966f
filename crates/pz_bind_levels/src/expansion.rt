ghost use Rattle.std.specs.Prelude.{◌≡◌, ℕ, MatchOption, Some};
ghost use Rattle.pz_bind_levels.specs.Layouts.{AreLinked};
ghost use Rattle.pz_bind_levels.specs.Places.{Address, levels};
ghost use Rattle.pz_bind_levels.specs.Connections.{HasWire, IsInNone};
ghost use Rattle.pz_bind_levels.specs.devices.Expanded.{IsExpansion, StandsAt};
ghost use Rattle.pz_bind_levels.specs.devices.Walking as spec;
ghost use Rattle.pz_bind_levels.specs.devices.Walking.{layouts_of};

use crate::Plan;
use crate::plan::channel_of;
use pz_items::Items;

/// Where a part stands: the number of its level, and its own number in that level.
#[derive(Clone, Copy, Debug, PartialEq, Eq)]
pub struct Standing {
    pub level: usize,
    pub part: usize,
}

/// The system or a cluster in it. The system is level 0, and stands in no level.
#[derive(Drop)]
pub struct Level {
    pub class: usize,
    pub standing: Option<Standing>,
    /// The wire that each of its channels leads to.
    pub wires: Items<usize>,
}

/// A process.
#[derive(Clone, Copy, Debug, PartialEq, Eq)]
pub struct Process {
    pub class: u32,
    pub standing: Standing,
}

/// A wire: a channel that is joined with none outside its level.
#[derive(Clone, Copy, Debug, PartialEq, Eq)]
pub struct Wire {
    pub level: usize,
    /// The number of the channel in its level, from 0.
    pub channel: usize,
}

/// All that stands in a system. Levels stand in the order of the text, each before those in it; so do
/// the wires of each level, and the processes.
#[derive(Drop)]
pub struct Expansion {
    pub levels: Items<Level>,
    pub processes: Items<Process>,
    pub wires: Items<Wire>,
}

impl Expansion {
    /// The wire of a port of a part: the last channel that it reaches. None where it is in no channel
    /// of the part's level.
    pub fn wire(&self, plans: &[Plan], standing: Standing, port: usize) -> Option<usize>
        ensures { (system : ℕ) (place : Address) → AreLinked (layouts_of plans.now) →
            IsExpansion (layouts_of plans.now) system self.now →
            StandsAt (levels (layouts_of plans.now) system) (Some standing) place →
            MatchOption result (IsInNone (layouts_of plans.now) system
            (record { place = place; port = port }))
            (HasWire (layouts_of plans.now) system (record { place = place; port = port })) }
    {
        wire_at(plans, self.levels.as_slice(), standing, port)
    }
}

/// The wire that a port of a part leads to, if the part's level has it in a channel.
pub(crate) fn wire_at(
    plans: &[Plan],
    levels: &[Level],
    standing: Standing,
    port: usize,
) -> Option<usize>
    ensures { result ≡ spec.wire_at (layouts_of plans.now) levels.now standing port }
{
    match levels.get(standing.level) {
        Some(level) => wire_in(plans, level, standing.part, port),
        None => None,
    }
}

/// The same in this level.
fn wire_in(plans: &[Plan], level: &Level, part: usize, port: usize) -> Option<usize>
    ensures { result ≡ spec.wire_in (layouts_of plans.now) level.now part port }
{
    match channel_of(plans, level.class, part, port) {
        Some(channel) => level.wires.as_slice().get(channel).copied(),
        None => None,
    }
}

/// The wire that a channel leads to which has this port of its level, if it is joined with one outside.
pub(crate) fn wire_above(
    plans: &[Plan],
    levels: &[Level],
    standing: Option<Standing>,
    port: Option<usize>,
) -> Option<usize>
    ensures { result ≡ spec.wire_above (layouts_of plans.now) levels.now standing port }
{
    match (standing, port) {
        (Some(standing), Some(port)) => wire_at(plans, levels, standing, port),
        _ => None,
    }
}
