// A walk through a system: from each level to its parts in order, and from a cluster into it before
// anything else.

ghost use Rattle.std.specs.Prelude.{◌≡◌, ◌<◌, ◌+◌, ◌^◌, ◌++◌, ◌∷◌, [], length, IfOk, OnOk, OnSome, if◌then◌else◌};
ghost use Rattle.std.specs.Option.{unwrap_or, is_some};
ghost use Rattle.pz_bind_levels.specs.Layouts.{layout, AreLinked};
ghost use Rattle.pz_bind_levels.specs.devices.Expanded.{IsExpansion};
ghost use Rattle.pz_bind_levels.specs.devices.Walking as spec;
ghost use Rattle.pz_bind_levels.specs.devices.Walking.{layouts_of, Goes};

use crate::expansion::wire_above;
use crate::plan::{outer_of, part_at};
use crate::{Expansion, Level, LevelPart, Plan, Process, Standing, Wire};
use pz_items::Items;
use std::alloc::{AllocError, Global};

/// A level whose parts are being visited.
#[derive(Clone, Copy, Debug, PartialEq, Eq)]
pub(crate) struct Open {
    /// The number of the level.
    level: usize,
    /// The number of the part that is visited next.
    part: usize,
    /// How many levels there may be in one another below it.
    below: usize,
}

/// How far the walk has come.
#[derive(Drop)]
pub(crate) struct Walk {
    levels: Items<Level>,
    processes: Items<Process>,
    wires: Items<Wire>,
    /// The levels that are being visited, the innermost last.
    path: Vec<Open>,
}

/// The wire of a channel: that outside with which it is joined, or else a new one. The only error is
/// want of memory.
fn wire_of(wires: &mut Items<Wire>, above: Option<usize>, wire: Wire) -> Result<usize, AllocError>
    ensures is { IfOk result (λ w. w ≡ unwrap_or above (length wires.old)) }
    ensures new { OnOk result (wires.new ≡ wires.old ++ (if is_some above then [] else wire ∷ [])) }
{
    if let Some(above) = above {
        return Ok(above);
    }
    let number = wires.len();
    wires.push(wire)?;
    Ok(number)
}

/// The wires of the channels of a level. The only error is want of memory.
fn own_wires(
    alloc: Global,
    plans: &[Plan],
    levels: &[Level],
    wires: &mut Items<Wire>,
    class: usize,
    standing: Option<Standing>,
) -> Result<Items<usize>, AllocError>
    ensures own { IfOk result (λ ws. ws ≡ spec.own_wires
        (spec.wire_above (layouts_of plans.now) levels.now standing) (length wires.old)
        (layout (layouts_of plans.now) class).outer) }
    ensures new { OnOk result (wires.new ≡ wires.old ++ spec.new_wires
        (spec.wire_above (layouts_of plans.now) levels.now standing) (length levels.now) 0
        (layout (layouts_of plans.now) class).outer) }
{
    let level = levels.len();
    let mut own = Items::new(alloc);
    for (channel, port) in outer_of(plans, class).iter().enumerate() {
        let above = wire_above(plans, levels, standing, *port);
        own.push(wire_of(wires, above, Wire { level, channel })?)?;
    }
    Ok(own)
}

impl Walk {
    /// The walk has come to this level: its parts are visited next, unless there are too many levels
    /// around it. The only error is want of memory.
    fn enter(
        &mut self,
        alloc: Global,
        plans: &[Plan],
        class: usize,
        standing: Option<Standing>,
        below: usize,
    ) -> Result<(), AllocError>
        ensures { OnOk result (spec.Enters (layouts_of plans.now) class standing below
            self.old.path.items self.old self.new) }
    {
        let level = self.levels.len();
        let own = own_wires(
            alloc,
            plans,
            self.levels.as_slice(),
            &mut self.wires,
            class,
            standing,
        )?;
        self.levels.push(Level {
            class,
            standing,
            wires: own,
        })?;
        if below > 0 {
            self.path.push(Open {
                level,
                part: 0,
                below: below - 1,
            })?;
        }
        Ok(())
    }

    /// The walk comes to this part. The only error is want of memory.
    fn visit(
        &mut self,
        alloc: Global,
        plans: &[Plan],
        part: LevelPart,
        standing: Standing,
        below: usize,
    ) -> Result<(), AllocError>
        ensures { OnOk result (spec.Visits (layouts_of plans.now) part standing below
            self.old.path.items self.old self.new) }
    {
        if part.is_level {
            self.enter(alloc, plans, part.class as usize, Some(standing), below)
        } else {
            self.processes.push(Process {
                class: part.class,
                standing,
            })?;
            Ok(())
        }
    }

    /// The part that is next in the level.
    fn next_of(&self, plans: &[Plan], current: Open) -> Option<LevelPart>
        ensures is { result ≡ spec.next_of (layouts_of plans.now) self.now.levels current }
        ensures small { OnSome result (current.part + 1 < 2 ^ 64) }
    {
        match self.levels.as_slice().get(current.level) {
            Some(level) => part_at(plans, level.class, current.part),
            None => None,
        }
    }

    /// Visits the next part of a level that was the last one open, if there is one. The only error is
    /// want of memory.
    fn step(&mut self, alloc: Global, plans: &[Plan], current: Open) -> Result<(), AllocError>
        ensures { OnOk result (spec.Steps (layouts_of plans.now) current self.old self.new) }
    {
        let Some(part) = self.next_of(plans, current) else {
            return Ok(());
        };
        self.path.push(Open {
            level: current.level,
            part: current.part + 1,
            below: current.below,
        })?;
        let standing = Standing {
            level: current.level,
            part: current.part,
        };
        self.visit(alloc, plans, part, standing, current.below)
    }

    /// The walk has come to the system. The only error is want of memory.
    fn begin(alloc: Global, plans: &[Plan], system: usize) -> Result<Walk, AllocError>
        requires { AreLinked (layouts_of plans.now) }
        ensures { IfOk result (Goes (layouts_of plans.now) system) }
    {
        let mut walk = Walk {
            levels: Items::new(alloc),
            processes: Items::new(alloc),
            wires: Items::new(alloc),
            path: Vec::new(alloc),
        };
        walk.enter(alloc, plans, system, None, plans.len().saturating_sub(1))?;
        Ok(walk)
    }
}

/// All that stands in the system that has this class, once every cluster is replaced by what it holds,
/// and the wires. The time is linear in what stands there. The only error is want of memory.
pub fn expand(alloc: Global, plans: &[Plan], system: usize) -> Result<Expansion, AllocError>
    requires { AreLinked (layouts_of plans.now) }
    ensures { IfOk result (IsExpansion (layouts_of plans.now) system) }
{
    let mut walk = Walk::begin(alloc, plans, system)?;
    while let Some(current) = walk.path.pop() {
        walk.step(alloc, plans, current)?;
    }
    let Walk {
        levels,
        processes,
        wires,
        path: _,
    } = walk;
    Ok(Expansion {
        levels,
        processes,
        wires,
    })
}
