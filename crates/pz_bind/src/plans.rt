// What stands in a level of each class, by numbers.

ghost use Rattle.std.specs.Prelude.{◌≡◌, ◌<◌, ◌^◌, ℕ, length, map, IfOk};
ghost use Rattle.pz_bind_rules.specs.pz_syntax.declared.clusters.Channel.{Channel as Written};
ghost use Rattle.pz_classes.specs.CheckedView.{checked_model};
ghost use Rattle.pz_bind_rules.specs.pz_classes_rules.SoundNumbers.{NumbersFit};
ghost use Rattle.pz_bind_levels.specs.devices.Walking.{layout_of, layouts_of, linked_in};
ghost use Rattle.pz_bind_rules.specs.devices.Layouts as spec;
ghost use Rattle.pz_bind_rules.specs.devices.Layouts.{class_layout, layouts, linked_by, links_from};

use crate::declared::{
    channels_in, class_of, instances_in, is_cluster_class, is_numbered, port_in,
};
use crate::naming::{Naming, number_instances};
use pz_bind_levels::{LevelPart, Links, Plan};
use pz_bind_rules::pz_items::Items;
use pz_bind_rules::pz_syntax::{Channel, ChannelEnd, Instance};
use pz_classes::Checked;
use std::alloc::{AllocError, Global};

/// An instance by the number of its class.
fn part_of(checked: &Checked, instance: &Instance) -> LevelPart
    ensures { result ≡ spec.part_of (checked_model checked.now) instance.now }
{
    let class = class_of(checked, instance);
    LevelPart {
        class,
        is_level: is_cluster_class(checked, class as usize),
    }
}

/// The only error is want of memory.
fn parts_of(
    alloc: Global,
    checked: &Checked,
    instances: &[Instance],
) -> Result<Items<LevelPart>, AllocError>
    ensures { IfOk result (λ parts. parts ≡ map (spec.part_of (checked_model checked.now))
        instances.now) }
{
    let mut parts = Items::new(alloc);
    for instance in instances {
        parts.push(part_of(checked, instance))?;
    }
    Ok(parts)
}

/// The number of the port of its own class that a channel with these ends has.
fn outer_of(checked: &Checked, class: u32, ends: &[ChannelEnd]) -> Option<usize>
    ensures { result ≡ spec.outer_from (checked_model checked.now) class ends.now }
{
    for end in ends {
        if let ChannelEnd::Outer(port) = end {
            return port_in(checked, class, port.name.as_str().as_bytes());
        }
    }
    None
}

/// The same for each of these channels. The only error is want of memory.
fn outers_of(
    alloc: Global,
    checked: &Checked,
    class: u32,
    channels: &[Channel],
) -> Result<Items<Option<usize>>, AllocError>
    ensures { IfOk result (λ outers. outers ≡ map (λ (h : Written).
        spec.outer_from (checked_model checked.now) class h.ends) channels.now) }
{
    let mut outers = Items::new(alloc);
    for channel in channels {
        outers.push(outer_of(checked, class, channel.ends.as_slice()))?;
    }
    Ok(outers)
}

/// In which channel the ports of these instances are, by their numbers. The only error is want of
/// memory.
fn links_of(
    alloc: Global,
    checked: &Checked,
    instances: &[Instance],
    parts: &[LevelPart],
    channels: &[Channel],
) -> Result<Links, AllocError>
    requires { length instances.now < 2 ^ 32 }
    ensures { IfOk result (λ links. parts.now ≡ map (spec.part_of (checked_model checked.now))
        instances.now → (i p : ℕ) → linked_in links i p ≡
        linked_by (links_from (checked_model checked.now) instances.now 0 channels.now) i p) }
{
    let naming = Naming {
        parts,
        numbers: number_instances(alloc, instances)?,
        checked,
    };
    naming.links(alloc, channels)
}

/// What stands in a level of this class. The only error is want of memory.
fn plan_of(alloc: Global, checked: &Checked, class: u32) -> Result<Plan, AllocError>
    requires numbers { NumbersFit (checked_model checked.now) }
    ensures { IfOk result (λ plan. layout_of plan ≡ class_layout
        (checked_model checked.now) class) }
{
    let instances = instances_in(checked, class as usize);
    let channels = channels_in(checked, class as usize);
    let parts = parts_of(alloc, checked, instances)?;
    let links = links_of(alloc, checked, instances, parts.as_slice(), channels)?;
    let outer = outers_of(alloc, checked, class, channels)?;
    Ok(Plan {
        parts,
        outer,
        links,
    })
}

/// What stands in a level of each class, by the classes' numbers. The only error is want of memory.
pub(crate) fn plans_of(alloc: Global, checked: &Checked) -> Result<Items<Plan>, AllocError>
    ensures { IfOk result (λ plans. layouts_of plans ≡ layouts (checked_model checked.now)) }
{
    is_numbered(checked);
    let mut plans = Items::new(alloc);
    plans.push(plan_of(alloc, checked, 0)?)?;
    let mut class = 1u32;
    let decls = checked.model().decls.as_slice();
    for _decl in decls {
        plans.push(plan_of(alloc, checked, class)?)?;
        class += 1;
    }
    Ok(plans)
}
