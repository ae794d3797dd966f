ghost use Rattle.std.specs.Prelude.{◌≡◌, ◌<◌, ◌+◌, ◌^◌, OnSome};
ghost use Rattle.pz_bind_levels.specs.Layouts.{layout};
ghost use Rattle.pz_bind_levels.specs.devices.Walking as spec;
ghost use Rattle.pz_bind_levels.specs.devices.Walking.{layouts_of};

use crate::Links;
use pz_items::Items;

/// What stands in a level: an instance of this class. That of a cluster class is a level again.
#[derive(Clone, Copy, Debug, PartialEq, Eq)]
pub struct LevelPart {
    pub class: u32,
    pub is_level: bool,
}

/// What stands in each level of one class: in the system, or in a cluster. Parts and channels are
/// numbered from 0 in the order of the text.
#[derive(Drop)]
pub struct Plan {
    pub parts: Items<LevelPart>,
    /// For each channel the number of the port of the level itself that is in it, if there is one.
    pub outer: Items<Option<usize>>,
    /// In which channel the ports of the parts are.
    pub links: Links,
}

/// The part of this number of a level of this class.
pub(crate) fn part_at(plans: &[Plan], class: usize, part: usize) -> Option<LevelPart>
    ensures is { result ≡ spec.part_at (layouts_of plans.now) class part }
    ensures small { OnSome result (part + 1 < 2 ^ 64) }
{
    let parts = parts_of(plans, class);
    if part < parts.len() {
        Some(parts[part])
    } else {
        None
    }
}

/// The parts of a level of this class.
fn parts_of(plans: &[Plan], class: usize) -> &[LevelPart]
    ensures { result.now ≡ (layout (layouts_of plans.now) class).parts }
{
    match plans.get(class) {
        Some(plan) => plan.parts.as_slice(),
        None => &[],
    }
}

/// For each channel of a level of this class, the port of the level itself that is in it.
pub(crate) fn outer_of(plans: &[Plan], class: usize) -> &[Option<usize>]
    ensures { result.now ≡ (layout (layouts_of plans.now) class).outer }
{
    match plans.get(class) {
        Some(plan) => plan.outer.as_slice(),
        None => &[],
    }
}

/// The channel of a level of this class in which this port of this part is.
pub(crate) fn channel_of(plans: &[Plan], class: usize, part: usize, port: usize) -> Option<usize>
    ensures { result ≡ (layout (layouts_of plans.now) class).linked part port }
{
    match plans.get(class) {
        Some(plan) => plan.links.get(part, port),
        None => None,
    }
}
