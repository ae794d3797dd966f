// What is known of the levels of a system: their classes, paths, and what their parameters are given.

ghost use Rattle.std.specs.Prelude.{◌≡◌, ◌<◌, ◌++◌, codes, length, IfOk, if◌then◌else◌, slice_get, Some};
ghost use Rattle.pz_classes.specs.CheckedView.{checked_model};
ghost use Rattle.pz_bind_levels.specs.Places.{Address};
ghost use Rattle.pz_bind_rules.specs.Nest as nest;
ghost use Rattle.pz_bind_rules.specs.Nest.{class_at};
ghost use Rattle.pz_bind.specs.devices.Sites.{IsSite, IsPlaced, StandsIn, below};
ghost use Rattle.pz_bind.specs.devices.Sites as spec;

use crate::bindings::Bindings;
use crate::declared::instances_in;
use pz_bind_levels::{Level, Standing};
use pz_bind_rules::pz_items::Items;
use pz_bind_rules::pz_syntax::{Instance, Name};
use pz_classes::Checked;
use std::alloc::{AllocError, Global};

/// A level: the system or a cluster.
#[derive(Drop)]
pub(crate) struct Site<'a> {
    pub(crate) class: usize,
    pub(crate) is_system: bool,
    pub(crate) path: Name,
    pub(crate) bindings: Bindings<'a>,
}

impl<'a> Site<'a> {
    /// The system, which is of this class. Takes no memory.
    fn system(alloc: Global, class: usize) -> Site<'a>
        ensures { spec.IsSystem class result }
    {
        Site {
            class,
            is_system: true,
            path: Name::empty(),
            bindings: Bindings::new(alloc),
        }
    }

    /// The instance of this number in the level.
    pub(crate) fn instance<'b>(&self, checked: &'b Checked, part: usize) -> &'b Instance
        requires { part < length (nest.instances_in (checked_model checked.now) self.now.class) }
        ensures { slice_get (nest.instances_in (checked_model checked.now) self.now.class) part ≡
            Some result.now }
    {
        &instances_in(checked, self.class)[part]
    }

    /// The path of an instance in the level. The only error is want of memory.
    pub(crate) fn path_of(&self, alloc: Global, instance: &Instance) -> Result<Name, AllocError>
        ensures { IfOk result (λ path. path ≡ below self.now instance.now.name.name) }
    {
        if self.is_system {
            return instance.name.name.copy();
        }
        let up = self.path.as_str();
        let name = instance.name.name.as_str();
        let path = format!(in alloc; "{up}.{name}")?;
        Name::new(alloc, path.as_str())
    }
}

/// The level that stands there, of this class. The only error is want of memory.
fn site_at<'a>(
    alloc: Global,
    checked: &'a Checked,
    sites: &[Site<'a>],
    standing: Standing,
    class: usize,
) -> Result<Site<'a>, AllocError>
    requires { IsPlaced (checked_model checked.now) sites.now standing }
    ensures { IfOk result (λ site. (place : Address) →
        StandsIn (checked_model checked.now) sites.now (Some standing) place →
        class ≡ class_at (checked_model checked.now) place →
        IsSite (checked_model checked.now) place site) }
{
    let up = &sites[standing.level];
    let instance = up.instance(checked, standing.part);
    Ok(Site {
        class,
        is_system: false,
        path: up.path_of(alloc, instance)?,
        bindings: up.bindings.below(alloc, instance)?,
    })
}

/// What is known of a level, where that is known of the levels before it. The only error is want of
/// memory.
fn site_of<'a>(
    alloc: Global,
    checked: &'a Checked,
    sites: &[Site<'a>],
    level: &Level,
) -> Result<Site<'a>, AllocError>
    requires { spec.MayStand (checked_model checked.now) sites.now level.now.standing }
    ensures { IfOk result (λ site. (place : Address) →
        StandsIn (checked_model checked.now) sites.now level.now.standing place →
        level.now.class ≡ class_at (checked_model checked.now) place →
        IsSite (checked_model checked.now) place site) }
{
    match level.standing {
        None => Ok(Site::system(alloc, level.class)),
        Some(standing) => site_at(alloc, checked, sites, standing, level.class),
    }
}

/// What is known of these levels. The only error is want of memory.
pub(crate) fn sites_of<'a>(
    alloc: Global,
    checked: &'a Checked,
    levels: &[Level],
) -> Result<Items<Site<'a>>, AllocError>
    requires { spec.AreLevels (checked_model checked.now) levels.now }
    ensures { IfOk result (spec.AreSites (checked_model checked.now)
        (nest.levels (checked_model checked.now))) }
{
    let mut sites = Items::new(alloc);
    for level in levels {
        let site = site_of(alloc, checked, sites.as_slice(), level)?;
        sites.push(site)?;
    }
    Ok(sites)
}
