// What the ends of channels need.

ghost use Rattle.std.specs.Prelude.{◌≡◌, ◌<◌, ◌^◌, ℕ, List, length, slice_get, IfOk};
ghost use Rattle.std.specs.Option.{option_copied};
ghost use Rattle.pz_classes_code.specs.pz_syntax.ClassView.{decl_view, model_view};
ghost use Rattle.pz_classes_code.specs.NumberIn.{number_in};
ghost use Rattle.pz_classes.specs.pz_classes_rules.ChannelRules as rules;
ghost use Rattle.pz_classes.specs.devices.Rows.{AreClasses};
ghost use Rattle.pz_check_instances.specs.devices.Ends.{place_named};
ghost use Rattle.pz_check_instances.specs.devices.Needs as spec;
ghost use Rattle.pz_check_instances.specs.devices.Inside.{IsInside};

use pz_classes::{Classes, class_of_instance, instances_of};
use pz_classes_code::Numbering;
use pz_classes_code::pz_syntax::{ChannelEnd, Decl, Instance, Model, Name};
use std::alloc::{AllocError, Global};

/// What an end of a channel needs.
#[derive(Clone, Copy, Debug)]
pub(crate) enum Need {
    /// Nothing: its instance is of no class that may have instances.
    Nothing,
    /// That its port is one of the class of this number.
    Port(u32),
    /// An instance that is not there, or a port of what has none.
    Missing,
}

/// A declaration with its number, and the places of its instances by their names.
#[derive(Drop)]
pub(crate) struct Inside<'a> {
    pub(crate) decl: &'a Decl,
    pub(crate) number: u32,
    pub(crate) places: &'a Numbering,
}

/// The place of each instance by its name, from 0; the first of a name counts. The only error is
/// want of memory.
pub(crate) fn places_of(alloc: Global, instances: &[Instance]) -> Result<Numbering, AllocError>
    requires { length instances.now < 2 ^ 32 }
    ensures { IfOk result (λ places. (q : List ℕ) →
        number_in places q ≡ place_named 0 instances.now q) }
{
    let mut places = Numbering::new(alloc);
    let mut place = 0u32;
    for instance in instances {
        places.add(alloc, &instance.name.name, place)?;
        place += 1;
    }
    Ok(places)
}

fn instance_at(instances: &[Instance], place: u32) -> Option<&Instance>
    ensures { option_copied result ≡ slice_get instances.now place }
{
    instances.get(place as usize)
}

/// What an end at this instance needs.
fn need_of_instance(model: &Model, classes: &Classes, instance: &Instance) -> Need
    requires { AreClasses (model_view model.now) classes.now }
    ensures { result ≡ spec.need_of_instance (model_view model.now) instance.now }
{
    match class_of_instance(model, classes, &instance.class.name) {
        Some(class) => Need::Port(class.0),
        None => Need::Nothing,
    }
}

impl Inside<'_> {
    /// The instance of this name.
    fn instance(&self, name: &Name) -> Option<&Instance>
        requires { IsInside self.now }
        ensures { option_copied result ≡ rules.instance_named
            (decl_view self.now.decl.now) name.now }
    {
        let place = self.places.get(name.as_str().as_bytes())?;
        instance_at(instances_of(self.decl), place)
    }

    /// What an end at the instance of this name needs.
    fn need_of_inner(&self, model: &Model, classes: &Classes, name: &Name) -> Need
        requires known { AreClasses (model_view model.now) classes.now }
        requires placed { IsInside self.now }
        ensures { result ≡ spec.need_of_inner (model_view model.now)
            (decl_view self.now.decl.now) name.now }
    {
        match self.instance(name) {
            Some(instance) => need_of_instance(model, classes, instance),
            None => Need::Missing,
        }
    }

    /// What an end at a port of the cluster itself needs.
    fn need_of_outer(&self) -> Need
        ensures { result ≡ spec.need_of_outer self.now.number (decl_view self.now.decl.now) }
    {
        match self.decl {
            Decl::Cluster(_) => Need::Port(self.number),
            _ => Need::Missing,
        }
    }

    /// What this end needs.
    pub(crate) fn need(&self, model: &Model, classes: &Classes, end: &ChannelEnd) -> Need
        requires known { AreClasses (model_view model.now) classes.now }
        requires placed { IsInside self.now }
        ensures { result ≡ spec.need (model_view model.now) self.now.number
            (decl_view self.now.decl.now) end.now }
    {
        match end {
            ChannelEnd::Inner(name, _) => self.need_of_inner(model, classes, &name.name),
            ChannelEnd::Outer(_) => self.need_of_outer(),
        }
    }
}
