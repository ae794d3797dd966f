// In which channel of a level the ports of its instances are.

ghost use Rattle.std.specs.Prelude.{◌≡◌, ◌<◌, ◌^◌, ℕ, List, None, length, IfOk, OnOk};
ghost use Rattle.std.specs.Option.{option_or};
ghost use Rattle.std.specs.List.{flat_map};
ghost use Rattle.pz_bind_rules.specs.pz_syntax.declared.clusters.Instance.{Instance as Stood};
ghost use Rattle.pz_bind_rules.specs.pz_syntax.Classes.{ModelTree};
ghost use Rattle.pz_bind_rules.specs.pz_classes_code.NumberIn.{number_in};
ghost use Rattle.pz_bind_levels.specs.devices.Walking.{linked_in};
ghost use Rattle.pz_bind_rules.specs.devices.Layouts.{instance_number, port_of, linked_by, link_of, links_from};
ghost use Rattle.pz_bind.specs.devices.Namings.{IsNaming};

use crate::declared::port_in;
use pz_bind_levels::{LevelPart, Links};
use pz_bind_rules::pz_classes_code::Numbering;
use pz_bind_rules::pz_syntax::{Channel, ChannelEnd, Instance};
use pz_classes::Checked;
use std::alloc::{AllocError, Global};

/// The number of each of these instances by its name, from 0; the first of a name counts. The only
/// error is want of memory.
pub(crate) fn number_instances(
    alloc: Global,
    instances: &[Instance],
) -> Result<Numbering, AllocError>
    requires { length instances.now < 2 ^ 32 }
    ensures { IfOk result (λ numbers. (q : List ℕ) →
        number_in numbers q ≡ instance_number instances.now q) }
{
    let mut numbers = Numbering::new(alloc);
    let mut number = 0u32;
    for instance in instances {
        numbers.add(alloc, &instance.name.name, number)?;
        number += 1;
    }
    Ok(numbers)
}

/// What the names in a level stand for.
#[derive(Drop)]
pub(crate) struct Naming<'a> {
    /// The instances by their numbers.
    pub(crate) parts: &'a [LevelPart],
    /// Their numbers by their names.
    pub(crate) numbers: Numbering,
    /// The model says of each class which ports it has.
    pub(crate) checked: &'a Checked,
}

impl Naming<'_> {
    /// The number of the instance of this name.
    fn part(&self, name: &[u8]) -> Option<usize>
        ensures { (m : ModelTree) (xs : List Stood) → IsNaming m xs self.now →
            result ≡ instance_number xs name.now }
    {
        let number = self.numbers.get(name)?;
        Some(number as usize)
    }

    /// The number of the port of this name of the instance of this number.
    fn port(&self, part: usize, name: &[u8]) -> Option<usize>
        ensures { (m : ModelTree) (xs : List Stood) → IsNaming m xs self.now →
            result ≡ port_of m xs part name.now }
    {
        let class = self.parts.get(part)?.class;
        port_in(self.checked, class, name)
    }

    /// Puts an end into a channel. The only error is want of memory.
    fn add_end(&self, links: &mut Links, channel: usize, end: &ChannelEnd) -> Result<(), AllocError>
        ensures { OnOk result ((m : ModelTree) (xs : List Stood) → IsNaming m xs self.now →
            (i p : ℕ) → linked_in links.new i p ≡ option_or (linked_in links.old i p)
            (linked_by (link_of m xs channel end.now) i p)) }
    {
        let ChannelEnd::Inner(instance, port) = end else {
            return Ok(());
        };
        let Some(part) = self.part(instance.name.as_str().as_bytes()) else {
            return Ok(());
        };
        let Some(port) = self.port(part, port.name.as_str().as_bytes()) else {
            return Ok(());
        };
        links.add(part, port, channel)
    }

    /// Puts these ends into a channel. The only error is want of memory.
    fn add_ends(
        &self,
        links: &mut Links,
        channel: usize,
        ends: &[ChannelEnd],
    ) -> Result<(), AllocError>
        ensures { OnOk result ((m : ModelTree) (xs : List Stood) → IsNaming m xs self.now →
            (i p : ℕ) → linked_in links.new i p ≡ option_or (linked_in links.old i p)
            (linked_by (flat_map (link_of m xs channel) ends.now) i p)) }
    {
        for end in ends {
            self.add_end(links, channel, end)?;
        }
        Ok(())
    }

    /// In which of these channels, the first of which has number 0, the ports are. The only error is
    /// want of memory.
    pub(crate) fn links(&self, alloc: Global, channels: &[Channel]) -> Result<Links, AllocError>
        ensures { IfOk result (λ links. (m : ModelTree) (xs : List Stood) → IsNaming m xs self.now
            → (i p : ℕ) → linked_in links i p ≡ linked_by (links_from m xs 0 channels.now) i p) }
    {
        let mut links = Links::new(alloc);
        for (number, channel) in channels.iter().enumerate() {
            self.add_ends(&mut links, number, channel.ends.as_slice())?;
        }
        Ok(links)
    }
}
