// Ends that stand twice: the rule C17.

ghost use Rattle.std.specs.Prelude.{◌≡◌, ◌∷◌, [], ◌++◌, map, IfOk, OnOk};
ghost use Rattle.std.specs.List.{flat_map};
ghost use Rattle.pz_classes.specs.pz_syntax.declared.clusters.Channel.{Channel as Tree};
ghost use Rattle.pz_classes.specs.pz_syntax.ClassView.{decl_view, model_view};
ghost use Rattle.pz_check_violations.specs.Least.{LeastOf, least_from};
ghost use Rattle.pz_classes.specs.pz_classes_rules.ChannelRules.{BreaksC17, end_place, same_end};
ghost use Rattle.pz_check_duplicates.specs.devices.Again.{thing_place, repeats};
ghost use Rattle.pz_check_duplicates.specs.devices.Tips.{tip, tip_of};
ghost use Rattle.pz_check_duplicates.specs.devices.Outers.{outer_places};
ghost use Rattle.pz_check_duplicates.specs.devices.EndList.{outers, of_decl};

use crate::again::least_again;
use crate::places::{Alike, Thing};
use pz_check_violations::Violation;
use pz_classes::pz_items::Items;
use pz_classes::pz_syntax::{Channel, ChannelEnd, Decl, Model};
use pz_classes::{channels_of, is_cluster};
use std::alloc::{AllocError, Global};

/// An end of a channel, by the names that it is written with.
#[derive(Clone, Copy, Debug, PartialEq, Eq, Hash)]
pub(crate) enum EndKey<'a> {
    /// An instance and its port.
    Inner(&'a [u8], &'a [u8]),
    /// A port of the cluster class itself.
    Outer(&'a [u8]),
}

fn end_thing(end: &ChannelEnd) -> Thing<EndKey>
    ensures { tip_of result ≡ tip end.now }
{
    match end {
        ChannelEnd::Inner(instance, port) => Thing {
            key: EndKey::Inner(
                instance.name.as_str().as_bytes(),
                port.name.as_str().as_bytes(),
            ),
            place: instance.pos,
        },
        ChannelEnd::Outer(port) => Thing {
            key: EndKey::Outer(port.name.as_str().as_bytes()),
            place: port.pos,
        },
    }
}

fn push_ends<'a>(
    things: &mut Items<Thing<EndKey<'a>>>,
    ends: &'a [ChannelEnd],
) -> Result<(), AllocError>
    ensures { OnOk result (map tip_of things.new ≡ map tip_of things.old ++ map tip ends.now) }
{
    for end in ends {
        things.push(end_thing(end))?;
    }
    Ok(())
}

/// The least of what was found before and the ends that repeat one of these channels.
fn least_end(
    alloc: Global,
    channels: &[Channel],
    before: Option<Violation>,
) -> Result<Option<Violation>, AllocError>
    ensures { IfOk result (λ least. least ≡ least_from before
        (repeats same_end end_place 17 (flat_map (λ (h : Tree). h.ends) channels.now))) }
{
    let mut things = Items::new(alloc);
    for channel in channels {
        push_ends(&mut things, channel.ends.as_slice())?;
    }
    least_again(alloc, 17, things.as_slice(), before)
}

/// The ports of the cluster class itself among these ends.
fn outer_things(alloc: Global, ends: &[ChannelEnd]) -> Result<Items<Thing<Alike>>, AllocError>
    ensures { IfOk result (λ things. map thing_place things ≡ outer_places ends.now) }
{
    let mut things = Items::new(alloc);
    for end in ends {
        if let ChannelEnd::Outer(port) = end {
            things.push(Thing {
                key: Alike,
                place: port.pos,
            })?;
        }
    }
    Ok(things)
}

/// The least of what was found before and the second ports of the cluster class in a channel.
fn least_outer(
    alloc: Global,
    channel: &Channel,
    before: Option<Violation>,
) -> Result<Option<Violation>, AllocError>
    ensures { IfOk result (λ least. least ≡ least_from before (outers channel.now)) }
{
    let things = outer_things(alloc, channel.ends.as_slice())?;
    least_again(alloc, 17, things.as_slice(), before)
}

/// The same for each of these channels.
#[tactic(auto, using(pz_check_violations::proofs::Leasts::least_from_append))]
fn least_outers(
    alloc: Global,
    channels: &[Channel],
    before: Option<Violation>,
) -> Result<Option<Violation>, AllocError>
    ensures { IfOk result (λ least. least ≡ least_from before (flat_map outers channels.now)) }
{
    let mut least = before;
    for channel in channels {
        least = least_outer(alloc, channel, least)?;
    }
    Ok(least)
}

/// The least of what was found before and the violations of this declaration.
#[tactic(auto, using(pz_check_violations::proofs::Leasts::least_from_append))]
fn least_of_decl(
    alloc: Global,
    decl: &Decl,
    before: Option<Violation>,
) -> Result<Option<Violation>, AllocError>
    ensures { IfOk result (λ least. least ≡ least_from before (of_decl (decl_view decl.now))) }
{
    let channels = channels_of(decl);
    let least = least_end(alloc, channels, before)?;
    if is_cluster(decl) {
        least_outers(alloc, channels, least)
    } else {
        Ok(least)
    }
}

/// The least end of a channel that stands twice, or that is the second port of its own cluster class
/// in one channel, if there is one. The only error is want of memory.
#[tactic(auto, using(pz_check_violations::proofs::Leasts::least_from_append))]
pub fn least_double_end(alloc: Global, model: &Model) -> Result<Option<Violation>, AllocError>
    ensures { IfOk result (LeastOf (BreaksC17 (model_view model.now))) }
{
    let mut least = None;
    for decl in model.decls.as_slice() {
        least = least_of_decl(alloc, decl, least)?;
    }
    Ok(least)
}
