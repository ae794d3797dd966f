// The receives, linked so that a send comes to those that fit it without a look at others.

ghost use Rattle.std.specs.Prelude.{◌≡◌, ◌<◌, ◌+◌, length, unwrap_or, IfOk, OnOk};
ghost use Rattle.pz_term_matching.specs.devices.Chains.{AreChains, AreChainsFrom, found_in, past_process};

use crate::Receiver;
use crate::key::{Key, key_of_receiver};
use indexmap::IndexMap;
use std::alloc::{AllocError, Global};

/// Where it goes on from a receive, among those behind it with its key. They are told by their places
/// in the list; where there is none, the place is that behind the list.
#[derive(Clone, Copy)]
pub(crate) struct Link {
    /// To the next.
    pub(crate) next: usize,
    /// To the next in another process.
    pub(crate) elsewhere: usize,
}

/// All receives, by their places.
#[derive(Drop)]
pub(crate) struct Chains<'a> {
    /// The first of each key.
    firsts: IndexMap<Key<'a>, usize>,
    /// From each to others.
    pub(crate) links: Vec<Link>,
}

impl<'a> Chains<'a> {
    /// The first receive with this key.
    pub(crate) fn first(&self, key: Key<'_>) -> usize
        ensures { result ≡ unwrap_or (found_in self.now key.entry) (length self.now.links.items) }
    {
        self.firsts.get(&key).copied().unwrap_or(self.links.len())
    }

    /// From the receive at this place on, the first of its chain that stands in another process.
    fn past(&self, receivers: &[Receiver], process: u32, place: usize) -> usize
        requires { length self.now.links.items ≡ length receivers.now }
        ensures { result ≡ past_process receivers.now self.now.links.items process place }
    {
        let Some(receiver) = receivers.get(place) else {
            return place;
        };
        if receiver.end.process == process {
            self.links[place].elsewhere
        } else {
            place
        }
    }

    /// Links the receive that stands before all that are linked. The only error is want of memory.
    fn add(&mut self, receivers: &'a [Receiver], place: usize) -> Result<(), AllocError>
        requires within { place < length receivers.now }
        requires behind { AreChainsFrom (place + 1) receivers.now self.old }
        ensures { OnOk result (AreChainsFrom place receivers.now self.new) }
    {
        let receiver = &receivers[place];
        let found = self.firsts.insert(key_of_receiver(receiver), place)?;
        let next = found.unwrap_or(receivers.len());
        let elsewhere = self.past(receivers, receiver.end.process, next);
        self.links[place] = Link { next, elsewhere };
        Ok(())
    }
}

/// The chains of these receives. Time: a step for each. The only error is want of memory.
pub(crate) fn chains_of(alloc: Global, receivers: &[Receiver]) -> Result<Chains<'_>, AllocError>
    ensures { IfOk result (AreChains receivers.now) }
{
    let end = receivers.len();
    let none = Link {
        next: end,
        elsewhere: end,
    };
    let mut chains = Chains {
        firsts: IndexMap::new(alloc),
        links: vec![in alloc; none; end]?,
    };
    for place in (0..end).rev() {
        chains.add(receivers, place)?;
    }
    Ok(chains)
}
