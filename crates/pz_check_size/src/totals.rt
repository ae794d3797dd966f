// What stands in a system once every cluster is replaced by what it holds, counted as far as just
// above the limits.

ghost use Rattle.std.specs.Prelude.{◌≡◌, length};
ghost use Rattle.pz_check_size.specs.devices.Levels as spec;

use crate::nodes::Node;
use pz_classes::pz_syntax::Channel;

/// One more than the most processes, or the most clusters, that a system may have.
const MANY: u32 = 10_001;
/// One more than the most channels that a system may have.
const MANY_CHANNELS: u32 = 1_000_001;

/// How many processes, clusters and channels there are. A count that reaches the first number that
/// is too many stands still there.
#[derive(Clone, Copy)]
pub(crate) struct Totals {
    pub(crate) processes: u32,
    pub(crate) clusters: u32,
    pub(crate) channels: u32,
}

impl Totals {
    pub(crate) fn nothing() -> Totals
        ensures { result ≡ spec.none_yet }
    {
        Totals {
            processes: 0,
            clusters: 0,
            channels: 0,
        }
    }

    /// How many channels these are.
    pub(crate) fn count_channels(channels: &[Channel]) -> u32
        ensures { result ≡ spec.capped_channels (length channels.now) }
    {
        channels.len().min(MANY_CHANNELS as usize) as u32
    }

    /// Both together.
    pub(crate) fn plus(self, more: Totals) -> Totals
        ensures { result ≡ spec.capped_plus self more }
    {
        Totals {
            processes: self.processes.saturating_add(more.processes).min(MANY),
            clusters: self.clusters.saturating_add(more.clusters).min(MANY),
            channels: self
                .channels
                .saturating_add(more.channels)
                .min(MANY_CHANNELS),
        }
    }

    /// Whether one of the counts is above its limit.
    pub(crate) fn is_too_large(self) -> bool
        ensures { result ≡ spec.is_above self }
    {
        self.processes >= MANY || self.clusters >= MANY || self.channels >= MANY_CHANNELS
    }
}

/// The totals of the class of this number; nothing where there is no such class.
pub(crate) fn total_in(totals: &[Totals], class: usize) -> Totals
    ensures { result ≡ spec.total_in totals.now class }
{
    match totals.get(class) {
        Some(total) => *total,
        None => Totals::nothing(),
    }
}

/// One of a class with its instances, each of them counted by these totals.
fn total_with(node: &Node, totals: &[Totals]) -> Totals
    ensures { result ≡ spec.total_with totals.now node.now }
{
    let mut total = node.own;
    for held in node.held.as_slice() {
        total = total.plus(total_in(totals, held.class as usize));
    }
    total
}

/// One of the class of this number with its instances, each of them counted by these totals;
/// nothing where there is no such class.
pub(crate) fn total_of(nodes: &[Node], class: usize, totals: &[Totals]) -> Totals
    ensures { result ≡ spec.total_in (spec.next_level nodes.now totals.now) class }
{
    match nodes.get(class) {
        Some(node) => total_with(node, totals),
        None => Totals::nothing(),
    }
}
