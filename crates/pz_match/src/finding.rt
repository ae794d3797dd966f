// The group with given marks.

ghost use Rattle.std.specs.Prelude.{◌≡◌, ◌↔◌, ℕ, IsTrue, Contains, MatchOption};
ghost use Rattle.pz_match.specs.devices.Tallies.{HasKey};

use crate::groups::Group;
use pz_syntax::Name;

/// The number of the group with these marks, among those with these numbers.
pub(crate) fn find(
    groups: &[Group],
    numbers: &[usize],
    wire: u32,
    message: &Name,
    count: usize,
) -> Option<usize>
    ensures { MatchOption result ((g : ℕ) → Contains numbers.now g →
        ¬ HasKey groups.now g wire message.now count)
        (λ g. HasKey groups.now g wire message.now count) }
{
    for number in numbers {
        if is_at(groups, *number, wire, message, count) {
            return Some(*number);
        }
    }
    None
}

/// Whether the group with this number has these marks.
fn is_at(groups: &[Group], number: usize, wire: u32, message: &Name, count: usize) -> bool
    ensures { IsTrue result ↔ HasKey groups.now number wire message.now count }
{
    match groups.get(number) {
        Some(group) => has_marks(group, wire, message, count),
        None => false,
    }
}

/// Whether a group has these marks.
fn has_marks(group: &Group, wire: u32, message: &Name, count: usize) -> bool
    ensures { IsTrue result ↔ ((group.now.wire ≡ wire) × (group.now.count ≡ count)
        × (group.now.message ≡ message.now)) }
{
    group.wire == wire && group.count == count && group.message.as_str() == message.as_str()
}
