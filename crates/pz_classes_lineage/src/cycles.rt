// Classes that are among their own ancestors.
//
// From each class in turn a walk goes from class to parent, as far as the classes are new. Where it
// comes back to a class of its own, it has found a cycle.

ghost use Rattle.std.specs.Prelude.{◌≡◌, ◌↔◌, ◌⊎◌, ◌<◌, ◌+◌, ℕ, Some, true, length, slice_get, IfOk};
ghost use Rattle.pz_classes_lineage.specs.Parents.{parent_in, AreWithin};
ghost use Rattle.pz_classes_lineage.specs.Reached.{Reaches, GoesRound};
ghost use Rattle.pz_classes_lineage.specs.devices.Walks.{AreWalked, AreFound, AreMarkedUp, IsMarked, Finds};

use std::alloc::{AllocError, Global};

fn parent_at(parents: &[Option<u32>], class: usize) -> Option<usize>
    ensures { result ≡ parent_in parents.now class }
{
    let parent = parents.get(class).copied().flatten()?;
    Some(parent as usize)
}

/// Walks up from a class as far as the classes are new, and writes the number of the walk at each of
/// them. The result is the class that the walk came back to, if it did.
fn walk_up(parents: &[Option<u32>], walks: &mut [usize], start: usize) -> Option<usize>
    requires within { AreWithin parents.now }
    requires sized { length walks.old ≡ length parents.now }
    requires inside { start < length parents.now }
    requires walked { AreWalked (parent_in parents.now) walks.old start }
    ensures walked { AreWalked (parent_in parents.now) walks.new (start + 1) }
    ensures found { Finds (parent_in parents.now) walks.old walks.new result }
{
    let walk = start + 1;
    let mut at = start;
    while walks[at] == 0 {
        walks[at] = walk;
        at = parent_at(parents, at)?;
    }
    if walks[at] == walk { Some(at) } else { None }
}

/// Marks a class and its ancestors, from the class up to the first that is marked already.
fn mark_up(parents: &[Option<u32>], marks: &mut [bool], start: usize)
    requires within { AreWithin parents.now }
    requires sized { length marks.old ≡ length parents.now }
    requires inside { start < length parents.now }
    requires closed { AreMarkedUp (parent_in parents.now) marks.old }
    ensures { (c : ℕ) → IsMarked marks.new c ↔ (IsMarked marks.old c
        ⊎ Reaches (parent_in parents.now) start c) }
{
    let mut at = start;
    while !marks[at] {
        marks[at] = true;
        let Some(parent) = parent_at(parents, at) else {
            return;
        };
        at = parent;
    }
}

/// Walks up from a class, and marks the cycle that the walk comes to, if it is new.
fn search_from(parents: &[Option<u32>], walks: &mut [usize], marks: &mut [bool], start: usize)
    requires within { AreWithin parents.now }
    requires walks_sized { length walks.old ≡ length parents.now }
    requires marks_sized { length marks.old ≡ length parents.now }
    requires inside { start < length parents.now }
    requires walked { AreWalked (parent_in parents.now) walks.old start }
    requires found { AreFound (parent_in parents.now) walks.old marks.old }
    ensures walked { AreWalked (parent_in parents.now) walks.new (start + 1) }
    ensures found { AreFound (parent_in parents.now) walks.new marks.new }
{
    if let Some(class) = walk_up(parents, walks, start) {
        mark_up(parents, marks, class);
    }
}

/// Of each class, by its number, whether it is among the ancestors of its own parent. The only
/// error is want of memory.
pub fn go_round(alloc: Global, parents: &[Option<u32>]) -> Result<Vec<bool>, AllocError>
    requires { AreWithin parents.now }
    ensures counted { IfOk result (λ round. length round.items ≡ length parents.now) }
    ensures exact { IfOk result (λ round. (c : ℕ) →
        (slice_get round.items c ≡ Some true) ↔ GoesRound (parent_in parents.now) c) }
{
    let mut walks = vec![in alloc; 0usize; parents.len()]?;
    let mut round = vec![in alloc; false; parents.len()]?;
    for class in 0..parents.len() {
        search_from(parents, &mut walks, &mut round, class);
    }
    Ok(round)
}
