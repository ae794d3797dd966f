// The order in which each class comes after its parent.

ghost use Rattle.std.specs.Prelude.{◌≡◌, ◌<◌, ◌+◌, ◌==◌, ◌^◌, if◌then◌else◌, ◌++◌, [], ◌∷◌, ℕ, length, map, IfSome, is_none, IfOk, OnOk};
ghost use Rattle.pz_classes_lineage.specs.Parents.{parent_in, AreWithin};
ghost use Rattle.pz_classes_lineage.specs.Reached.{GoesRound};
ghost use Rattle.pz_classes_lineage.specs.Preorder.{IsPreorder, visited};
ghost use Rattle.pz_classes_lineage.specs.devices.Rows.{times, row, one_if, is_child_of, as_root, as_child, at_depth};

use crate::Visit;
use std::alloc::{AllocError, Global};

/// So many empty rows. The only error is want of memory.
fn empty_rows(alloc: Global, count: usize) -> Result<Vec<Vec<u32>>, AllocError>
    ensures counted { IfOk result (λ rows. length rows.items ≡ count) }
    ensures empty { IfOk result (λ rows. (p : ℕ) → row rows.items p ≡ []) }
{
    let mut rows = Vec::new(alloc);
    for _row in 0..count {
        rows.push(Vec::new(alloc))?;
    }
    Ok(rows)
}

/// Puts the class at the end of its parent's row, if it has one. The only error is want of memory.
fn add_child(rows: &mut Vec<Vec<u32>>, parent: Option<u32>, class: u32) -> Result<(), AllocError>
    requires { IfSome parent (λ p. p < length rows.old.items) }
    ensures counted { OnOk result (length rows.new.items ≡ length rows.old.items) }
    ensures added { OnOk result ((p c : ℕ) → times c (row rows.new.items p) ≡ times c
        (row rows.old.items p) + (if is_child_of p parent then one_if c class else 0)) }
{
    let Some(parent) = parent else {
        return Ok(());
    };
    rows[parent as usize].push(class)?;
    Ok(())
}

/// Of each class those that extend it, the last first. The only error is want of memory.
fn children_of(alloc: Global, parents: &[Option<u32>]) -> Result<Vec<Vec<u32>>, AllocError>
    requires within { AreWithin parents.now }
    requires room { length parents.now < 2 ^ 32 }
    ensures counted { IfOk result (λ rows. length rows.items ≡ length parents.now) }
    ensures exact { IfOk result (λ rows. (p c : ℕ) →
        times c (row rows.items p) ≡ as_child parents.now p c) }
{
    let mut rows = empty_rows(alloc, parents.len())?;
    for class in (0..parents.len()).rev() {
        add_child(&mut rows, parents[class], class as u32)?;
    }
    Ok(rows)
}

/// Puts the class among the roots, if it has no parent. The only error is want of memory.
fn add_root(roots: &mut Vec<Visit>, parent: Option<u32>, class: u32) -> Result<(), AllocError>
    ensures { OnOk result (roots.new.items ≡ roots.old.items ++
        (if is_none parent then at_depth 0 class ∷ [] else [])) }
{
    if parent.is_some() {
        return Ok(());
    }
    roots.push(Visit { class, depth: 0 })?;
    Ok(())
}

/// The classes with no parent, the last first. The only error is want of memory.
fn roots_of(alloc: Global, parents: &[Option<u32>]) -> Result<Vec<Visit>, AllocError>
    requires { length parents.now < 2 ^ 32 }
    ensures exact { IfOk result (λ roots. (c : ℕ) →
        times c (visited roots.items) ≡ as_root parents.now c) }
    ensures outermost { IfOk result (λ roots. roots.items ≡ map (at_depth 0)
        (visited roots.items)) }
{
    let mut roots = Vec::new(alloc);
    for class in (0..parents.len()).rev() {
        add_root(&mut roots, parents[class], class as u32)?;
    }
    Ok(roots)
}

/// Puts visits of these classes on the stack. The only error is want of memory.
fn push_visits(stack: &mut Vec<Visit>, classes: &[u32], depth: usize) -> Result<(), AllocError>
    ensures { OnOk result (stack.new.items ≡ stack.old.items ++ map (at_depth depth) classes.now) }
{
    for class in classes {
        stack.push(Visit {
            class: *class,
            depth,
        })?;
    }
    Ok(())
}

/// A walk that comes to each class once, after its ancestors: from each class it goes to those that
/// extend it, before it goes anywhere else. The only error is want of memory.
pub fn preorder(alloc: Global, parents: &[Option<u32>]) -> Result<Vec<Visit>, AllocError>
    requires within { AreWithin parents.now }
    requires acyclic { (c : ℕ) → GoesRound (parent_in parents.now) c → ⊥ }
    requires room { length parents.now < 2 ^ 32 }
    ensures { IfOk result (λ visits. IsPreorder (parent_in parents.now)
        (length parents.now) visits.items) }
{
    let rows = children_of(alloc, parents)?;
    let mut stack = roots_of(alloc, parents)?;
    let mut visits = Vec::new(alloc);
    // Children are put on top, so they come before whatever else is left.
    while let Some(visit) = stack.pop() {
        visits.push(visit)?;
        push_visits(&mut stack, &rows[visit.class as usize], visit.depth + 1)?;
    }
    Ok(visits)
}
