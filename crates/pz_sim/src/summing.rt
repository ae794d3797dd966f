// What each process can do in short, from its tree.

ghost use Rattle.std.specs.Prelude.{◌≡◌, length, map, All, IfOk};
ghost use Rattle.pz_rules.specs.pz_syntax.Classes.{ModelTree};
ghost use Rattle.pz_sim_laws.specs.Deciding.{total_of};
ghost use Rattle.pz_tree.specs.Trees.{IsFresh};
ghost use Rattle.pz_sim.specs.Members.{member_of};

use pz_sim_totals::{Total, Totals};
use pz_tree::Tree;
use std::alloc::{AllocError, Global};

/// What the process of a tree can do in short. Takes no memory.
pub(crate) fn total_in(tree: &Tree) -> Total
    requires fresh { ∥ ((m : ModelTree) × IsFresh m tree.now) ∥₁ }
    ensures total { (m : ModelTree) → IsFresh m tree.now →
        result ≡ total_of tree.now.clock (member_of m tree.now) }
{
    let summary = tree.summary();
    if tree.is_done() {
        Total {
            summary,
            unfinished: 0,
        }
    } else {
        Total {
            summary,
            unfinished: 1,
        }
    }
}

/// What each of so many processes can do in short. The only errors are want of memory, and that there is more to
/// do than can be counted.
pub(crate) fn totals_in(alloc: Global, count: u32, trees: &[Tree]) -> Result<Totals, AllocError>
    requires count { count ≡ length trees.now }
    requires fresh { All (λ tree. ∥ ((m : ModelTree) × IsFresh m tree) ∥₁) trees.now }
    ensures totals { (m : ModelTree) → All (IsFresh m) trees.now → IfOk result (λ totals.
        totals ≡ map (λ tree. total_of tree.clock (member_of m tree)) trees.now) }
{
    let mut totals = Totals::new(alloc, count)?;
    for (number, tree) in trees.iter().enumerate() {
        totals.set(number, total_in(tree))?;
    }
    Ok(totals)
}
