// The offers of a simulator by their numbers.

ghost use Rattle.std.specs.Prelude.{◌≡◌, ◌<◌, ◌^◌, ℕ, false, length, IfOk};
ghost use Rattle.pz_rules.specs.pz_syntax.Classes.{ModelTree};
ghost use Rattle.pz_match.specs.Pairs.{taken};
ghost use Rattle.pz_rules.specs.declared.moment.Moment.TheVariants as now;
ghost use Rattle.pz_term_simulator.specs.Simulations.{IsMomentOf, IsOffer};
ghost use Rattle.pz_tree.specs.Trees.{IsFresh};
ghost use Rattle.pz_sim.specs.Sims.{simulation_of};
ghost use Rattle.pz_sim.specs.devices.Numbered.{HasAction, IsActionOf, IsCommunication};

use crate::sim::Sim;
use crate::standing::Standing;
use pz_match::{Pairs, Sender};
use pz_rules::Action;
use pz_rules::pz_offer::End;
use pz_sim_totals::Found;
use pz_tree::{InternalAction, Tree};
use std::alloc::AllocError;

/// The internal action of this number in the process of a tree, which has one. The only error is want of memory.
fn internal_action(tree: &Tree, found: Found) -> Result<Action, AllocError>
    requires number { found.process < 2 ^ 32 }
    requires there { ∥ ((m : ModelTree) × IsFresh m tree.now × HasAction m tree.now
        found.number) ∥₁ }
    ensures is { (m : ModelTree) → IsFresh m tree.now →
        IfOk result (IsActionOf m tree.now found.process found.number) }
{
    let Some(action) = tree.kth_internal(found.number)? else {
        unreachable!()
    };
    let InternalAction { place, kind, pos } = action;
    let process = found.process as u32;
    Ok(Action::Internal {
        at: End { process, place },
        kind,
        pos,
    })
}

/// The communication of this number, of which there are more. The only error is want of memory.
fn communication(pairs: &Pairs, number: u64) -> Result<Action, AllocError>
    requires there { pairs.now.lost ≡ false }
    requires within { number < length (taken pairs.now.pairs) }
    ensures { IfOk result (IsCommunication pairs.now.pairs number) }
{
    let Some((sender, receiver)) = pairs.kth(number)? else {
        unreachable!()
    };
    let Sender {
        end,
        wire,
        message,
        parcel,
    } = sender;
    Ok(Action::Comm {
        wire,
        sender: end,
        receiver,
        message,
        parcel,
    })
}

impl Sim {
    /// The offer of this number, from 0, which is one of those that the moment counts. The only error is
    /// want of memory, and it breaks nothing.
    pub fn offer(&self, k: u64) -> Result<Action, AllocError>
        requires { (n : ℕ) × IsMomentOf (simulation_of self.now) (now.Actions n) × (k < n) }
        ensures { IfOk result (IsOffer (simulation_of self.now) k) }
    {
        pz_sim_laws::laws::moments_are_decided();
        pz_sim_laws::laws::pairs_are_those_of_the_rules();
        pz_sim_laws::laws::offers_are_numbered();
        pz_sim_laws::laws::what_is_merely_so_is_so();
        pz_rules::laws::wires_are_known();
        pz_rules::laws::one_moment();
        let _model = self.checked.model();
        let _processes = self.net.processes();
        let Standing::Whole(_) = &self.standing else {
            unreachable!()
        };
        match self.totals.find(k) {
            Some(found) => internal_action(&self.trees[found.process], found),
            None => communication(&self.pairs, k - self.totals.all().summary.internal),
        }
    }
}
