// What a receive says to a parcel, and what a variable holds.

ghost use Rattle.std.specs.Prelude.{◌≡◌, ◌<◌, [], ◌∷◌, IfOk};
ghost use Rattle.pz_bind.specs.pz_classes.CheckedView.{checked_model};
ghost use Rattle.pz_rules.specs.pz_copy.Packing.{IsParcelOf};
ghost use Rattle.pz_nodes.specs.Arena.{find};
ghost use Rattle.pz_rules.specs.pz_state.States as states;
ghost use Rattle.pz_tree.specs.Asking.{HasReceive, JudgesAt, said_by};
ghost use Rattle.pz_tree.specs.Trees.{at_in, term_in, process_in, IsFresh};
ghost use Rattle.pz_tree.specs.devices.Receiving.{ReceiveRule};
ghost use Rattle.pz_tree_acting.specs.pz_tree_standing.Heads as heads;
ghost use Rattle.pz_tree_acting.specs.pz_tree_nodes.View.{head_view};
ghost use Rattle.pz_rules.specs.Terms as terms;
ghost use Rattle.pz_rules.specs.View.{term_view};

use crate::tree::Tree;
use pz_bind::pz_classes::Checked;
use pz_nodes::{Nodes, Steps};
use pz_rules::Term;
use pz_rules::pz_copy::{Parcel, pack};
use pz_rules::pz_offer::{Place, Trouble, Verdict};
use pz_rules::pz_state::FrameId;
use pz_rules::pz_value::Value;
use pz_term_processes::pz_part_actions::pz_part_queries::judge;
use pz_tree_acting::pz_tree_regrowing::pz_tree_nodes;
use pz_tree_acting::pz_tree_regrowing::pz_tree_nodes::{Head, Node, Spot, part_at};
use std::alloc::AllocError;
use std::marker::Brand;
use std::sync::ledger::{Blank, Ledger};

// A statement that has not begun.
fn statement_of(head: &Head) -> Result<Term, AllocError>
    ensures { (s : terms.Step) → head_view head.now ≡ heads.leaf s →
        IfOk result (λ part. term_view part ≡ terms.leaf s) }
{
    match head {
        Head::Leaf(step) => Ok(Term::Leaf(step.copy()?)),
        _ => Ok(Term::Done),
    }
}

// The part at a place, if it is a statement that has not begun, and the frame in which it stands.
pub(crate) fn statement_at<L: Ledger>(
    nodes: &Nodes<Node>,
    root: Spot,
    place: &[usize],
    steps: &mut Steps<L>,
) -> Result<(FrameId, Term), AllocError>
    ensures { IfOk result (λ found. ReceiveRule (find nodes.now) root.key root.frame.0 root.clock
        place.now found.0 found.1) }
{
    let spot = part_at(nodes, root, place, steps);
    let Some(key) = spot.key else {
        return Ok((spot.frame, Term::Done));
    };
    let Some(node) = nodes.get(key, steps) else {
        return Ok((spot.frame, Term::Done));
    };
    let part = statement_of(&node.what.head)?;
    Ok((spot.frame, part))
}

fn statement_in<L: Ledger>(
    nodes: &Nodes<Node>,
    root: Spot,
    place: &[usize],
    ledger: Blank,
) -> Result<(FrameId, Term), AllocError>
    requires name { ledger.name ≡ L.name }
    requires parts { ledger.parts ≡ L.parts }
    requires some { 0 < L.parts }
    ensures { IfOk result (λ found. ReceiveRule (find nodes.now) root.key root.frame.0 root.clock
        place.now found.0 found.1) }
{
    let mut steps = Steps::<L>::new(ledger);
    statement_at(nodes, root, place, &mut steps)
}

fn verdict_of(said: Result<bool, Trouble>) -> Verdict
    ensures { said_by result ≡ said }
{
    match said {
        Ok(true) => Verdict::Yes,
        Ok(false) => Verdict::No,
        Err(trouble) => Verdict::Trouble(trouble),
    }
}

impl Tree {
    /// Whether the active receive at a place takes a parcel: Yes where it has no condition, else what its
    /// condition says once the parcel is unpacked and bound. The tree is as before, always. The only error
    /// is want of memory.
    ///
    /// The clock is that of the tree.
    pub fn verdict(
        &mut self,
        checked: &Checked,
        clock: u128,
        place: &Place,
        parcel: &Parcel,
    ) -> Result<Verdict, AllocError>
        requires fresh { ∥ IsFresh (checked_model checked.now) self.old ∥₁ }
        requires clock { clock ≡ self.old.clock }
        requires receives { ∥ HasReceive (at_in (checked_model checked.now) self.old)
            (term_in self.old) place.now ∥₁ }
        ensures judges { IsFresh (checked_model checked.now) self.old →
            IfOk result (JudgesAt (at_in (checked_model checked.now) self.old) (term_in self.old)
            place.now parcel.now) }
        ensures unchanged { self.new ≡ self.old }
    {
        pz_tree_nodes::laws::active_parts_are_at_their_places();
        pz_tree_nodes::laws::tended_nodes_stand();
        let here = self.standpoint(checked);
        let root = self.spot();
        let found = statement_in::<Brand>(&self.nodes, root, place.as_slice(), Blank::new(1))?;
        let (frame, part) = found;
        let said = judge(self.alloc, &here, &mut self.state, frame, &part, parcel)?;
        Ok(verdict_of(said))
    }

    /// What a variable of the process holds, with all objects to which it leads; nil where it has no such
    /// variable. The only error is want of memory.
    pub fn shown(&self, variable: u32) -> Result<Parcel, AllocError>
        ensures parcel { IfOk result (λ parcel. IsParcelOf (process_in self.now).state
            (states.variable (process_in self.now).state variable ∷ []) parcel) }
    {
        if variable as usize >= self.state.variables() {
            return pack(self.alloc, &self.state, &[Value::Nil]);
        }
        let value = self.state.var(variable).copy()?;
        pack(self.alloc, &self.state, &[value])
    }
}
