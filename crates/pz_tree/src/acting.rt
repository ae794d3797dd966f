// A part of a process acts, or tries to.

ghost use Rattle.std.specs.Prelude.{◌≡◌, ◌≤◌, ◌+◌, ◌*◌, IfOk, OnErr, OnOk};
ghost use Rattle.pz_bind.specs.pz_classes.CheckedView.{checked_model};
ghost use Rattle.pz_rules.specs.pz_copy.Parcels.{ParcelView};
ghost use Rattle.pz_term_processes.specs.pz_part_opening.Homes.{home_in, home_view};
ghost use Rattle.pz_rules.specs.declared.limits.Edition.TheVariants.{Two};
ghost use Rattle.pz_rules.specs.CallLaws.{NoRounds};
ghost use Rattle.pz_rules.specs.Fitting.{TermFits};
ghost use Rattle.pz_rules.specs.Openable.{IsProcessClass};
ghost use Rattle.pz_rules.specs.Settings.{in_state};
ghost use Rattle.pz_tree_acting.specs.Acting.{Answers};
ghost use Rattle.pz_tree_acting.specs.Deeds.{able, deed, CanDo, Leaves};
ghost use Rattle.pz_tree_acting.specs.pz_tree_standing.Frames.{FramesStand};
ghost use Rattle.pz_tree_acting.specs.pz_tree_regrowing.Costs.{on_way};
ghost use Rattle.pz_tree.specs.Acting.{answered, LeavesSoon};
ghost use Rattle.pz_tree.specs.Trees.{at_in, term_in, process_in, IsThere, IsFresh};

use crate::tree::Tree;
use pz_bind::pz_classes::Checked;
use pz_bind::pz_classes_rules;
use pz_nodes::Steps;
use pz_rules::pz_offer::{Place, Trouble};
use pz_term_processes::pz_part_actions::pz_part_opening::Home;
use pz_tree_acting::{How, act, trial};
use std::alloc::AllocError;
use std::sync::ledger::Ledger;

impl Tree {
    // Where its statements open.
    fn home<'a>(&self, checked: &'a Checked) -> Home<'a>
        requires process { IsProcessClass (checked_model checked.now) self.now.class.0 }
        requires rounds { self.now.limits.edition ≡ Two → NoRounds (checked_model checked.now) }
        ensures home { home_view result ≡ home_in (checked_model checked.now) self.now.class
            self.now.limits }
        ensures class { result.class ≡ self.now.class }
    {
        Home::new(checked, self.class, self.limits)
    }

    /// The active part at a place acts, which can do so. What is kept may be another until the tree is
    /// refreshed, unless it ends in a trouble: then nothing has changed.
    ///
    /// The clock is that of the tree, just the open frames of the state stand in the term, and in edition Two
    /// no method of the model begins with itself. Takes at most sixteen steps for each part on the way to the
    /// place, with those beside it in a `par`, each that is made and each that is dropped, where it does not
    /// end in a trouble. The only error is want of memory, or that there is more to do than can be counted;
    /// then the tree may only be dropped.
    pub fn act<L: Ledger>(
        &mut self,
        checked: &Checked,
        clock: u128,
        place: &Place,
        how: How<'_>,
        steps: &mut Steps<L>,
    ) -> Result<Result<(), Trouble>, AllocError>
        requires fresh { ∥ IsFresh (checked_model checked.now) self.old ∥₁ }
        requires clock { clock ≡ self.old.clock }
        requires fits { ∥ TermFits (checked_model checked.now) self.old.class.0 0
            (term_in self.old) ∥₁ }
        requires rounds { self.old.limits.edition ≡ Two → NoRounds (checked_model checked.now) }
        requires frames { FramesStand (term_in self.old) (process_in self.old).state }
        requires can { ∥ ((parcel : ParcelView)
            × CanDo (able how parcel) (at_in (checked_model checked.now) self.old)
            (term_in self.old) place.now) ∥₁ }
        ensures acts { (parcel : ParcelView) → IsFresh (checked_model checked.now) self.old →
            CanDo (able how.entry parcel) (at_in (checked_model checked.now) self.old)
            (term_in self.old) place.now → IfOk result
            (λ left. Leaves (at_in (checked_model checked.now) self.old)
            (deed how.entry parcel) (term_in self.old) place.now
            (answered left (process_in self.new))) }
        ensures seen { IfOk result (λ left. at_in (checked_model checked.now) self.new ≡
            in_state (at_in (checked_model checked.now) self.old) (process_in self.new).state) }
        ensures there { IfOk result (λ left. ∥ IsThere (checked_model checked.now) self.new ∥₁) }
        ensures frames { IfOk result
            (λ left. FramesStand (term_in self.new) (process_in self.new).state) }
        ensures unchanged { IfOk result (λ left. OnErr left (self.new ≡ self.old)) }
        ensures ticks { (parcel : ParcelView) → IsFresh (checked_model checked.now) self.old →
            CanDo (able how.entry parcel) (at_in (checked_model checked.now) self.old)
            (term_in self.old) place.now → IfOk result (λ left. OnOk left
            (LeavesSoon (at_in (checked_model checked.now) self.old) (deed how.entry parcel)
            (term_in self.old) place.now (process_in self.new) steps.old steps.new)) }
    {
        pz_rules::laws::processes_have_classes();
        pz_classes_rules::laws::sound_bodies_fit();
        let _model = checked.model();
        let here = self.standpoint(checked);
        let home = self.home(checked);
        let left = act(
            self.alloc,
            &here,
            &home,
            &mut self.nodes,
            self.root,
            place.as_slice(),
            how,
            &mut self.state,
            steps,
        )?;
        match left {
            Ok(root) => {
                self.root = root;
                Ok(Ok(()))
            }
            Err(trouble) => Ok(Err(trouble)),
        }
    }

    /// The answer that `act` has for the same arguments, and the tree stays as it is. Takes at most five steps
    /// for each part on the way to the place, with those beside it in a `par`. The only error is want of
    /// memory, or that there is more to do than can be counted; then the tree may only be dropped.
    pub fn trial<L: Ledger>(
        &mut self,
        checked: &Checked,
        clock: u128,
        place: &Place,
        how: How<'_>,
        steps: &mut Steps<L>,
    ) -> Result<Result<(), Trouble>, AllocError>
        requires fresh { ∥ IsFresh (checked_model checked.now) self.old ∥₁ }
        requires clock { clock ≡ self.old.clock }
        requires fits { ∥ TermFits (checked_model checked.now) self.old.class.0 0
            (term_in self.old) ∥₁ }
        requires rounds { self.old.limits.edition ≡ Two → NoRounds (checked_model checked.now) }
        requires can { ∥ ((parcel : ParcelView)
            × CanDo (able how parcel) (at_in (checked_model checked.now) self.old)
            (term_in self.old) place.now) ∥₁ }
        ensures answers { (parcel : ParcelView) → IsFresh (checked_model checked.now) self.old →
            CanDo (able how.entry parcel) (at_in (checked_model checked.now) self.old)
            (term_in self.old) place.now → IfOk result
            (Answers (at_in (checked_model checked.now) self.old) (deed how.entry parcel)
            (term_in self.old) place.now) }
        ensures unchanged { OnOk result (self.new ≡ self.old) }
        ensures ticks { (parcel : ParcelView) → IsFresh (checked_model checked.now) self.old →
            CanDo (able how.entry parcel) (at_in (checked_model checked.now) self.old)
            (term_in self.old) place.now →
            OnOk result (steps.new ≤ steps.old + 5 * on_way (term_in self.old) place.now) }
    {
        pz_rules::laws::processes_have_classes();
        pz_classes_rules::laws::sound_bodies_fit();
        let _model = checked.model();
        let here = self.standpoint(checked);
        let home = self.home(checked);
        trial(
            self.alloc,
            &here,
            &home,
            &self.nodes,
            self.root,
            place.as_slice(),
            how,
            &mut self.state,
            steps,
        )
    }
}
