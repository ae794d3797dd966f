// A process acts, and what is kept of it is told anew.

ghost use Rattle.std.specs.Prelude.{◌≡◌, ◌≤◌, ◌<◌, ◌+◌, ◌*◌, ℕ, ⊤, not, List, Some, Ok, filter, length, slice_get, slice_set, IfOk, OnOk, OnErr};
ghost use Rattle.pz_bind.specs.pz_classes.CheckedView.{checked_model};
ghost use Rattle.pz_rules.specs.pz_syntax.declared.tokens.Pos.{Pos};
ghost use Rattle.pz_rules.specs.pz_copy.Parcels.{ParcelView};
ghost use Rattle.pz_bind.specs.devices.Nets.{IsNet};
ghost use Rattle.pz_rules.specs.declared.action.Kind.{Kind};
ghost use Rattle.pz_rules.specs.declared.action.Action.TheVariants.{Internal};
ghost use Rattle.pz_rules.specs.declared.limits.Edition.TheVariants.{Two};
ghost use Rattle.pz_rules.specs.CallLaws.{NoRounds};
ghost use Rattle.pz_rules.specs.Offers.{IsPair};
ghost use Rattle.pz_rules.specs.Steps.{Next};
ghost use Rattle.pz_sim_laws.specs.Members.{Member};
ghost use Rattle.pz_sim_laws.specs.Deciding.{total_of};
ghost use Rattle.pz_tree.specs.Deeds.{able, deed, CanAct, CanSend, Leaves};
ghost use Rattle.pz_match.specs.Pairs.{questions, touches};
ghost use Rattle.pz_tree.specs.pz_tree_regrowing.Costs.{on_way};
ghost use Rattle.pz_tree.specs.declared.tree.Tree.{Tree};
ghost use Rattle.pz_tree.specs.Acting.{answered};
ghost use Rattle.pz_tree.specs.Trees.{at_in, term_in, process_in, IsFresh};
ghost use Rattle.pz_sim.specs.Costs.{ActsSoon, acts_in, with_end_in};
ghost use Rattle.pz_sim.specs.Members.{member_of};
ghost use Rattle.pz_sim.specs.devices.Acting.{model_at, setting_at, config_at, AreTold, MayAct, MayActAt, CanDoAt, After, HasActed, HasActedSoon, HasTried, communicated, reached};
ghost use Rattle.pz_sim.specs.devices.Holding.{AreTrees};
ghost use Rattle.pz_sim.specs.devices.Tables.{IsTable, AreHeardBut, CanTell};

use crate::scene::Scene;
use crate::summing::total_in;
use crate::telling::{silence, tell};
use pz_bind::pz_classes::Checked;
use pz_match::{Pairs, Sender};
use pz_nodes::Steps;
use pz_rules::pz_offer::{End, Place, Trouble};
use pz_sim_totals::Totals;
use pz_tree::{How, Tree};
use std::alloc::AllocError;
use std::sync::ledger::Ledger;

// The part at a place of a tree acts, which can do so, and what there is to ask is asked again. At a trouble the tree
// is as before. The only error is want of memory.
fn act_afresh<L: Ledger>(
    tree: &mut Tree,
    checked: &Checked,
    clock: u128,
    place: &Place,
    how: How<'_>,
    steps: &mut Steps<L>,
) -> Result<Result<(), Trouble>, AllocError>
    requires may { ∥ ((parcel : ParcelView) × MayAct (checked_model checked.now) clock
        (able how parcel) tree.old place.now) ∥₁ }
    requires rounds { tree.old.limits.edition ≡ Two → NoRounds (checked_model checked.now) }
    ensures leaves { (parcel : ParcelView) →
        MayAct (checked_model checked.now) clock (able how.entry parcel) tree.old place.now →
        IfOk result (λ left. ∥ Leaves (at_in (checked_model checked.now) tree.old)
        (deed how.entry parcel) (term_in tree.old) place.now
        (answered left (process_in tree.new)) ∥₁) }
    ensures after { IfOk result (After (checked_model checked.now) tree.old tree.new) }
    ensures ticks { (parcel : ParcelView) →
        MayAct (checked_model checked.now) clock (able how.entry parcel) tree.old place.now →
        IfOk result (λ left. OnOk left (∥ HasActedSoon (checked_model checked.now)
        (deed how.entry parcel) tree.old tree.new place.now steps.old steps.new ∥₁)) }
{
    let left = tree.act(checked, clock, place, how, steps)?;
    match left {
        Err(trouble) => Ok(Err(trouble)),
        Ok(()) => {
            tree.refresh(checked, clock, steps)?;
            Ok(Ok(()))
        }
    }
}

// The part at this end acts, which can do so. The only error is want of memory.
fn act_in<L: Ledger>(
    scene: Scene<'_>,
    trees: &mut [Tree],
    at: &End,
    how: How<'_>,
    steps: &mut Steps<L>,
) -> Result<Result<(), Trouble>, AllocError>
    requires rounds { scene.limits.edition ≡ Two → NoRounds (model_at scene) }
    requires may { ∥ ((parcel : ParcelView) × MayActAt (setting_at scene) scene.clock
        (able how parcel) trees.old at.now) ∥₁ }
    ensures acts { IfOk result (HasActed (model_at scene.entry) scene.entry.clock (able how.entry)
        (deed how.entry) at.now trees.old trees.new) }
    ensures ticks { (t u : Tree) → slice_get trees.old at.now.process ≡ Some t →
        slice_get trees.new at.now.process ≡ Some u → (parcel : ParcelView) →
        MayAct (model_at scene.entry) scene.entry.clock (able how.entry parcel) t at.now.place →
        IfOk result (λ left. OnOk left (∥ HasActedSoon (model_at scene.entry)
        (deed how.entry parcel) t u at.now.place steps.old steps.new ∥₁)) }
{
    let tree = &mut trees[at.process as usize];
    act_afresh(tree, scene.checked, scene.clock, &at.place, how, steps)
}

// What the send at this end would leave, which can act. The only error is want of memory.
fn try_send<L: Ledger>(
    scene: Scene<'_>,
    trees: &mut [Tree],
    at: &End,
    steps: &mut Steps<L>,
) -> Result<Result<(), Trouble>, AllocError>
    requires rounds { scene.limits.edition ≡ Two → NoRounds (model_at scene) }
    requires may { ∥ ((parcel : ParcelView) × MayActAt (setting_at scene) scene.clock
        (CanSend parcel) trees.old at.now) ∥₁ }
    ensures answers { IfOk result (HasTried (model_at scene.entry) scene.entry.clock at.now
        trees.old) }
    ensures trees { OnOk result (trees.new ≡ trees.old) }
    ensures ticks { (t : Tree) → slice_get trees.old at.now.process ≡ Some t →
        (parcel : ParcelView) →
        MayAct (model_at scene.entry) scene.entry.clock (CanSend parcel) t at.now.place →
        OnOk result (steps.new ≤ steps.old + 5 * on_way (term_in t) at.now.place) }
{
    let tree = &mut trees[at.process as usize];
    tree.trial(scene.checked, scene.clock, &at.place, How::Send, steps)
}

// The part at this end acts by itself, which can do so. At a trouble the trees are as before. The only error is want of
// memory.
fn act_at<L: Ledger>(
    scene: Scene<'_>,
    trees: &mut [Tree],
    at: &End,
    steps: &mut Steps<L>,
) -> Result<Result<(), Trouble>, AllocError>
    requires rounds { scene.limits.edition ≡ Two → NoRounds (model_at scene) }
    requires trees { ∥ AreTrees (setting_at scene) scene.clock trees.old ∥₁ }
    requires can { ∥ CanDoAt (model_at scene) CanAct trees.old at.now ∥₁ }
    ensures leads { (kind : Kind) (pos : Pos) → IfOk result (λ left.
        ∥ Next (setting_at scene.entry) (config_at scene.entry trees.old) (Internal at.now kind pos)
        (reached (model_at scene.entry) scene.entry.clock trees.new left) ∥₁) }
    ensures after { IfOk result (λ left. OnOk left
        (∥ AreTrees (setting_at scene.entry) scene.entry.clock trees.new ∥₁)) }
    ensures others { IfOk result (λ left. OnOk left ((tree : Tree) × (trees.new ≡
        slice_set trees.old at.now.process tree))) }
    ensures unchanged { IfOk result (λ left. OnErr left (trees.new ≡ trees.old)) }
    ensures ticks { (kind : Kind) (pos : Pos) → IfOk result (λ left. OnOk left
        (∥ ActsSoon (model_at scene.entry) trees.old trees.new (Internal at.now kind pos) 0
        steps.old steps.new ∥₁)) }
{
    pz_sim_laws::laws::steps_lead_on();
    pz_rules::laws::what_fits_goes_on();
    pz_rules::laws::low_terms_stay();
    let _model = scene.checked.model();
    act_in(scene, trees, at, How::Internal, steps)
}

// The receiver of a pair takes what its sender offers, and then the sender hands it over, which was tried and has no
// trouble. At a trouble of the receiver the trees are as before. The only error is want of memory.
fn exchange_tried<L: Ledger>(
    scene: Scene<'_>,
    trees: &mut [Tree],
    sender: &Sender,
    receiver: &End,
    steps: &mut Steps<L>,
) -> Result<Result<(), Trouble>, AllocError>
    requires rounds { scene.limits.edition ≡ Two → NoRounds (model_at scene) }
    requires trees { ∥ AreTrees (setting_at scene) scene.clock trees.old ∥₁ }
    requires pair { ∥ IsPair (setting_at scene) (config_at scene trees.old) sender.now.wire
        sender.now.end receiver.now sender.now.message sender.now.parcel ∥₁ }
    requires tried { (x : ⊤) × HasTried (model_at scene) scene.clock sender.now.end trees.old
        (Ok x) }
    ensures leads { IfOk result (λ left. ∥ Next (setting_at scene.entry)
        (config_at scene.entry trees.old) (communicated sender.now receiver.now)
        (reached (model_at scene.entry) scene.entry.clock trees.new left) ∥₁) }
    ensures after { IfOk result (λ left. OnOk left
        (∥ AreTrees (setting_at scene.entry) scene.entry.clock trees.new ∥₁)) }
    ensures others { IfOk result (λ left. OnOk left ((u v : Tree) × (trees.new ≡ slice_set
        (slice_set trees.old receiver.now.process v) sender.now.end.process u))) }
    ensures unchanged { IfOk result (λ left. OnErr left (trees.new ≡ trees.old)) }
    ensures ticks { (begun : ℕ) → ((t : Tree) →
        slice_get trees.old sender.now.end.process ≡ Some t → (parcel : ParcelView) →
        MayAct (model_at scene.entry) scene.entry.clock (CanSend parcel) t sender.now.end.place →
        steps.old ≤ begun + 5 * on_way (term_in t) sender.now.end.place) →
        IfOk result (λ left. OnOk left (∥ ActsSoon (model_at scene.entry) trees.old trees.new
        (communicated sender.now receiver.now) 0 begun steps.new ∥₁)) }
{
    pz_sim_laws::laws::steps_lead_on();
    pz_rules::laws::what_fits_goes_on();
    pz_rules::laws::low_terms_stay();
    pz_rules::laws::one_next();
    let _model = scene.checked.model();
    let how = How::Receive(&sender.parcel);
    let taken = act_in(scene, trees, receiver, how, steps)?;
    match taken {
        Err(trouble) => Ok(Err(trouble)),
        Ok(()) => act_in(scene, trees, &sender.end, How::Send, steps),
    }
}

// The sender of a pair hands over what it offers, and the receiver takes it. Whether the sender can do so is tried first,
// so that a trouble of either leaves the trees as they are. The only error is want of memory.
fn exchange<L: Ledger>(
    scene: Scene<'_>,
    trees: &mut [Tree],
    sender: &Sender,
    receiver: &End,
    steps: &mut Steps<L>,
) -> Result<Result<(), Trouble>, AllocError>
    requires rounds { scene.limits.edition ≡ Two → NoRounds (model_at scene) }
    requires trees { ∥ AreTrees (setting_at scene) scene.clock trees.old ∥₁ }
    requires pair { ∥ IsPair (setting_at scene) (config_at scene trees.old) sender.now.wire
        sender.now.end receiver.now sender.now.message sender.now.parcel ∥₁ }
    ensures leads { IfOk result (λ left. ∥ Next (setting_at scene.entry)
        (config_at scene.entry trees.old) (communicated sender.now receiver.now)
        (reached (model_at scene.entry) scene.entry.clock trees.new left) ∥₁) }
    ensures after { IfOk result (λ left. OnOk left
        (∥ AreTrees (setting_at scene.entry) scene.entry.clock trees.new ∥₁)) }
    ensures others { IfOk result (λ left. OnOk left ((u v : Tree) × (trees.new ≡ slice_set
        (slice_set trees.old receiver.now.process v) sender.now.end.process u))) }
    ensures unchanged { IfOk result (λ left. OnErr left (trees.new ≡ trees.old)) }
    ensures ticks { IfOk result (λ left. OnOk left (∥ ActsSoon (model_at scene.entry) trees.old
        trees.new (communicated sender.now receiver.now) 0 steps.old steps.new ∥₁)) }
{
    pz_sim_laws::laws::steps_lead_on();
    pz_rules::laws::one_next();
    let tried = try_send(scene, trees, &sender.end, steps)?;
    match tried {
        Err(trouble) => Ok(Err(trouble)),
        Ok(()) => exchange_tried(scene, trees, sender, receiver, steps),
    }
}

// A process is what its tree says from now on, in the totals and in the table. The only error is want
// of memory.
fn renew<L: Ledger>(
    scene: Scene<'_>,
    trees: &mut [Tree],
    totals: &mut Totals,
    pairs: &mut Pairs,
    process: u32,
    steps: &mut Steps<L>,
) -> Result<(), AllocError>
    requires of_model { ∥ IsNet (model_at scene) scene.net.now ∥₁ }
    requires can { ∥ CanTell (model_at scene) scene.clock trees.old pairs.old process ∥₁ }
    requires within { process < length totals.old }
    ensures table { IsNet (model_at scene.entry) scene.entry.net.now →
        (hs : List Member) (tree : Tree) →
        slice_get trees.old process ≡ Some tree →
        AreHeardBut (model_at scene.entry) scene.entry.clock trees.old process hs →
        IsTable hs pairs.old →
        CanTell (model_at scene.entry) scene.entry.clock trees.old pairs.old process →
        OnOk result (IsTable (slice_set hs process
        (member_of (model_at scene.entry) tree)) pairs.new) }
    ensures totals { (tree : Tree) → slice_get trees.old process ≡ Some tree →
        IsFresh (model_at scene.entry) tree → tree.clock ≡ scene.entry.clock →
        OnOk result (totals.new ≡ slice_set totals.old process
        (total_of scene.entry.clock (member_of (model_at scene.entry) tree))) }
    ensures trees { trees.new ≡ trees.old }
    ensures others { OnOk result (filter (λ p. not (touches process p)) pairs.new.pairs ≡ filter
        (λ p. not (touches process p)) pairs.old.pairs) }
    ensures ticks { OnOk result (steps.new ≡ steps.old + length
        (questions process pairs.new.pairs)) }
{
    let total = total_in(&trees[process as usize]);
    totals.set(process as usize, total)?;
    tell(
        scene.checked,
        scene.net,
        scene.clock,
        trees,
        pairs,
        process,
        steps,
    )
}

// The part at this end acts by itself, which can do so, and what is kept of its process is told anew. At a trouble the
// trees are as before. The only error is want of memory.
pub(crate) fn act_alone<L: Ledger>(
    scene: Scene<'_>,
    trees: &mut [Tree],
    totals: &mut Totals,
    pairs: &mut Pairs,
    at: &End,
    steps: &mut Steps<L>,
) -> Result<Result<(), Trouble>, AllocError>
    requires of_model { ∥ IsNet (model_at scene) scene.net.now ∥₁ }
    requires rounds { scene.limits.edition ≡ Two → NoRounds (model_at scene) }
    requires told { ∥ AreTold (setting_at scene) scene.clock trees.old totals.old pairs.old ∥₁ }
    requires can { ∥ CanDoAt (model_at scene) CanAct trees.old at.now ∥₁ }
    ensures leads { (kind : Kind) (pos : Pos) → IfOk result (λ left.
        ∥ Next (setting_at scene.entry) (config_at scene.entry trees.old) (Internal at.now kind pos)
        (reached (model_at scene.entry) scene.entry.clock trees.new left) ∥₁) }
    ensures told { IfOk result (λ left. OnOk left (∥ AreTold (setting_at scene.entry)
        scene.entry.clock trees.new totals.new pairs.new ∥₁)) }
    ensures unchanged { IfOk result (λ left. OnErr left (trees.new ≡ trees.old)) }
    ensures ticks { (kind : Kind) (pos : Pos) → IfOk result (λ left. OnOk left
        (∥ ActsSoon (model_at scene.entry) trees.old trees.new (Internal at.now kind pos)
        (length (with_end_in (acts_in (Internal at.now kind pos)) pairs.new.pairs))
        steps.old steps.new ∥₁)) }
{
    let left = act_at(scene, trees, at, steps)?;
    match left {
        Err(trouble) => Ok(Err(trouble)),
        Ok(()) => {
            renew(scene, trees, totals, pairs, at.process, steps)?;
            Ok(Ok(()))
        }
    }
}

// The sender of a pair hands over what it offers, and the receiver takes it; what is kept of both is told anew. Until
// then the sender is silent in the table, so that no question is asked of a receive that it offers no longer. At a
// trouble of either the trees are as before. The only error is want of memory.
pub(crate) fn hand_over<L: Ledger>(
    scene: Scene<'_>,
    trees: &mut [Tree],
    totals: &mut Totals,
    pairs: &mut Pairs,
    sender: &Sender,
    receiver: &End,
    steps: &mut Steps<L>,
) -> Result<Result<(), Trouble>, AllocError>
    requires of_model { ∥ IsNet (model_at scene) scene.net.now ∥₁ }
    requires rounds { scene.limits.edition ≡ Two → NoRounds (model_at scene) }
    requires told { ∥ AreTold (setting_at scene) scene.clock trees.old totals.old pairs.old ∥₁ }
    requires pair { ∥ IsPair (setting_at scene) (config_at scene trees.old) sender.now.wire
        sender.now.end receiver.now sender.now.message sender.now.parcel ∥₁ }
    ensures leads { IfOk result (λ left. ∥ Next (setting_at scene.entry)
        (config_at scene.entry trees.old) (communicated sender.now receiver.now)
        (reached (model_at scene.entry) scene.entry.clock trees.new left) ∥₁) }
    ensures told { IfOk result (λ left. OnOk left (∥ AreTold (setting_at scene.entry)
        scene.entry.clock trees.new totals.new pairs.new ∥₁)) }
    ensures unchanged { IfOk result (λ left. OnErr left (trees.new ≡ trees.old)) }
    ensures ticks { IfOk result (λ left. OnOk left (∥ ActsSoon (model_at scene.entry) trees.old
        trees.new (communicated sender.now receiver.now)
        (length (with_end_in (acts_in (communicated sender.now receiver.now)) pairs.new.pairs))
        steps.old steps.new ∥₁)) }
{
    silence(
        scene.alloc,
        scene.checked,
        scene.clock,
        trees,
        pairs,
        sender.end.process,
        steps,
    )?;
    let left = exchange(scene, trees, sender, receiver, steps)?;
    match left {
        Err(trouble) => Ok(Err(trouble)),
        Ok(()) => {
            renew(scene, trees, totals, pairs, receiver.process, steps)?;
            renew(scene, trees, totals, pairs, sender.end.process, steps)?;
            Ok(Ok(()))
        }
    }
}
