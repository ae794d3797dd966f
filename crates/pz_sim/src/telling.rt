// The table of pairs is told what a process offers.

ghost use Rattle.std.specs.Prelude.{◌≡◌, ◌+◌, ℕ, not, List, Some, filter, length, slice_get, slice_set, OnOk, OnErr};
ghost use Rattle.pz_bind.specs.pz_classes.CheckedView.{checked_model};
ghost use Rattle.pz_match.specs.Pairs.{questions, touches};
ghost use Rattle.pz_sim_laws.specs.Members.{Member};
ghost use Rattle.pz_bind.specs.devices.Nets.{IsNet};
ghost use Rattle.pz_tree.specs.declared.tree.Tree.{Tree};
ghost use Rattle.pz_sim.specs.Members.{member_of};
ghost use Rattle.pz_sim.specs.devices.Tables.{IsTable, AreHeard, AreHeardBut, CanBeSilent, CanSpeak, CanTell, hushed};

use crate::judging::TreeJudge;
use pz_bind::Net;
use pz_bind::pz_classes::Checked;
use pz_match::Pairs;
use pz_nodes::Steps;
use pz_rules::pz_offer::{ReceiveOffer, SendOffer};
use pz_tree::Tree;
use std::alloc::{AllocError, Global};
use std::sync::ledger::Ledger;

/// A process offers nothing for a while, so that no question names what it no longer offers. The only error is
/// want of memory.
pub(crate) fn silence<L: Ledger>(
    alloc: Global,
    checked: &Checked,
    clock: u128,
    trees: &mut [Tree],
    pairs: &mut Pairs,
    process: u32,
    steps: &mut Steps<L>,
) -> Result<(), AllocError>
    requires { ∥ CanBeSilent process pairs.old ∥₁ }
    ensures table { (hs : List Member) (h : Member) → slice_get hs process ≡ Some h →
        AreHeard (checked_model checked.now) clock trees.old hs → IsTable hs pairs.old →
        OnOk result (IsTable (slice_set hs process (hushed h)) pairs.new) }
    ensures trees { trees.new ≡ trees.old }
    ensures ticks { OnOk result (steps.new ≡ steps.old + length
        (questions process pairs.new.pairs)) }
{
    pz_sim_laws::laws::pairs_are_those_of_the_rules();
    pz_sim_laws::laws::receives_say_one_thing();
    pz_sim_laws::laws::others_stay();
    let mut judge = TreeJudge {
        trees,
        checked,
        clock,
        steps,
    };
    pairs.update(process, Vec::new(alloc), Vec::new(alloc), &mut judge)
}

/// A process offers this from now on. The judge asks about each pair that fits, has a condition and has an end in
/// this process. The only error is want of memory.
pub(crate) fn speak<L: Ledger>(
    checked: &Checked,
    clock: u128,
    trees: &mut [Tree],
    pairs: &mut Pairs,
    process: u32,
    sends: Vec<SendOffer>,
    receives: Vec<ReceiveOffer>,
    steps: &mut Steps<L>,
) -> Result<(), AllocError>
    requires { ∥ CanSpeak (checked_model checked.now) clock trees.old pairs.old process sends.items
        receives.items ∥₁ }
    ensures table { (hs : List Member) (tree : Tree) → slice_get trees.old process ≡ Some tree →
        AreHeardBut (checked_model checked.now) clock trees.old process hs →
        CanSpeak (checked_model checked.now) clock trees.old pairs.old process sends.items
        receives.items → IsTable hs pairs.old → OnOk result (IsTable
        (slice_set hs process (member_of (checked_model checked.now) tree)) pairs.new) }
    ensures trees { trees.new ≡ trees.old }
    ensures others { OnOk result (filter (λ p. not (touches process p)) pairs.new.pairs ≡ filter
        (λ p. not (touches process p)) pairs.old.pairs) }
    ensures ticks { OnOk result (steps.new ≡ steps.old + length
        (questions process pairs.new.pairs)) }
{
    pz_sim_laws::laws::pairs_are_those_of_the_rules();
    pz_sim_laws::laws::receives_say_one_thing();
    pz_sim_laws::laws::others_stay();
    let mut judge = TreeJudge {
        trees,
        checked,
        clock,
        steps,
    };
    pairs.update(process, sends, receives, &mut judge)
}

/// A process offers what its tree says from now on. The only error is want of memory.
pub(crate) fn tell<L: Ledger>(
    checked: &Checked,
    net: &Net,
    clock: u128,
    trees: &mut [Tree],
    pairs: &mut Pairs,
    process: u32,
    steps: &mut Steps<L>,
) -> Result<(), AllocError>
    requires of_model { ∥ IsNet (checked_model checked.now) net.now ∥₁ }
    requires can { ∥ CanTell (checked_model checked.now) clock trees.old pairs.old process ∥₁ }
    ensures table { IsNet (checked_model checked.now) net.now → (hs : List Member) (tree : Tree) →
        slice_get trees.old process ≡ Some tree →
        AreHeardBut (checked_model checked.now) clock trees.old process hs → IsTable hs pairs.old →
        CanTell (checked_model checked.now) clock trees.old pairs.old process →
        OnOk result (IsTable (slice_set hs process
        (member_of (checked_model checked.now) tree)) pairs.new) }
    ensures trees { trees.new ≡ trees.old }
    ensures others { OnOk result (filter (λ p. not (touches process p)) pairs.new.pairs ≡ filter
        (λ p. not (touches process p)) pairs.old.pairs) }
    ensures ticks { OnOk result (steps.new ≡ steps.old + length
        (questions process pairs.new.pairs)) }
{
    pz_rules::laws::walks_list_what_is_active();
    let tree = &mut trees[process as usize];
    let sends = tree.sends(checked, net)?;
    let receives = tree.receives(checked, net)?;
    speak(
        checked, clock, trees, pairs, process, sends, receives, steps,
    )
}
