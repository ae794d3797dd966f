// An action takes place, or is tried.

ghost use Rattle.std.specs.Prelude.{◌≡◌, IfOk, OnErr, OnOk};
ghost use Rattle.pz_part_actions.specs.pz_classes.CheckedView.{checked_model};
ghost use Rattle.pz_nodes.specs.Arena.{find};
ghost use Rattle.pz_part_actions.specs.pz_part_queries.Standpoints.{Knows};
ghost use Rattle.pz_part_actions.specs.pz_part_opening.Homes.{home_view};
ghost use Rattle.pz_rules.specs.View.{term_view};
ghost use Rattle.pz_rules.specs.pz_state.Marks.{IsLatest};
ghost use Rattle.pz_rules.specs.Short.{IsShort};
ghost use Rattle.pz_tree_regrowing.specs.pz_tree_standing.Soon.{HasRoom};
ghost use Rattle.pz_tree_acting.specs.Acting.{MayBeDone, ActRule, TrialRule, TrialSteps};
ghost use Rattle.pz_tree_acting.specs.devices.Begun.{MayGoOn, StayRule};

use crate::beginning::{Begun, begin};
use crate::closing::{close_frames, list_part, open_frames};
use crate::how::How;
use pz_nodes::{Key, Nodes, Steps};
use pz_part_actions::pz_part_opening::Home;
use pz_part_actions::pz_part_queries::Standpoint;
use pz_rules::pz_offer::Trouble;
use pz_rules::pz_state::{FrameId, State};
use pz_tree_regrowing::pz_tree_nodes::{Node, Spot, pz_tree_standing};
use pz_tree_regrowing::{pz_tree_nodes, regrow};
use std::alloc::{AllocError, Global};
use std::sync::ledger::Ledger;

// What a part did stays: the nodes become those of what is left, and the frames that stand no longer leave the state.
fn finish<L: Ledger>(
    alloc: Global,
    home: &Home<'_>,
    nodes: &mut Nodes<Node>,
    root: Option<Key>,
    clock: u128,
    place: &[usize],
    begun: Begun,
    mut listed: Vec<u64>,
    state: &mut State,
    steps: &mut Steps<L>,
) -> Result<Option<Key>, AllocError>
    requires latest { IsLatest state.old begun.point }
    requires stands { ∥ MayGoOn (find nodes.old) root clock place.now ∥₁ }
    requires room { HasRoom clock }
    requires short { IsShort (term_view begun.part) }
    ensures { IfOk result (λ out. StayRule (home_view home.now) (find nodes.old)
        (find nodes.new) root clock
        place.now (term_view begun.part) listed.items out state.old state.new steps.old steps.new) }
{
    let Begun { point, part } = begun;
    list_part(home.edition, &part, &mut listed)?;
    let whole = Spot {
        key: root,
        frame: FrameId(0),
        clock,
    };
    pz_tree_standing::laws::frames_are_counted();
    pz_tree_standing::laws::openings_open_frames();
    let mut lost = Vec::new(alloc);
    let out = regrow(
        alloc,
        home,
        nodes,
        whole,
        place,
        part,
        state,
        &mut lost,
        &mut listed,
        steps,
    )?;
    close_frames(alloc, home.edition, listed, &lost, state)?;
    state.keep(point);
    Ok(out)
}

/// The part at the place of the term that stands at `root` acts, in its state and by the clock of the standpoint.
/// Hands out the key of what stands for what that leaves, None where nothing is left; or the trouble, and then
/// nothing has changed: the deed is undone, and how high the term becomes is asked before a node changes. The frames
/// that stand no longer leave the state. Takes at most sixteen steps for each part on the way and each that stands beside
/// one of them in a `par`, each that is made and each that is dropped. The only error is want of memory, or that there
/// is more to do than can be counted; then the nodes may only be dropped, and of the state nothing is said.
pub fn act<L: Ledger>(
    alloc: Global,
    here: &Standpoint<'_>,
    home: &Home<'_>,
    nodes: &mut Nodes<Node>,
    root: Option<Key>,
    place: &[usize],
    how: How<'_>,
    state: &mut State,
    steps: &mut Steps<L>,
) -> Result<Result<Option<Key>, Trouble>, AllocError>
    requires knows { Knows (checked_model home.now.checked.now) here.now }
    requires can { ∥ MayBeDone here.now home.now how (find nodes.old) root state.old.held
        place.now ∥₁ }
    ensures acts { IfOk result (λ left. ActRule here.now home.now how.entry (find nodes.old)
        (find nodes.new) root
        place.now left state.old state.new steps.old steps.new) }
    ensures stays { IfOk result (λ left. OnErr left
        ((nodes.new ≡ nodes.old) × (state.new ≡ state.old))) }
{
    pz_term_residual::laws::active_parts_may_act();
    pz_rules::laws::offered_parts_act();
    pz_tree_nodes::laws::active_parts_are_at_their_places();
    let listed = open_frames(alloc, home.edition, state)?;
    match begin(alloc, here, home, nodes, root, place, how, state, steps)? {
        Ok(begun) => {
            let out = finish(
                alloc, home, nodes, root, here.clock, place, begun, listed, state, steps,
            )?;
            Ok(Ok(out))
        }
        Err(trouble) => Ok(Err(trouble)),
    }
}

/// The answer that `act` has for the same arguments, and nodes and state stay as they are. Takes at most five steps for
/// each part on the way and each that stands beside one of them in a `par`. The only error is want of memory, and then
/// of the state nothing is said.
pub fn trial<L: Ledger>(
    alloc: Global,
    here: &Standpoint<'_>,
    home: &Home<'_>,
    nodes: &Nodes<Node>,
    root: Option<Key>,
    place: &[usize],
    how: How<'_>,
    state: &mut State,
    steps: &mut Steps<L>,
) -> Result<Result<(), Trouble>, AllocError>
    requires knows { Knows (checked_model home.now.checked.now) here.now }
    requires can { ∥ MayBeDone here.now home.now how (find nodes.now) root state.old.held
        place.now ∥₁ }
    ensures answers { IfOk result (λ left. TrialRule here.now home.now how.entry (find nodes.now)
        root place.now left
        state.old.held) }
    ensures stays { OnOk result (state.new ≡ state.old) }
    ensures ticks { OnOk result (TrialSteps here.now home.now how.entry (find nodes.now) root
        place.now state.old.held
        steps.old steps.new) }
{
    match begin(alloc, here, home, nodes, root, place, how, state, steps)? {
        Ok(begun) => {
            state.undo_to(begun.point);
            Ok(Ok(()))
        }
        Err(trouble) => Ok(Err(trouble)),
    }
}
