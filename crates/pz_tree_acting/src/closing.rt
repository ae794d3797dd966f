// The frames that stand no longer leave the state. The only error is want of memory, and of the state nothing is said
// then.

ghost use Rattle.std.specs.Prelude.{◌≡◌, ◌<◌, map, IfOk, OnOk};
ghost use Rattle.std.specs.List.{AllPairs};
ghost use Rattle.std.specs.List.Sorted.{IsNonDecreasing, IsPermutation};
ghost use Rattle.pz_rules.specs.View.{term_view};
ghost use Rattle.pz_tree_regrowing.specs.pz_tree_nodes.Dropping.{numbers};
ghost use Rattle.pz_tree_acting.specs.devices.Closing.{HasListed, AlsoLists, OnlyListed, LostRule, ListedRule, CloseRule};

use pz_rules::pz_state::{FrameId, State};
use pz_rules::{Edition, Term};
use pz_term_frames::{close_others, close_those, list_frames};
use std::alloc::{AllocError, Global};

// The numbers of frames.
fn numbers_of(alloc: Global, frames: &[FrameId]) -> Result<Vec<u64>, AllocError>
    ensures { IfOk result (λ listed. listed.items ≡ numbers frames.now) }
{
    let mut listed = Vec::new(alloc);
    for frame in frames {
        listed.push(frame.0)?;
    }
    Ok(listed)
}

// Numbers, in order.
fn sorted(mut listed: Vec<u64>) -> Result<Vec<u64>, AllocError>
    ensures same { IfOk result (λ sorted. IsPermutation listed.items sorted.items) }
    ensures sorted { IfOk result (λ sorted. IsNonDecreasing sorted.items) }
{
    listed.sort()?;
    Ok(listed)
}

// Those of frames.
fn in_order(alloc: Global, frames: &[FrameId]) -> Result<Vec<u64>, AllocError>
    ensures frames { IfOk result (λ sorted. IsPermutation (numbers frames.now) sorted.items) }
    ensures sorted { IfOk result (λ sorted. IsNonDecreasing sorted.items) }
{
    let listed = numbers_of(alloc, frames)?;
    sorted(listed)
}

/// The frames that are open before a part acts. In edition One nobody asks for them.
pub(crate) fn open_frames(
    alloc: Global,
    edition: Edition,
    state: &State,
) -> Result<Vec<u64>, AllocError>
    ensures { IfOk result (λ listed. HasListed edition state.now.held listed.items) }
{
    match edition {
        Edition::One => Ok(Vec::new(alloc)),
        Edition::Two => {
            let frames = state.frames()?;
            numbers_of(alloc, &frames)
        }
    }
}

/// And those that stand in what the part has become.
pub(crate) fn list_part(
    edition: Edition,
    part: &Term,
    listed: &mut Vec<u64>,
) -> Result<(), AllocError>
    ensures { OnOk result (AlsoLists edition (term_view part.now) listed.old.items
        listed.new.items) }
{
    match edition {
        Edition::One => Ok(()),
        Edition::Two => list_frames(part, listed),
    }
}

// Closes the frames that are lost, if they are just those that do not stand.
fn close_lost(alloc: Global, lost: &[FrameId], state: &mut State) -> Result<(), AllocError>
    ensures closed { OnOk result (LostRule (numbers lost.now) state.old state.new) }
    ensures marks { OnOk result (state.new.marks ≡ state.old.marks) }
{
    if lost.is_empty() {
        return Ok(());
    }
    let gone = in_order(alloc, lost)?;
    close_those(&gone, state)
}

// Closes the frames that are not listed.
fn close_unlisted(listed: Vec<u64>, state: &mut State) -> Result<(), AllocError>
    ensures closed { OnOk result (OnlyListed listed.items state.old state.new) }
    ensures ordered { OnOk result (AllPairs (λ m n. m < n) (map (λ f. f.0) state.old.held.frames)) }
    ensures marks { OnOk result (state.new.marks ≡ state.old.marks) }
{
    let standing = sorted(listed)?;
    close_others(&standing, state)
}

// Closes those that are not listed, and those that are lost.
fn close_both(
    alloc: Global,
    listed: Vec<u64>,
    lost: &[FrameId],
    state: &mut State,
) -> Result<(), AllocError>
    ensures closed { OnOk result (ListedRule listed.items (numbers lost.now) state.old state.new) }
    ensures marks { OnOk result (state.new.marks ≡ state.old.marks) }
{
    close_unlisted(listed, state)?;
    close_lost(alloc, lost, state)
}

/// Closes the open frames that stand no longer. In edition One these are the ones that are lost. In edition Two others
/// may have opened which do not stand, and those are not among the listed ones. No node is looked at.
pub(crate) fn close_frames(
    alloc: Global,
    edition: Edition,
    listed: Vec<u64>,
    lost: &[FrameId],
    state: &mut State,
) -> Result<(), AllocError>
    ensures closed { OnOk result (CloseRule edition listed.items (numbers lost.now)
        state.old state.new) }
    ensures marks { OnOk result (state.new.marks ≡ state.old.marks) }
{
    match edition {
        Edition::One => close_lost(alloc, lost, state),
        Edition::Two => close_both(alloc, listed, lost, state),
    }
}
