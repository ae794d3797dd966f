//! The frames that stand no longer.

ghost use Rattle.std.specs.Prelude.{◌≡◌, ◌<◌, ◌++◌, nat_eq, not, map, if◌then◌else◌, IfOk, OnOk};
ghost use Rattle.std.specs.List.{list_any, AllPairs};
ghost use Rattle.std.specs.List.Sorted.{IsNonDecreasing, IsPermutation};
ghost use Rattle.pz_rules.specs.pz_state.States.{HasFrame, closed};
ghost use Rattle.pz_rules.specs.pz_state.Marks.{changed};
ghost use Rattle.pz_rules.specs.Terms.{frames_in, frames_in_all};
ghost use Rattle.pz_rules.specs.Leaving.{only_frames};
ghost use Rattle.pz_rules.specs.View.{term_view, terms_view};
ghost use Rattle.pz_term_frames.specs.Closing.{without_frames};

use pz_rules::Term;
use pz_rules::pz_state::{FrameId, State};
use std::alloc::{AllocError, Global};

/// Adds the numbers of the frames that stand in a term, the outer before the inner. Time is linear in the term. The only
/// error is want of memory.
#[cycle(listing)]
pub fn list_frames(term: &Term, frames: &mut Vec<u64>) -> Result<(), AllocError>
    ensures { OnOk result (frames.new.items ≡ frames.old.items ++ frames_in (term_view term.now)) }
{
    match term {
        Term::Done => Ok(()),
        Term::Leaf(_) => Ok(()),
        Term::Wait { .. } => Ok(()),
        Term::Seq(first, _) => list_frames(first.get(), frames),
        Term::Par(parts) => list_all(parts.as_slice(), frames),
        Term::Sel(parts) => list_all(parts.as_slice(), frames),
        Term::Guard { body, .. } => list_frames(body.get(), frames),
        Term::Frame { frame, body, .. } => {
            frames.push(frame.0)?;
            list_frames(body.get(), frames)
        }
        Term::Abort(first, second) => list_both(first.get(), second.get(), frames),
        Term::Idle(first, second, _) => list_both(first.get(), second.get(), frames),
        Term::Handling(first, second, _) => list_both(first.get(), second.get(), frames),
    }
}

#[cycle(listing)]
fn list_both(first: &Term, second: &Term, frames: &mut Vec<u64>) -> Result<(), AllocError>
    ensures { OnOk result (frames.new.items ≡ frames.old.items ++
        (frames_in (term_view first.now) ++ frames_in (term_view second.now))) }
{
    list_frames(first, frames)?;
    list_frames(second, frames)
}

#[cycle(listing)]
fn list_all(parts: &[Term], frames: &mut Vec<u64>) -> Result<(), AllocError>
    ensures { OnOk result (frames.new.items ≡ frames.old.items ++ frames_in_all
        (terms_view parts.now)) }
{
    for part in parts {
        list_frames(part, frames)?;
    }
    Ok(())
}

/// The numbers of the frames that stand in a term, in order. The only error is want of memory.
fn standing_frames(alloc: Global, term: &Term) -> Result<Vec<u64>, AllocError>
    ensures frames { IfOk result (λ frames. IsPermutation
        (frames_in (term_view term.now)) frames.items) }
    ensures sorted { IfOk result (λ frames. IsNonDecreasing frames.items) }
{
    let mut frames = Vec::new(alloc);
    list_frames(term, &mut frames)?;
    frames.sort()?;
    Ok(frames)
}

/// Whether the frame is among these, which are in order.
fn is_among(frame: FrameId, standing: &[u64]) -> bool
    requires { IsNonDecreasing standing.now }
    ensures { result ≡ list_any (nat_eq frame.0) standing.now }
{
    standing.binary_search(&frame.0).is_ok()
}

/// Closes the frame unless it is among these, which are in order. The only error is want of memory.
fn close_unless(frame: FrameId, standing: &[u64], state: &mut State) -> Result<(), AllocError>
    requires sorted { IsNonDecreasing standing.now }
    requires there { HasFrame state.old.held frame.0 }
    ensures { OnOk result (state.new ≡ changed state.old
        (if list_any (nat_eq frame.0) standing.now then state.old.held else closed state.old.held
        frame.0)) }
{
    if is_among(frame, standing) {
        return Ok(());
    }
    state.close_frame(frame)
}

/// Closes all open frames but these, which are in order; open marks stay. Time is linear in the open frames, but
/// for a logarithm. The only error is want of memory, and of the state nothing is said then.
pub fn close_others(standing: &[u64], state: &mut State) -> Result<(), AllocError>
    requires { IsNonDecreasing standing.now }
    ensures closed { OnOk result (state.new ≡ changed state.old
        (only_frames standing.now state.old.held)) }
    ensures ordered { AllPairs (λ m n. m < n) (map (λ f. f.0) state.old.held.frames) }
{
    let frames = state.frames()?;
    for frame in &frames {
        close_unless(*frame, standing, state)?;
    }
    Ok(())
}

/// Closes the frame if it is among these, which are in order. The only error is want of memory.
fn close_if(frame: FrameId, gone: &[u64], state: &mut State) -> Result<(), AllocError>
    requires sorted { IsNonDecreasing gone.now }
    requires there { HasFrame state.old.held frame.0 }
    ensures { OnOk result (state.new ≡ changed state.old
        (if not (list_any (nat_eq frame.0) gone.now) then state.old.held else closed state.old.held
        frame.0)) }
{
    if !is_among(frame, gone) {
        return Ok(());
    }
    state.close_frame(frame)
}

/// Closes those of the open frames that are among these, which are in order; open marks stay. Time is linear in the
/// open frames, but for a logarithm. The only error is want of memory, and of the state nothing is said then.
pub fn close_those(gone: &[u64], state: &mut State) -> Result<(), AllocError>
    requires { IsNonDecreasing gone.now }
    ensures closed { OnOk result (state.new ≡ changed state.old
        (without_frames gone.now state.old.held)) }
    ensures ordered { AllPairs (λ m n. m < n) (map (λ f. f.0) state.old.held.frames) }
{
    let frames = state.frames()?;
    for frame in &frames {
        close_if(*frame, gone, state)?;
    }
    Ok(())
}

/// Closes the open frames that do not stand in the term; open marks stay. Time is linear in the term
/// and in the open frames, but for a logarithm. The only error is want of memory, and of the state
/// nothing is said then.
pub fn sweep(alloc: Global, term: &Term, state: &mut State) -> Result<(), AllocError>
    ensures { OnOk result (state.new ≡ changed state.old
        (only_frames (frames_in (term_view term.now)) state.old.held)) }
{
    let standing = standing_frames(alloc, term)?;
    close_others(&standing, state)
}
