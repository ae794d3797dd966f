//! The walk.

ghost use Rattle.std.specs.Prelude.{◌≡◌, [], ◌∷◌, ◌++◌, ℕ, map, OnOk, IfOk};
ghost use Rattle.pz_classes_code.specs.pz_syntax.Classes.{ModelTree};
ghost use Rattle.pz_classes_code.specs.CodeView as code;
ghost use Rattle.pz_rules.specs.Terms as terms;
ghost use Rattle.pz_rules.specs.View.{term_view, terms_view};
ghost use Rattle.pz_rules.specs.devices.Walk.{active_parts, active_children, under};
ghost use Rattle.pz_term_processes.specs.pz_eval.Known.{AreKnown};
ghost use Rattle.pz_term_processes.specs.pz_part_queries.Standpoints.{Knows, seen_from};
ghost use Rattle.pz_term_enabled.specs.devices.Walked.{IsWalked};
ghost use Rattle.pz_term_enabled.specs.devices.Listings.{Adds};

use crate::found::Found;
use crate::noting::{note_left, note_step, note_trouble};
use pz_classes_code::Code;
use pz_classes_code::pz_items::Shared;
use pz_classes_code::pz_syntax::Pos;
use pz_rules::Term;
use pz_rules::pz_offer::Place;
use pz_rules::pz_state::{FrameId, State};
use pz_term_processes::pz_part_actions::pz_part_queries::{Standpoint, ask_test};
use std::alloc::{AllocError, Global};

#[cycle(walking)]
fn walk_part(
    alloc: Global,
    here: &Standpoint<'_>,
    state: &mut State,
    frame: FrameId,
    term: &Term,
    place: &mut Place,
    found: &mut Found,
) -> Result<(), AllocError>
    requires { AreKnown here.now.classes.now }
    ensures adds { (m : ModelTree) (class : ℕ) → Knows m here.now →
        OnOk result (Adds (seen_from m here.now class state.old.held) place.old
        (active_parts (seen_from m here.now class state.old.held) frame.0 (term_view term.now))
        found.old found.new) }
    ensures place { OnOk result (place.new ≡ place.old) }
    ensures state { state.new ≡ state.old }
{
    match term {
        Term::Done => Ok(()),
        Term::Leaf(step) => note_step(alloc, here, state, frame, step, place, found),
        Term::Wait { left, pos } => note_left(found, place, *left, *pos),
        Term::Seq(first, _) => {
            walk_child(alloc, here, state, frame, first.get(), 0, place, found)
        }
        Term::Par(parts) => {
            walk_children(alloc, here, state, frame, parts.as_slice(), place, found)
        }
        Term::Sel(parts) => {
            walk_children(alloc, here, state, frame, parts.as_slice(), place, found)
        }
        Term::Guard { test, pos, body } => walk_guarded(
            alloc,
            here,
            state,
            frame,
            test,
            *pos,
            body.get(),
            place,
            found,
        ),
        Term::Frame {
            frame: own,
            body,
            ..
        } => walk_child(alloc, here, state, *own, body.get(), 0, place, found),
        Term::Abort(first, second) => walk_both(
            alloc,
            here,
            state,
            frame,
            first.get(),
            second.get(),
            place,
            found,
        ),
        Term::Idle(first, second, _) => walk_both(
            alloc,
            here,
            state,
            frame,
            first.get(),
            second.get(),
            place,
            found,
        ),
        // What is interrupted stands still.
        Term::Handling(_, second, _) => {
            walk_child(alloc, here, state, frame, second.get(), 1, place, found)
        }
    }
}

#[cycle(walking)]
fn walk_child(
    alloc: Global,
    here: &Standpoint<'_>,
    state: &mut State,
    frame: FrameId,
    child: &Term,
    number: usize,
    place: &mut Place,
    found: &mut Found,
) -> Result<(), AllocError>
    requires { AreKnown here.now.classes.now }
    ensures adds { (m : ModelTree) (class : ℕ) → Knows m here.now →
        OnOk result (Adds (seen_from m here.now class state.old.held) place.old
        (map (under number) (active_parts (seen_from m here.now class state.old.held) frame.0
        (term_view child.now))) found.old found.new) }
    ensures place { OnOk result (place.new ≡ place.old) }
    ensures state { state.new ≡ state.old }
{
    place.enter(number)?;
    walk_part(alloc, here, state, frame, child, place, found)?;
    place.leave();
    Ok(())
}

#[cycle(walking)]
fn walk_both(
    alloc: Global,
    here: &Standpoint<'_>,
    state: &mut State,
    frame: FrameId,
    first: &Term,
    second: &Term,
    place: &mut Place,
    found: &mut Found,
) -> Result<(), AllocError>
    requires { AreKnown here.now.classes.now }
    ensures adds { (m : ModelTree) (class : ℕ) → Knows m here.now →
        OnOk result (Adds (seen_from m here.now class state.old.held) place.old
        (map (under 0) (active_parts (seen_from m here.now class state.old.held) frame.0
        (term_view first.now)) ++ map (under 1) (active_parts
        (seen_from m here.now class state.old.held) frame.0 (term_view second.now))) found.old
        found.new) }
    ensures place { OnOk result (place.new ≡ place.old) }
    ensures state { state.new ≡ state.old }
{
    walk_child(alloc, here, state, frame, first, 0, place, found)?;
    walk_child(alloc, here, state, frame, second, 1, place, found)
}

#[cycle(walking)]
fn walk_children(
    alloc: Global,
    here: &Standpoint<'_>,
    state: &mut State,
    frame: FrameId,
    parts: &[Term],
    place: &mut Place,
    found: &mut Found,
) -> Result<(), AllocError>
    requires { AreKnown here.now.classes.now }
    ensures adds { (m : ModelTree) (class : ℕ) → Knows m here.now →
        OnOk result (Adds (seen_from m here.now class state.old.held) place.old
        (active_children (seen_from m here.now class state.old.held) frame.0 0
        (terms_view parts.now)) found.old found.new) }
    ensures place { OnOk result (place.new ≡ place.old) }
    ensures state { state.new ≡ state.old }
{
    for (number, part) in parts.iter().enumerate() {
        walk_child(alloc, here, state, frame, part, number, place, found)?;
    }
    Ok(())
}

// What stands behind a guard that is open.
#[cycle(walking)]
fn walk_guarded(
    alloc: Global,
    here: &Standpoint<'_>,
    state: &mut State,
    frame: FrameId,
    test: &Shared<Code>,
    pos: Pos,
    body: &Term,
    place: &mut Place,
    found: &mut Found,
) -> Result<(), AllocError>
    requires { AreKnown here.now.classes.now }
    ensures adds { (m : ModelTree) (class : ℕ) → Knows m here.now →
        OnOk result (Adds (seen_from m here.now class state.old.held) place.old
        (active_parts (seen_from m here.now class state.old.held) frame.0
        (terms.guarded (code.view test.now) pos (term_view body.now))) found.old found.new) }
    ensures place { OnOk result (place.new ≡ place.old) }
    ensures state { state.new ≡ state.old }
{
    pz_rules::laws::evaluations_are_computed();
    match ask_test(alloc, here, state, frame, pos, test)? {
        Ok(true) => walk_child(alloc, here, state, frame, body, 0, place, found),
        Ok(false) => Ok(()),
        Err(trouble) => note_trouble(found, place, trouble),
    }
}

/// Lists what the active parts of the term of a process can do, send and receive, what is left of
/// active delays, and what is wrong with what they are asked. Time is linear in the active parts and in
/// the evaluations that they ask for. The state stays as it is, always, and the only error is want of
/// memory.
pub fn walk(
    alloc: Global,
    here: &Standpoint<'_>,
    state: &mut State,
    term: &Term,
) -> Result<Found, AllocError>
    requires { AreKnown here.now.classes.now }
    ensures walked { (m : ModelTree) (class : ℕ) → Knows m here.now →
        IfOk result (IsWalked (seen_from m here.now class state.old.held) (term_view term.now)) }
    ensures state { state.new ≡ state.old }
{
    let mut found = Found::new(alloc);
    let mut place = Place::root(alloc);
    // A process stands in no frame.
    walk_part(alloc, here, state, FrameId(0), term, &mut place, &mut found)?;
    Ok(found)
}
