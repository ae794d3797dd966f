// What an active part does, as far as it can still be undone: the mark from before is open, and at a trouble all is
// as it was. After want of memory, which is the only error, nothing is promised of the state.

ghost use Rattle.std.specs.Prelude.{◌≡◌, ◌≤◌, ◌+◌, ℕ, IfOk, OnOk, MatchResult};
ghost use Rattle.pz_part_actions.specs.pz_classes.CheckedView.{checked_model};
ghost use Rattle.pz_nodes.specs.Arena.{find};
ghost use Rattle.pz_part_actions.specs.Becoming.{process_left};
ghost use Rattle.pz_part_actions.specs.Fitting.{FitsHere};
ghost use Rattle.pz_part_actions.specs.pz_part_queries.Standpoints.{Knows};
ghost use Rattle.pz_rules.specs.Acting.{IsSend, IsReceive};
ghost use Rattle.pz_rules.specs.View.{term_view};
ghost use Rattle.pz_rules.specs.pz_state.Marks.{IsLatest, undone};
ghost use Rattle.pz_rules.specs.Short.{IsShort};
ghost use Rattle.pz_tree_regrowing.specs.Heights.{FewSteps};
ghost use Rattle.pz_tree_acting.specs.Acting.{MayBeDone, TrialSteps};
ghost use Rattle.pz_tree_acting.specs.devices.Begun.{ActsSo, IsHanded, IsTaken, DeedRule, IsBegun, Opens, HoldRule, BeginRule};

use crate::how::How;
use crate::parts::part_under;
use pz_classes_code::pz_syntax::Pos;
use pz_nodes::{Key, Nodes, Steps};
use pz_part_actions::pz_part_opening::Home;
use pz_part_actions::pz_part_queries::Standpoint;
use pz_part_actions::{at_home, done_by, hand, perform, pos_of, take};
use pz_rules::Term;
use pz_rules::pz_copy::Parcel;
use pz_rules::pz_offer::Trouble;
use pz_rules::pz_state::{FrameId, Savepoint, State};
use pz_tree_regrowing::pz_tree_nodes::{Node, Spot, part_at, pz_tree_standing};
use pz_tree_regrowing::{pz_tree_nodes, stays_low};
use std::alloc::{AllocError, Global};
use std::sync::ledger::Ledger;

/// What a part has become by what it did, and the mark from before, which is open.
#[derive(Drop)]
pub(crate) struct Begun {
    pub(crate) point: Savepoint,
    pub(crate) part: Term,
}

// A send hands over its parcel. Effects stay, and after a trouble some may.
fn do_send(
    alloc: Global,
    here: &Standpoint<'_>,
    home: &Home<'_>,
    state: &mut State,
    frame: FrameId,
    part: &Term,
) -> Result<Result<Term, Trouble>, AllocError>
    requires knows { Knows (checked_model home.now.checked.now) here.now }
    requires sends { IsSend (term_view part.now) }
    ensures answers { IfOk result (IsHanded here.now home.now state.old.held frame.0
        (term_view part.now)
        state.new.held) }
    ensures marks { OnOk result (state.new.marks ≡ state.old.marks) }
{
    let left = hand(alloc, &at_home(here, home), state, frame, part)?;
    Ok(done_by(left))
}

// A receive takes this parcel.
fn do_receive(
    alloc: Global,
    here: &Standpoint<'_>,
    home: &Home<'_>,
    state: &mut State,
    frame: FrameId,
    part: &Term,
    parcel: &Parcel,
) -> Result<Result<Term, Trouble>, AllocError>
    requires knows { Knows (checked_model home.now.checked.now) here.now }
    requires receives { IsReceive (term_view part.now) }
    ensures answers { IfOk result (IsTaken here.now home.now state.old.held frame.0
        (term_view part.now)
        parcel.now state.new.held) }
    ensures marks { OnOk result (state.new.marks ≡ state.old.marks) }
{
    let left = take(alloc, &at_home(here, home), state, frame, part, parcel)?;
    Ok(done_by(left))
}

// The deed of a part in its frame.
fn do_deed(
    alloc: Global,
    here: &Standpoint<'_>,
    home: &Home<'_>,
    how: How<'_>,
    state: &mut State,
    frame: FrameId,
    part: &Term,
) -> Result<Result<Term, Trouble>, AllocError>
    requires knows { Knows (checked_model home.now.checked.now) here.now }
    requires acts { ActsSo how (term_view part.now) }
    requires fits { ∥ FitsHere here.now home.now.class (term_view part.now) ∥₁ }
    ensures answers { IfOk result (λ left. DeedRule here.now home.now how.entry
        state.old.held frame.0
        (term_view part.now) (process_left state.new.held left)) }
    ensures marks { OnOk result (state.new.marks ≡ state.old.marks) }
{
    match how {
        How::Internal => perform(alloc, here, home, state, frame, part),
        How::Send => do_send(alloc, here, home, state, frame, part),
        How::Receive(parcel) => do_receive(alloc, here, home, state, frame, part, parcel),
    }
}

// What a part has done, unless it is a trouble or makes the term too high, which is a trouble at the place of the
// statement: then all of it is undone. Takes no memory.
fn hold<L: Ledger>(
    here: &Standpoint<'_>,
    home: &Home<'_>,
    nodes: &Nodes<Node>,
    root: Option<Key>,
    place: &[usize],
    point: Savepoint,
    pos: Pos,
    left: Result<Term, Trouble>,
    state: &mut State,
    steps: &mut Steps<L>,
) -> Result<Begun, Trouble>
    requires latest { IsLatest state.old point }
    ensures left { HoldRule here.now home.now (find nodes.now) root place.now pos
        state.old.held left result }
    ensures state { MatchResult result (λ begun. (state.new ≡ state.old) × (begun.point ≡ point))
        (λ trouble. state.new ≡ undone state.old) }
    ensures part { IfOk result (λ begun. left ≡ Ok begun.part) }
    ensures ticks { FewSteps (find nodes.now) root place.now steps.old steps.new }
{
    let part = match left {
        Ok(part) => part,
        Err(trouble) => {
            state.undo_to(point);
            return Err(trouble);
        }
    };
    if stays_low(home, nodes, root, place, &part, here.limits.height, steps) {
        return Ok(Begun { point, part });
    }
    state.undo_to(point);
    Err(Trouble::High {
        process: here.process,
        pos,
    })
}

/// The part at a place acts, and its mark is open. The nodes stay as they are.
pub(crate) fn begin<L: Ledger>(
    alloc: Global,
    here: &Standpoint<'_>,
    home: &Home<'_>,
    nodes: &Nodes<Node>,
    root: Option<Key>,
    place: &[usize],
    how: How<'_>,
    state: &mut State,
    steps: &mut Steps<L>,
) -> Result<Result<Begun, Trouble>, AllocError>
    requires knows { Knows (checked_model home.now.checked.now) here.now }
    requires can { ∥ MayBeDone here.now home.now how (find nodes.now) root state.old.held
        place.now ∥₁ }
    ensures leaves { IfOk result (λ begun. BeginRule here.now home.now how.entry (find nodes.now)
        root place.now
        state.old.held state.new.held begun) }
    ensures state { IfOk result (IsBegun state.old state.new) }
    ensures opens { IfOk result (Opens home.now.edition state.old.held state.new.held) }
    ensures short { IfOk result (λ begun. IfOk begun (λ b. IsShort (term_view b.part))) }
    ensures ticks { OnOk result (TrialSteps here.now home.now how.entry (find nodes.now)
        root place.now
        state.old.held steps.old steps.new) }
{
    pz_term_residual::laws::active_parts_may_act();
    pz_rules::laws::offered_parts_act();
    pz_rules::laws::active_parts_fit();
    pz_tree_nodes::laws::active_parts_are_at_their_places();
    pz_tree_nodes::laws::tended_nodes_stand();
    pz_tree_standing::laws::deeds_open_frames();
    let whole = Spot {
        key: root,
        frame: FrameId(0),
        clock: here.clock,
    };
    let spot = part_at(nodes, whole, place, steps);
    let part = part_under(nodes, spot, steps)?;
    let pos = pos_of(&part);
    let point = state.mark()?;
    let left = do_deed(alloc, here, home, how, state, spot.frame, &part)?;
    Ok(hold(
        here, home, nodes, root, place, point, pos, left, state, steps,
    ))
}
