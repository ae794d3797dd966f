//! What a send leaves of the part that it is. The only error is want of memory.

ghost use Rattle.std.specs.Prelude.{◌≡◌, ℕ, List, IfOk, OnOk};
ghost use Rattle.pz_classes_code.specs.pz_syntax.Classes.{ModelTree};
ghost use Rattle.pz_classes_code.specs.pz_syntax.declared.tokens.Pos.{Pos as Position};
ghost use Rattle.pz_classes_code.specs.CodeView.{part_view};
ghost use Rattle.pz_rules.specs.pz_copy.Parcels.{ParcelView};
ghost use Rattle.pz_rules.specs.Messages.{Sends, Hands};
ghost use Rattle.pz_rules.specs.View.{term_view};
ghost use Rattle.pz_part_queries.specs.pz_eval.Known.{AreKnown};
ghost use Rattle.pz_part_queries.specs.Standpoints.{Knows, seen_from};
ghost use Rattle.pz_rules.specs.Acting.{IsSend};
ghost use Rattle.pz_part_actions.specs.Becoming.{done_left};
ghost use Rattle.pz_part_actions.specs.devices.Effects.{RunsBoth};

use crate::evaluating::run_part;
use pz_classes_code::pz_items::{Items, Shared};
use pz_classes_code::pz_syntax::Pos;
use pz_classes_code::{Code, StepForm};
use pz_part_queries::Standpoint;
use pz_rules::Term;
use pz_rules::pz_offer::Trouble;
use pz_rules::pz_state::{FrameId, State};
use std::alloc::{AllocError, Global};

/// The arguments and then the block.
fn hand_over(
    alloc: Global,
    here: &Standpoint<'_>,
    state: &mut State,
    frame: FrameId,
    pos: Pos,
    args: &Option<Shared<Items<Code>>>,
    block: &Option<Shared<Items<Code>>>,
) -> Result<Result<(), Trouble>, AllocError>
    requires { AreKnown here.now.classes.now }
    ensures runs { (m : ModelTree) (class : ℕ) → Knows m here.now →
        IfOk result (λ end. RunsBoth (seen_from m here.now class state.old.held) frame.0 pos
        (part_view args.now) (part_view block.now) end state.new.held) }
    ensures marks { state.new.marks ≡ state.old.marks }
{
    match run_part(alloc, here, state, frame, pos, args)? {
        Ok(()) => run_part(alloc, here, state, frame, pos, block),
        Err(trouble) => Ok(Err(trouble)),
    }
}

/// What a send leaves of the part that it is: nothing, once its arguments and then its block are
/// evaluated. The values of the arguments are dropped: they are those of the parcel that the send
/// offers. Effects stay, and after a trouble some may: who calls marks the state before. The time
/// is that of the evaluations. The only error is want of memory.
pub fn hand(
    alloc: Global,
    here: &Standpoint<'_>,
    state: &mut State,
    frame: FrameId,
    part: &Term,
) -> Result<Result<(), Trouble>, AllocError>
    requires known { AreKnown here.now.classes.now }
    requires sends { IsSend (term_view part.now) }
    ensures hands { (m : ModelTree) (class : ℕ) (pos : Position) (port : ℕ) (message : List ℕ)
        (parcel : ParcelView) → Knows m here.now →
        Sends (seen_from m here.now class state.old.held) frame.0
        (term_view part.now) pos port message parcel →
        IfOk result (λ left. Hands (seen_from m here.now class state.old.held) frame.0 parcel
        (term_view part.now) pos (done_left state.new.held left)) }
    ensures marks { OnOk result (state.new.marks ≡ state.old.marks) }
{
    pz_rules::laws::evaluations_are_computed();
    let Term::Leaf(step) = part else {
        unreachable!();
    };
    match step.form.get() {
        StepForm::Send { args, block, .. } => {
            hand_over(alloc, here, state, frame, step.pos, args, block)
        }
        _ => unreachable!(),
    }
}
