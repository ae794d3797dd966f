//! What parts are asked. The state stays as it is, always, and the only error is want of memory.

ghost use Rattle.std.specs.Prelude.{◌≡◌, ◌<◌, ◌^◌, ℕ, [], All, IfOk};
ghost use Rattle.pz_classes_code.specs.pz_syntax.Classes.{ModelTree};
ghost use Rattle.pz_classes_code.specs.CodeView.{view, part_view};
ghost use Rattle.pz_rules.specs.Evaluations as evaluations;
ghost use Rattle.pz_rules.specs.Evaluations.{Tests, Lasts};
ghost use Rattle.pz_rules.specs.Meanings as meanings;
ghost use Rattle.pz_eval.specs.Known.{AreKnown};
ghost use Rattle.pz_part_queries.specs.Standpoints.{Knows, seen_from};
ghost use Rattle.pz_part_queries.specs.Parcels.{Packs};
ghost use Rattle.pz_part_queries.specs.devices.Outcomes as outcomes;

use crate::meanings::{duration, tested, value_or_trouble};
use crate::standpoint::Standpoint;
use pz_classes_code::Code;
use pz_classes_code::pz_items::{Items, Shared};
use pz_classes_code::pz_syntax::Pos;
use pz_eval::{Allowance, Outcome, Parceled, try_eval, try_parcel};
use pz_rules::Limits;
use pz_rules::pz_copy::{Parcel, pack};
use pz_rules::pz_offer::Trouble;
use pz_rules::pz_state::{FrameId, State};
use std::alloc::{AllocError, Global};

/// What one evaluation may take.
pub fn allowance(limits: Limits) -> Allowance
    ensures { result ≡ evaluations.allowance limits }
{
    Allowance {
        units: limits.units,
        depth: limits.depth,
    }
}

fn duration_of(process: u32, pos: Pos, outcome: Outcome) -> Result<u128, Trouble>
    ensures means { result ≡ meanings.and_then (evaluations.value_or_trouble process pos outcome)
        (meanings.duration process pos) }
    ensures short { IfOk result (λ time. time < 2 ^ 63) }
{
    duration(process, pos, value_or_trouble(process, pos, outcome)?)
}

/// Whether a test of the statement at this place is true, or the trouble of it.
pub fn ask_test(
    alloc: Global,
    here: &Standpoint<'_>,
    state: &mut State,
    frame: FrameId,
    pos: Pos,
    test: &Shared<Code>,
) -> Result<Result<bool, Trouble>, AllocError>
    requires { AreKnown here.now.classes.now }
    ensures tests { (m : ModelTree) (class : ℕ) → Knows m here.now →
        IfOk result (Tests (seen_from m here.now class state.old.held) frame.0 pos
        (view test.now)) }
    ensures state { state.new ≡ state.old }
{
    let allowed = allowance(here.limits);
    let outcome = try_eval(
        alloc,
        here.classes,
        state,
        frame,
        here.clock,
        test.get(),
        allowed,
    )?;
    Ok(tested(here.process, pos, outcome))
}

/// The time that the delay at this place takes, in clock units, or the trouble of it. An Integer of the program has
/// 64 bits, so the time is below 2^63.
pub fn ask_time(
    alloc: Global,
    here: &Standpoint<'_>,
    state: &mut State,
    frame: FrameId,
    pos: Pos,
    time: &Code,
) -> Result<Result<u128, Trouble>, AllocError>
    requires { AreKnown here.now.classes.now }
    ensures lasts { (m : ModelTree) (class : ℕ) → Knows m here.now →
        IfOk result (Lasts (seen_from m here.now class state.old.held) frame.0 pos
        (view time.now)) }
    ensures short { IfOk result (λ answer. IfOk answer (λ time. time < 2 ^ 63)) }
    ensures state { state.new ≡ state.old }
{
    let allowed = allowance(here.limits);
    let outcome = try_eval(alloc, here.classes, state, frame, here.clock, time, allowed)?;
    Ok(duration_of(here.process, pos, outcome))
}

fn parcel_or_trouble(process: u32, pos: Pos, parceled: Parceled) -> Result<Parcel, Trouble>
    ensures { result ≡ outcomes.parcel_or_trouble process pos parceled }
{
    match parceled {
        Parceled::Parcel(parcel) => Ok(parcel),
        Parceled::Fault(kind, place) => Err(Trouble::Fault {
            kind,
            process,
            pos: place,
        }),
        Parceled::Spent => Err(Trouble::Spent { process, pos }),
    }
}

/// The parcel of the values that the arguments of the send at this place have, or the trouble of them.
pub fn ask_parcel(
    alloc: Global,
    here: &Standpoint<'_>,
    state: &mut State,
    frame: FrameId,
    pos: Pos,
    args: &Option<Shared<Items<Code>>>,
) -> Result<Result<Parcel, Trouble>, AllocError>
    requires { AreKnown here.now.classes.now }
    ensures packs { (m : ModelTree) (class : ℕ) → Knows m here.now →
        IfOk result (Packs (seen_from m here.now class state.old.held) frame.0 pos
        (part_view args.now)) }
    ensures state { state.new ≡ state.old }
{
    let Some(codes) = args else {
        return Ok(Ok(pack(alloc, state, &[])?));
    };
    let allowed = allowance(here.limits);
    let codes = codes.get().as_slice();
    let parceled = try_parcel(
        alloc,
        here.classes,
        state,
        frame,
        here.clock,
        codes,
        allowed,
    )?;
    Ok(parcel_or_trouble(here.process, pos, parceled))
}
