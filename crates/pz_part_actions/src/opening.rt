// Statements that stand open. The only error is want of memory.

ghost use Rattle.std.specs.Prelude.{◌≡◌, ◌≤◌, IfOk};
ghost use Rattle.pz_classes_code.specs.StepView.{sequence_view};
ghost use Rattle.pz_rules.specs.Terms.{height};
ghost use Rattle.pz_rules.specs.Opening.{opened_all, opened_part};
ghost use Rattle.pz_rules.specs.View.{term_view};
ghost use Rattle.pz_term_around.specs.pz_part_opening.Homes.{home_view};
ghost use Rattle.pz_part_actions.specs.Becoming.{IsBuiltLow};
ghost use Rattle.pz_part_actions.specs.devices.Parts.{otherwise_view};
ghost use Rattle.pz_part_actions.specs.devices.Openings.{OpensAs};

use pz_classes_code::Step;
use pz_classes_code::pz_items::{Items, Shared};
use pz_classes_code::pz_syntax::Pos;
use pz_part_queries::Standpoint;
use pz_rules::Term;
use pz_rules::pz_offer::Trouble;
use pz_rules::pz_state::State;
use pz_term_around::pz_part_opening::{Home, open_all, stays_within};
use std::alloc::{AllocError, Global};

/// The term of statements in a sequence, unless it is higher than a term may be: that is known before
/// anything is built.
pub(crate) fn open_low(
    alloc: Global,
    here: &Standpoint<'_>,
    home: &Home<'_>,
    pos: Pos,
    steps: &Shared<Items<Step>>,
    state: &mut State,
) -> Result<Result<Term, Trouble>, AllocError>
    ensures opens { IfOk result (λ left. OpensAs here.now pos
        (opened_all (home_view home.now) (sequence_view steps.now) state.old.held) state.old
        state.new left) }
    ensures low { IfOk result (λ left. IfOk left
        (λ term. height (term_view term) ≤ here.now.limits.height)) }
    ensures marks { state.new.marks ≡ state.old.marks }
{
    let limit = u64::from(here.limits.height);
    if stays_within(home, steps.get().as_slice(), limit + 1) > limit {
        return Ok(Err(Trouble::High {
            process: here.process,
            pos,
        }));
    }
    Ok(Ok(open_all(alloc, home, steps, state)?))
}

/// The same of statements that may be left out.
pub(crate) fn open_part(
    alloc: Global,
    here: &Standpoint<'_>,
    home: &Home<'_>,
    pos: Pos,
    part: &Option<Shared<Items<Step>>>,
    state: &mut State,
) -> Result<Result<Term, Trouble>, AllocError>
    ensures opens { IfOk result (λ left. OpensAs here.now pos
        (opened_part (home_view home.now) (otherwise_view part.now) state.old.held) state.old
        state.new left) }
    ensures low { IfOk result (λ left. IsBuiltLow here.now left) }
    ensures marks { state.new.marks ≡ state.old.marks }
{
    match part {
        None => Ok(Ok(Term::Done)),
        Some(steps) => open_low(alloc, here, home, pos, steps, state),
    }
}
