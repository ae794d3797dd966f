// A part of a process that has acted, while all that it did can still be undone.

ghost use Rattle.std.specs.Prelude.{◌≡◌, MatchResult, OnOk};
ghost use Rattle.pz_rules.specs.pz_state.States.{StateView};
ghost use Rattle.pz_rules.specs.pz_state.Marks.{IsLatest, undone, kept};
ghost use Rattle.pz_rules.specs.Meanings.{and_then};
ghost use Rattle.pz_rules.specs.Leaving.{residual, swept};
ghost use Rattle.pz_rules.specs.Settings.{left_by};
ghost use Rattle.pz_rules.specs.View.{term_view};
ghost use Rattle.pz_term_processes.specs.pz_part_opening.Homes.{home_view};
ghost use Rattle.pz_rules.specs.Places.{MayAct};
ghost use Rattle.pz_rules.specs.Becoming.{Became};
ghost use Rattle.pz_term_processes.specs.pz_part_actions.Becoming.{process_left};
ghost use Rattle.pz_term_processes.specs.pz_part_actions.Homes.{seen_home};
ghost use Rattle.pz_term_steps.specs.devices.Deeds.{begun_process, settled_home};

use pz_classes_code::pz_syntax::Pos;
use pz_rules::Term;
use pz_rules::pz_offer::Trouble;
use pz_rules::pz_state::Savepoint;
use pz_term_processes::Process;
use pz_term_processes::pz_part_actions::pz_part_opening::Home;
use pz_term_processes::pz_part_actions::pz_part_queries::Standpoint;
use pz_term_residual::{settle, stays_low};
use std::alloc::{AllocError, Global};
use std::mem;

/// What a part has become by what it did, and the mark from before, which is open.
#[derive(Drop)]
pub(crate) struct Begun {
    pub(crate) point: Savepoint,
    pub(crate) part: Term,
}

/// What a part has done, unless it is a trouble or makes the term too high, which is a trouble at the
/// place of the statement: then all of it is undone. Takes no memory, and time linear in the term.
pub(crate) fn hold(
    here: &Standpoint<'_>,
    home: &Home<'_>,
    process: &mut Process,
    place: &[usize],
    point: Savepoint,
    pos: Pos,
    left: Result<Term, Trouble>,
) -> Result<Begun, Trouble>
    requires may_act { MayAct (term_view process.old.term) place.now }
    requires latest { IsLatest process.old.state point }
    ensures left { (s : StateView) →
        begun_process (home_view home.now) (term_view process.old.term) place.now
        process.old.state.held result ≡ and_then (process_left process.old.state.held left)
        (settled_home (home_view home.now) (seen_home here.now home.now s) pos
        (term_view process.old.term) place.now) }
    ensures state { MatchResult result (λ begun. (process.new.state ≡ process.old.state)
        × (begun.point ≡ point)) (λ trouble. process.new.state ≡ undone process.old.state) }
    ensures term { process.new.term ≡ process.old.term }
{
    let part = match left {
        Ok(part) => part,
        Err(trouble) => {
            process.state.undo_to(point);
            return Err(trouble);
        }
    };
    if stays_low(home, &process.term, place, &part, here.limits.height) {
        return Ok(Begun { point, part });
    }
    process.state.undo_to(point);
    Err(Trouble::High {
        process: here.process,
        pos,
    })
}

/// Undoes all that a part did. Takes no memory.
pub(crate) fn withdraw(process: &mut Process, begun: Begun)
    requires { IsLatest process.old.state begun.point }
    ensures state { process.new.state ≡ undone process.old.state }
    ensures term { process.new.term ≡ process.old.term }
{
    process.state.undo_to(begun.point);
}

/// What a part did stays, and the term becomes what is left of it. The only error is want of memory.
pub(crate) fn finish(
    alloc: Global,
    home: &Home<'_>,
    process: &mut Process,
    place: &[usize],
    begun: Begun,
) -> Result<(), AllocError>
    requires may_act { MayAct (term_view process.old.term) place.now }
    requires latest { IsLatest process.old.state begun.point }
    ensures { OnOk result (Became (swept (residual (home_view home.now) 0
        (term_view process.old.term) place.now (left_by process.old.state.held
        (term_view begun.part)))) (term_view process.new.term) (kept process.old.state)
        process.new.state) }
{
    let Begun { point, part } = begun;
    process.state.keep(point);
    let term = mem::replace(&mut process.term, Term::Done);
    process.term = settle(alloc, home, term, place, part, &mut process.state)?;
    Ok(())
}
