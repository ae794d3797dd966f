// Parts of terms by their places.

ghost use Rattle.std.specs.Prelude.{◌≡◌, ◌<◌};
ghost use Rattle.pz_rules.specs.Terms.{frame_in, first_or, term_at, count, child};
ghost use Rattle.pz_rules.specs.View.{term_view, terms_view};
ghost use Rattle.pz_rules.specs.Places.{MayActIn, MayAct};
ghost use Rattle.pz_part_queries.specs.Parts.{IsPartAt};

use pz_rules::Term;
use pz_rules::pz_state::FrameId;

/// The frame in which the children of a term stand that stands in this frame.
fn inner_frame(term: &Term, frame: FrameId) -> FrameId
    ensures { result.0 ≡ frame_in (term_view term.now) frame.0 }
{
    match term {
        Term::Frame { frame: own, .. } => *own,
        _ => frame,
    }
}

fn one_of<'a>(first: &'a Term, second: &'a Term, number: usize) -> &'a Term
    requires { number < 2 }
    ensures { term_view result.now ≡ first_or (term_view first.now) (term_view second.now) number }
{
    if number == 0 { first } else { second }
}

fn part_in(parts: &[Term], number: usize) -> &Term
    requires { number < count (terms_view parts.now) }
    ensures { term_view result.now ≡ term_at (terms_view parts.now) number }
{
    &parts[number]
}

/// The child of this number, which may act.
fn child_of(term: &Term, number: usize) -> &Term
    requires { MayActIn (term_view term.now) number }
    ensures { term_view result.now ≡ child (term_view term.now) number }
{
    match term {
        Term::Seq(first, _) => first.get(),
        Term::Par(parts) => part_in(parts.as_slice(), number),
        Term::Sel(parts) => part_in(parts.as_slice(), number),
        Term::Guard { body, .. } => body.get(),
        Term::Frame { body, .. } => body.get(),
        Term::Abort(first, second) => one_of(first.get(), second.get(), number),
        Term::Idle(first, second, _) => one_of(first.get(), second.get(), number),
        Term::Handling(_, second, _) => second.get(),
        Term::Done => unreachable!(),
        Term::Leaf(_) => unreachable!(),
        Term::Wait { .. } => unreachable!(),
    }
}

/// The part at a place, and the frame in which it stands, of a term that stands in this frame. A part
/// at the place may act. Takes no memory, and a step for each child on the way.
pub fn part_at<'a>(term: &'a Term, frame: FrameId, place: &[usize]) -> (FrameId, &'a Term)
    requires { MayAct (term_view term.now) place.now }
    ensures { IsPartAt frame.0 (term_view term.now) place.now result.0.0 (term_view result.1.now) }
{
    let mut inner = frame;
    let mut part = term;
    for number in place {
        inner = inner_frame(part, inner);
        part = child_of(part, *number);
    }
    (inner, part)
}
