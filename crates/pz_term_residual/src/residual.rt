//! How high a term becomes, before anything is changed.

ghost use Rattle.std.specs.Prelude.{◌≡◌, ◌∷◌, ℕ, nat_le};
ghost use Rattle.pz_rules.specs.pz_state.States.{StateView};
ghost use Rattle.pz_classes_code.specs.StepView.{view};
ghost use Rattle.pz_rules.specs.Terms as terms;
ghost use Rattle.pz_rules.specs.Terms.{height};
ghost use Rattle.pz_rules.specs.View.{term_view, terms_view};
ghost use Rattle.pz_rules.specs.Places.{MayAct};
ghost use Rattle.pz_rules.specs.Settings.{left_by};
ghost use Rattle.pz_rules.specs.Leaving.{residual};
ghost use Rattle.pz_term_around.specs.pz_part_opening.Homes.{home_view};
ghost use Rattle.pz_term_outlines.specs.Outlines.{IsLeft};

use pz_classes_code::Step;
use pz_rules::Term;
use pz_term_around::pz_part_opening::Home;
use pz_term_outlines::{
    Outline, height_of, outline_first, outline_frame, outline_of, outline_parallel, outline_second,
    outline_sequence,
};

/// Of a term once its part at the place has become one of this outline. A part at the place may act.
#[cycle(outlines)]
fn outline_after(home: &Home<'_>, term: &Term, place: &[usize], part: Outline) -> Outline
    requires { MayAct (term_view term.now) place.now }
    ensures { IsLeft (home_view home.now) part (term_view term.now) place.now result }
{
    match place.split_first() {
        None => part,
        Some((child, inner)) => outline_inside(home, term, *child, inner, part),
    }
}

// The same, for a place in a child of the term.
#[cycle(outlines)]
fn outline_inside(
    home: &Home<'_>,
    term: &Term,
    child: usize,
    inner: &[usize],
    part: Outline,
) -> Outline
    requires { MayAct (term_view term.now) (child ∷ inner.now) }
    ensures { IsLeft (home_view home.now) part (term_view term.now) (child ∷ inner.now) result }
{
    match term {
        Term::Done => unreachable!(),
        Term::Leaf(_) => unreachable!(),
        Term::Wait { .. } => unreachable!(),
        Term::Seq(first, rest) => {
            outline_sequence(home, outline_after(home, first.get(), inner, part), rest)
        }
        Term::Par(parts) => outline_among(home, parts.as_slice(), child, inner, part),
        Term::Sel(parts) => outline_after(home, &parts.as_slice()[child], inner, part),
        Term::Guard { body, .. } => outline_after(home, body.get(), inner, part),
        Term::Frame { results, body, .. } => {
            outline_frame(results, outline_after(home, body.get(), inner, part))
        }
        Term::Abort(first, second) => {
            outline_abort(home, first.get(), second.get(), child, inner, part)
        }
        Term::Idle(first, second, again) => {
            outline_idle(
                home,
                first.get(),
                second.get(),
                again.get(),
                child,
                inner,
                part,
            )
        }
        // What is interrupted stands still.
        Term::Handling(first, second, again) => {
            outline_second(
                home,
                height_of(first.get()),
                outline_after(home, second.get(), inner, part),
                again.get(),
            )
        }
    }
}

// Of parts side by side.
#[cycle(outlines)]
fn outline_among(
    home: &Home<'_>,
    parts: &[Term],
    child: usize,
    inner: &[usize],
    part: Outline,
) -> Outline
    requires { MayAct (terms.parallel (terms_view parts.now)) (child ∷ inner.now) }
    ensures { IsLeft (home_view home.now) part (terms.parallel (terms_view parts.now))
        (child ∷ inner.now) result }
{
    let (before, from) = parts.split_at(child);
    let Some((acting, behind)) = from.split_first() else {
        unreachable!()
    };
    outline_parallel(before, outline_after(home, acting, inner, part), behind)
}

// Once the second part acts, it is all that is left.
#[cycle(outlines)]
fn outline_abort(
    home: &Home<'_>,
    first: &Term,
    second: &Term,
    child: usize,
    inner: &[usize],
    part: Outline,
) -> Outline
    requires { MayAct (terms.abort (term_view first.now) (term_view second.now))
        (child ∷ inner.now) }
    ensures { IsLeft (home_view home.now) part
        (terms.abort (term_view first.now) (term_view second.now)) (child ∷ inner.now) result }
{
    if child == 0 {
        return outline_first(outline_after(home, first, inner, part), height_of(second));
    }
    outline_after(home, second, inner, part)
}

// Once the second part acts, the first is interrupted.
#[cycle(outlines)]
fn outline_idle(
    home: &Home<'_>,
    first: &Term,
    second: &Term,
    again: &Step,
    child: usize,
    inner: &[usize],
    part: Outline,
) -> Outline
    requires { MayAct (terms.idle (term_view first.now) (term_view second.now) (view again.now))
        (child ∷ inner.now) }
    ensures { IsLeft (home_view home.now) part
        (terms.idle (term_view first.now) (term_view second.now) (view again.now))
        (child ∷ inner.now) result }
{
    if child == 0 {
        return outline_first(outline_after(home, first, inner, part), height_of(second));
    }
    outline_second(
        home,
        height_of(first),
        outline_after(home, second, inner, part),
        again,
    )
}

/// Whether a term will be no higher than the limit once its part at the place has become this one.
/// Takes no memory, and time linear in the term.
///
/// A part at the place may act.
pub fn stays_low(home: &Home<'_>, term: &Term, place: &[usize], part: &Term, limit: u32) -> bool
    requires { MayAct (term_view term.now) place.now }
    ensures { (f : ℕ) (s : StateView) → result ≡ nat_le
        (height (residual (home_view home.now) f (term_view term.now) place.now
        (left_by s (term_view part.now))).term) limit }
{
    outline_after(home, term, place, outline_of(part)).height <= u64::from(limit)
}
