// What matters of a term for the height of what is around it, form by form.

ghost use Rattle.std.specs.Prelude.{◌≡◌, [], ◌∷◌, ◌++◌, ◌&&◌, ℕ, length};
ghost use Rattle.pz_rules.specs.declared.term.Term.{Term as Part};
ghost use Rattle.pz_classes_code.specs.StepView.{view, sequence_view};
ghost use Rattle.pz_rules.specs.pz_state.States.{StateView};
ghost use Rattle.pz_rules.specs.Terms as terms;
ghost use Rattle.pz_rules.specs.Terms.{height};
ghost use Rattle.pz_rules.specs.Framing.{framed};
ghost use Rattle.pz_rules.specs.Leaving as leaving;
ghost use Rattle.pz_rules.specs.View.{term_view, terms_view};
ghost use Rattle.pz_rules.specs.Settings.{Home as RulesHome};
ghost use Rattle.pz_rules.specs.Opening.{opened, opened_all};
ghost use Rattle.pz_part_opening.specs.Homes.{home_view};
ghost use Rattle.pz_term_outlines.specs.Capped.{capped};
ghost use Rattle.pz_term_outlines.specs.Outlines.{outline, IsAbove, IsRound};

use crate::heights::{above, greatest_of, height_of};
use pz_classes_code::pz_items::{Items, Shared};
use pz_classes_code::{Slot, Step};
use pz_part_opening::{Home, all_done, is_bare, is_done, opens_bare, opens_done, step_within};
use pz_rules::{Rest, Term};

/// What matters of a term for the height of what is around it.
#[derive(Clone, Copy)]
pub struct Outline {
    /// The height, which stands still at the end of its type.
    pub height: u64,
    /// Whether nothing is left.
    pub done: bool,
    /// Whether it is a frame without outputs.
    pub bare: bool,
}

/// Of this term. Time is linear in it.
pub fn outline_of(term: &Term) -> Outline
    ensures { result ≡ outline (term_view term.now) }
{
    Outline {
        height: height_of(term),
        done: is_done(term),
        bare: is_bare(term),
    }
}

/// Of a term, neither done nor a frame without outputs, whose greatest part has this height.
pub fn outline_above(part: u64) -> Outline
    ensures { (t : terms.Term) (n : ℕ) → part ≡ capped n → IsAbove t n → result ≡ outline t }
{
    Outline {
        height: above(part),
        done: false,
        bare: false,
    }
}

/// Of what is done.
pub fn outline_done() -> Outline
    ensures { result ≡ outline terms.done }
{
    Outline {
        height: 1,
        done: true,
        bare: false,
    }
}

/// The height of what a statement opens as.
fn opened_height(home: &Home<'_>, step: &Step) -> u64
    ensures { (s : StateView) →
        result ≡ capped (height (opened (home_view home.now) (view step.now) s).term) }
{
    step_within(home, step, u64::MAX)
}

/// Of what a statement opens as.
fn outline_opened(home: &Home<'_>, step: &Step) -> Outline
    ensures { (s : StateView) →
        result ≡ outline (opened (home_view home.now) (view step.now) s).term }
{
    Outline {
        height: opened_height(home, step),
        done: opens_done(home, step),
        bare: opens_bare(home, step),
    }
}

/// Of what statements that wait open as.
fn outline_rest(home: &Home<'_>, rest: &Rest) -> Outline
    ensures { (s : StateView) →
        result ≡ outline (opened_all (home_view home.now) (sequence_view rest.now) s).term }
{
    let Some(first) = rest.first() else {
        return outline_done();
    };
    if rest.len() == 1 {
        return outline_opened(home, first);
    }
    outline_above(opened_height(home, first))
}

/// Of what is open, with statements behind it.
pub fn outline_sequence(home: &Home<'_>, left: Outline, rest: &Rest) -> Outline
    ensures { (t : terms.Term) (i : ℕ) → IsRound (home_view home.now) left
        (terms.sequence t (sequence_view rest.now)) i result }
{
    if left.done {
        outline_rest(home, rest)
    } else {
        outline_above(left.height)
    }
}

/// Whether nothing is left of parts side by side, of which one is done or not.
fn stand_done(before: &[Term], left: bool, behind: &[Term]) -> bool
    ensures { result ≡ (leaving.all_done (terms_view before.now) &&
        (left && leaving.all_done (terms_view behind.now))) }
{
    all_done(before) && left && all_done(behind)
}

/// Of parts side by side, of which one has become another.
pub fn outline_parallel(before: &[Term], left: Outline, behind: &[Term]) -> Outline
    ensures { (home : RulesHome) (t : Part) → IsRound home left
        (terms.parallel (terms_view (before.now ++ t ∷ behind.now))) (length before.now) result }
{
    if stand_done(before, left.done, behind) {
        return outline_done();
    }
    let others = left.height.max(greatest_of(behind));
    outline_above(greatest_of(before).max(others))
}

/// Of two parts, of which the first has become another and the second is so high; when the first is done, the
/// whole is.
pub fn outline_first(left: Outline, second: u64) -> Outline
    ensures abort { (home : RulesHome) (t u : terms.Term) → second ≡ capped (height u) →
        IsRound home left (terms.abort t u) 0 result }
    ensures idle { (home : RulesHome) (t u : terms.Term) (again : terms.Step) →
        second ≡ capped (height u) → IsRound home left (terms.idle t u again) 0 result }
{
    if left.done {
        return left;
    }
    outline_above(left.height.max(second))
}

/// Of what is interrupted and is so high, whose second part has become another.
pub fn outline_second(home: &Home<'_>, first: u64, left: Outline, again: &Step) -> Outline
    ensures { (t : terms.Term) (s : StateView) (x : terms.Term) → first ≡ capped (height t) →
        left ≡ outline x →
        result ≡ outline (leaving.handled (home_view home.now) s t (view again.now) x).term }
{
    if left.done {
        return outline_above(first.max(opened_height(home, again)));
    }
    outline_above(first.max(left.height))
}

/// Of a frame without outputs whose body has become another, where a frame without outputs that is
/// all of it stands in its place.
fn outline_bare(left: Outline) -> Outline
    ensures { (x : terms.Term) (number inputs : ℕ) → left ≡ outline x →
        result ≡ outline (framed number inputs [] x) }
{
    if left.bare {
        return left;
    }
    Outline {
        height: above(left.height),
        done: false,
        bare: true,
    }
}

/// Of a frame whose body has become another.
pub fn outline_frame(results: &Shared<Items<Slot>>, left: Outline) -> Outline
    ensures { (home : RulesHome) (number inputs : ℕ) (t : terms.Term) (i : ℕ) →
        IsRound home left (terms.frame number inputs results.now t) i result }
{
    if left.done {
        return left;
    }
    if results.get().as_slice().is_empty() {
        return outline_bare(left);
    }
    outline_above(left.height)
}
