// Heights of terms, which stand still at the end of their type.

ghost use Rattle.std.specs.Prelude.{◌≡◌, ℕ, suc};
ghost use Rattle.pz_rules.specs.Terms.{height, greatest_height};
ghost use Rattle.pz_rules.specs.View.{term_view, terms_view};
ghost use Rattle.pz_term_outlines.specs.Capped.{capped};

use pz_rules::Term;

/// One more than the height of a part.
pub fn above(part: u64) -> u64
    ensures { (n : ℕ) → part ≡ capped n → result ≡ capped (suc n) }
{
    part.saturating_add(1)
}

/// The height of a term.
#[cycle(heights)]
pub fn height_of(term: &Term) -> u64
    ensures { result ≡ capped (height (term_view term.now)) }
{
    match term {
        Term::Done => 1,
        Term::Leaf(_) => 1,
        Term::Wait { .. } => 1,
        Term::Seq(first, _) => above(height_of(first.get())),
        Term::Par(parts) => above(greatest_of(parts.as_slice())),
        Term::Sel(parts) => above(greatest_of(parts.as_slice())),
        Term::Guard { body, .. } => above(height_of(body.get())),
        Term::Frame { body, .. } => above(height_of(body.get())),
        Term::Abort(first, second) => above(height_of(first.get()).max(height_of(second.get()))),
        Term::Idle(first, second, _) => above(height_of(first.get()).max(height_of(second.get()))),
        Term::Handling(first, second, _) => {
            above(height_of(first.get()).max(height_of(second.get())))
        }
    }
}

/// The greatest of these terms' heights, 0 where there is none.
#[cycle(heights)]
pub fn greatest_of(parts: &[Term]) -> u64
    ensures { result ≡ capped (greatest_height (terms_view parts.now)) }
{
    let mut greatest = 0;
    for part in parts {
        greatest = height_of(part).max(greatest);
    }
    greatest
}
