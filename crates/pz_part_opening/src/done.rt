// Whether anything is left of a term, and whether it is a frame without outputs.

ghost use Rattle.std.specs.Prelude.{◌≡◌};
ghost use Rattle.pz_part_opening.specs.Bare.{is_bare as bare};
ghost use Rattle.pz_rules.specs.Leaving as leaving;
ghost use Rattle.pz_rules.specs.View.{term_view, terms_view};

use pz_rules::Term;

/// Whether nothing is left.
pub fn is_done(term: &Term) -> bool
    ensures { result ≡ leaving.is_done (term_view term.now) }
{
    matches!(term, Term::Done)
}

/// Whether nothing is left of any of these.
pub fn all_done(parts: &[Term]) -> bool
    ensures { result ≡ leaving.all_done (terms_view parts.now) }
{
    for part in parts {
        if !is_done(part) {
            return false;
        }
    }
    true
}

/// Whether the term is a frame without outputs.
pub fn is_bare(term: &Term) -> bool
    ensures { result ≡ bare (term_view term.now) }
{
    match term {
        Term::Frame { results, .. } => results.get().as_slice().is_empty(),
        _ => false,
    }
}
