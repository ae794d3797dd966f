// A part before and after it has acted.
ghost use Rattle.std.specs.Prelude.{◌≡◌};
ghost use Rattle.pz_classes_code.specs.pz_syntax.declared.tokens.Pos.{Pos as StatementPos};
ghost use Rattle.pz_rules.specs.pz_state.States.{StateView};
ghost use Rattle.pz_rules.specs.View.{term_view};
ghost use Rattle.pz_part_actions.specs.Becoming.{process_left, done_left};
ghost use Rattle.pz_part_actions.specs.StatementPlaces.{IsFrom};

use pz_classes_code::pz_syntax::Pos;
use pz_rules::Term;
use pz_rules::pz_offer::Trouble;

/// The place in the text of the statement that a part is. Takes no memory.
pub fn pos_of(part: &Term) -> Pos
    requires { (pos : StatementPos) × IsFrom pos (term_view part.now) }
    ensures { IsFrom result (term_view part.now) }
{
    match part {
        Term::Leaf(step) => step.pos,
        Term::Wait { pos, .. } => *pos,
        _ => unreachable!(),
    }
}

/// What a send or a receive becomes where it left this: nothing of it is left, but for a trouble.
pub fn done_by(left: Result<(), Trouble>) -> Result<Term, Trouble>
    ensures { (s : StateView) → process_left s result ≡ done_left s left }
{
    match left {
        Ok(()) => Ok(Term::Done),
        Err(trouble) => Err(trouble),
    }
}
