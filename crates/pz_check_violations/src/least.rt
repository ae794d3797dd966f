ghost use Rattle.std.specs.Prelude.{◌≡◌};
ghost use Rattle.pz_check_violations.specs.Order as order;
ghost use Rattle.pz_check_violations.specs.Least as list;

use crate::Violation;
use pz_syntax::Pos;

/// Whether the first place comes before the second, by line and then by column.
pub fn pos_before(a: Pos, b: Pos) -> bool
    ensures { result ≡ order.pos_before a b }
{
    a.line < b.line || (a.line == b.line && a.column < b.column)
}

fn is_before(a: Violation, b: Violation) -> bool
    ensures { result ≡ order.is_before a b }
{
    pos_before(a.pos, b.pos) || (a.pos == b.pos && a.rule < b.rule)
}

/// The one before the other; what was found first where neither is.
pub fn lesser(least: Option<Violation>, found: Violation) -> Option<Violation>
    ensures { result ≡ list.lesser least found }
{
    match least {
        None => Some(found),
        Some(least) => {
            if is_before(found, least) {
                Some(found)
            } else {
                Some(least)
            }
        }
    }
}

/// The one before the other of what two searches found; that of the first where neither is.
pub fn sooner(first: Option<Violation>, second: Option<Violation>) -> Option<Violation>
    ensures { result ≡ list.sooner first second }
{
    match second {
        None => first,
        Some(found) => lesser(first, found),
    }
}
