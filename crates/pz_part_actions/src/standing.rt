ghost use Rattle.std.specs.Prelude.{◌≡◌};
ghost use Rattle.pz_part_actions.specs.Homes.{standing_at};

use pz_part_queries::Standpoint;
use pz_rules::Limits;
use pz_term_around::pz_part_opening::Home;

/// The standpoint of a process at home: the same, under the edition there.
pub fn at_home<'a>(here: &Standpoint<'a>, home: &Home<'_>) -> Standpoint<'a>
    ensures { result ≡ standing_at here.now home.now }
{
    Standpoint {
        limits: Limits {
            edition: home.edition,
            ..here.limits
        },
        ..*here
    }
}
