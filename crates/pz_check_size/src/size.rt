// The rule C19: the expanded system is not too large.

ghost use Rattle.std.specs.Prelude.{◌≡◌, None, IfOk};
ghost use Rattle.pz_classes.specs.pz_syntax.ClassView.{model_view};
ghost use Rattle.pz_check_violations.specs.Least as least;
ghost use Rattle.pz_check_violations.specs.Least.{LeastOf};
ghost use Rattle.pz_classes.specs.pz_classes_rules.SizeRules.{BreaksC19, HasNoSize};
ghost use Rattle.pz_classes.specs.devices.Rows.{AreClasses};
ghost use Rattle.pz_check_size.specs.devices.Oversized as spec;

use crate::counting::all_totals;
use crate::nodes::nodes_of;
use crate::totals::{Totals, total_in};
use pz_check_violations::{Violation, lesser};
use pz_classes::Classes;
use pz_classes::pz_syntax::{Decl, Model};
use std::alloc::{AllocError, Global};

const TOO_LARGE: u8 = 19;

/// The rule at the earliest system whose totals are above a limit.
#[tactic(auto, using(pz_check_violations::proofs::Leasts::least_from_append))]
fn least_oversized(model: &Model, totals: &[Totals]) -> Option<Violation>
    ensures { result ≡ least.least_from None (spec.oversized_among totals.now 1
        (model_view model.now).decls) }
{
    let mut least = None;
    let mut number = 0usize;
    for decl in model.decls.as_slice() {
        number += 1;
        if let Decl::System(system) = decl {
            if total_in(totals, number).is_too_large() {
                least = lesser(
                    least,
                    Violation {
                        rule: TOO_LARGE,
                        pos: system.pos,
                    },
                );
            }
        }
    }
    least
}

/// The system, if it is too large once every cluster in it is replaced by what it holds: more than
/// 10,000 processes, 10,000 clusters or 1,000,000 channels. The only error is want of memory.
pub fn oversized(
    alloc: Global,
    model: &Model,
    classes: &Classes,
) -> Result<Option<Violation>, AllocError>
    requires classes { AreClasses (model_view model.now) classes.now }
    requires sized { HasNoSize (model_view model.now) → ⊥ }
    ensures { IfOk result (LeastOf (BreaksC19 (model_view model.now))) }
{
    let nodes = nodes_of(alloc, model, classes)?;
    let totals = all_totals(alloc, nodes.as_slice())?;
    Ok(least_oversized(model, totals.as_slice()))
}
