// The rule C20: there is one system.

ghost use Rattle.std.specs.Prelude.{◌≡◌, map, IfOk};
ghost use Rattle.pz_classes.specs.pz_syntax.ClassView.{model_view};
ghost use Rattle.pz_check_violations.specs.Least.{LeastOf};
ghost use Rattle.pz_classes.specs.pz_classes_rules.SizeRules.{BreaksC20, systems};
ghost use Rattle.pz_check_duplicates.specs.devices.Again.{thing_place};
ghost use Rattle.pz_check_duplicates.specs.devices.Systems.{system_place};

use crate::again::least_again;
use crate::places::{Alike, Thing};
use pz_check_violations::Violation;
use pz_classes::pz_items::Items;
use pz_classes::pz_syntax::{Decl, Model, Pos};
use std::alloc::{AllocError, Global};

const THE_SYSTEM: u8 = 20;

/// Where systems stand. The only error is want of memory.
fn system_things(alloc: Global, model: &Model) -> Result<Items<Thing<Alike>>, AllocError>
    ensures { IfOk result (λ things. map thing_place things ≡ map system_place
        (systems (model_view model.now))) }
{
    let mut things = Items::new(alloc);
    for decl in model.decls.as_slice() {
        if let Decl::System(system) = decl {
            things.push(Thing {
                key: Alike,
                place: system.pos,
            })?;
        }
    }
    Ok(things)
}

/// The least violation of the rule that there is one system, if there is one: it stands at a system
/// that does not come before another, or where the text starts if there is none. The only error is
/// want of memory.
pub fn least_system(alloc: Global, model: &Model) -> Result<Option<Violation>, AllocError>
    ensures { IfOk result (LeastOf (BreaksC20 (model_view model.now))) }
{
    let things = system_things(alloc, model)?;
    if things.is_empty() {
        return Ok(Some(Violation {
            rule: THE_SYSTEM,
            pos: Pos { line: 1, column: 1 },
        }));
    }
    least_again(alloc, THE_SYSTEM, things.as_slice(), None)
}
