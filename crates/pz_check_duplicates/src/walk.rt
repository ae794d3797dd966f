// Names that repeat one another among a class and its ancestors: all classes in one walk.

ghost use Rattle.std.specs.Prelude.{◌≡◌, List, ◌∷◌, IfOk, OnOk};
ghost use Rattle.pz_classes.specs.pz_syntax.declared.names.Id.{Id};
ghost use Rattle.pz_classes.specs.pz_syntax.ClassView.{model_view};
ghost use Rattle.pz_check_violations.specs.Least.{least_from};
ghost use Rattle.pz_classes.specs.pz_classes_rules.Preorder.{IsPreorderOf};
ghost use Rattle.pz_check_duplicates.specs.devices.Inheriting.{found_in};
ghost use Rattle.pz_check_duplicates.specs.devices.Knowing.{spread, Knows};
ghost use Rattle.pz_check_duplicates.specs.devices.RepeatList.{own_at, of_visits};

use crate::declaring::declare_all;
use crate::inherited::{Inherited, own_names};
use pz_check_scopes::Nested;
use pz_check_violations::Violation;
use pz_classes::pz_syntax::{Model, Pos};
use pz_classes_lineage::Visit;
use std::alloc::{AllocError, Global};

/// Goes into a class: the least of what was found before and the repeats of its own names.
fn enter<'a>(
    alloc: Global,
    model: &'a Model,
    class: u32,
    sort: Inherited,
    known: &mut Nested<&'a [u8], Pos>,
    before: Option<Violation>,
) -> Result<Option<Violation>, AllocError>
    ensures known { (outer : List (List Id)) → Knows outer known.old →
        OnOk result (Knows (own_at sort (model_view model.now) class ∷ outer) known.new) }
    ensures found { (outer : List (List Id)) → Knows outer known.old →
        IfOk result (λ least. least ≡ least_from before
        (found_in (spread outer) (own_at sort (model_view model.now) class))) }
{
    let names = own_names(alloc, model, class, sort)?;
    known.open()?;
    declare_all(known, names.as_slice(), before)
}

/// The least of what was found before and the names of this sort that repeat one of the same class
/// or an ancestor. The only error is want of memory.
pub(crate) fn least_inherited(
    alloc: Global,
    model: &Model,
    visits: &[Visit],
    sort: Inherited,
    before: Option<Violation>,
) -> Result<Option<Violation>, AllocError>
    requires { IsPreorderOf (model_view model.now) visits.now }
    ensures { IfOk result (λ least. least ≡ least_from before
        (of_visits (model_view model.now) sort visits.now)) }
{
    let mut known = Nested::new(alloc);
    let mut least = before;
    for visit in visits {
        known.close_to(visit.depth);
        least = enter(alloc, model, visit.class, sort, &mut known, least)?;
    }
    Ok(least)
}
