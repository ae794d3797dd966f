// Names that classes declare, each held against those of its ancestors.

ghost use Rattle.std.specs.Prelude.{◌≡◌, List, [], ◌∷◌, ◌++◌, None, map, IfOk, OnOk};
ghost use Rattle.pz_classes.specs.pz_syntax.declared.names.Id.{Id};
ghost use Rattle.pz_check_violations.specs.Least.{least_from};
ghost use Rattle.pz_check_duplicates.specs.devices.Names.{id_of};
ghost use Rattle.pz_check_duplicates.specs.devices.Again.{later_of};
ghost use Rattle.pz_check_duplicates.specs.devices.Inheriting.{earliest, found_in};
ghost use Rattle.pz_check_duplicates.specs.devices.Knowing.{spread, Knows};

use crate::again::least_later;
use crate::places::{Thing, earlier_place};
use pz_check_scopes::Nested;
use pz_check_violations::Violation;
use pz_classes::pz_syntax::Pos;
use std::alloc::AllocError;

/// Notes the earliest place of a name, and gives the least of what was found before and the later
/// place, where the name stands at two. The only error is want of memory.
fn declare<'a>(
    known: &mut Nested<&'a [u8], Pos>,
    name: &Thing<&'a [u8]>,
    before: Option<Violation>,
) -> Result<Option<Violation>, AllocError>
    ensures known { (own : List Id) (outer : List (List Id)) → Knows (own ∷ outer) known.old →
        OnOk result (Knows ((own ++ (id_of name.now ∷ [])) ∷ outer) known.new) }
    ensures found { (names : List (List Id)) → Knows names known.old →
        IfOk result (λ least. least ≡ least_from before
        (later_of 4 (earliest None name.now.key.now (spread names)) name.now.place)) }
{
    let first = known.get(name.key);
    known.note(name.key, earlier_place(first, name.place))?;
    Ok(least_later(4, first, name.place, before))
}

/// The same for each of these names.
pub(crate) fn declare_all<'a>(
    known: &mut Nested<&'a [u8], Pos>,
    names: &[Thing<&'a [u8]>],
    before: Option<Violation>,
) -> Result<Option<Violation>, AllocError>
    ensures known { (own : List Id) (outer : List (List Id)) → Knows (own ∷ outer) known.old →
        OnOk result (Knows ((own ++ map id_of names.now) ∷ outer) known.new) }
    ensures found { (own : List Id) (outer : List (List Id)) → Knows (own ∷ outer) known.old →
        IfOk result (λ least. least ≡ least_from before
        (found_in (spread (own ∷ outer)) (map id_of names.now))) }
{
    let mut least = before;
    for name in names {
        least = declare(known, name, least)?;
    }
    Ok(least)
}
