// Variables that are declared together: their names and their types.

ghost use Rattle.std.specs.Prelude.{◌≡◌, []};
ghost use Rattle.std.specs.Option.{unwrap_or};
ghost use Rattle.pz_classes_mentions.specs.Declarations.{named_types, types};
ghost use Rattle.pz_classes_mentions.specs.Words.{told};

use crate::{Listener, Word};
use pz_syntax::pz_items::Items;
use pz_syntax::{Id, VarGroup};

/// None where the section is not written.
pub(crate) fn section(groups: &Option<Items<VarGroup>>) -> &[VarGroup]
    ensures { result.now ≡ unwrap_or groups.now [] }
{
    match groups {
        None => &[],
        Some(groups) => groups.as_slice(),
    }
}

/// The types of these variables.
#[tactic(auto, using(crate::proofs::Told::told_append))]
pub(crate) fn tell_types<L: Listener>(
    listener: &L,
    heard: L::Heard,
    groups: &[VarGroup],
) -> L::Heard
    requires { L.listens listener.now }
    ensures { result ≡ told (L.after listener.now) heard (types groups.now) }
{
    let mut heard = heard;
    for group in groups {
        heard = listener.hear(heard, Word::Typed(&group.kind));
    }
    heard
}

/// Types that are named one by one.
#[tactic(auto, using(crate::proofs::Told::told_append))]
pub(crate) fn tell_named_types<L: Listener>(listener: &L, heard: L::Heard, kinds: &[Id]) -> L::Heard
    requires { L.listens listener.now }
    ensures { result ≡ told (L.after listener.now) heard (named_types kinds.now) }
{
    let mut heard = heard;
    for kind in kinds {
        heard = listener.hear(heard, Word::Typed(kind));
    }
    heard
}
