ghost use Rattle.std.specs.Prelude.{◌≡◌, IfOk};
ghost use Rattle.pz_classes.specs.pz_classes_rules.Words.{is_among};
ghost use Rattle.pz_check_names.specs.devices.Scopes.{HasLocals};

use crate::names::{has_name, scope_of};
use pz_check_scopes::Nested;
use pz_classes_code::pz_syntax::Name;
use pz_classes_mentions::Part;
use std::alloc::{AllocError, Global};

/// A part of a class, and its local names in one scope.
#[derive(Drop)]
pub(crate) struct Stretch<'a> {
    pub(crate) part: &'a Part<'a>,
    pub(crate) locals: Nested<&'a [u8], ()>,
}

impl Stretch<'_> {
    /// Whether the name is that of a local of the part.
    pub(crate) fn has_local(&self, name: &Name) -> bool
        requires { HasLocals self.now }
        ensures { result ≡ is_among self.now.part.now.locals name.now }
    {
        has_name(&self.locals, name)
    }
}

/// The only error is want of memory.
pub(crate) fn stretch_of<'a>(alloc: Global, part: &'a Part<'a>) -> Result<Stretch<'a>, AllocError>
    ensures locals { IfOk result HasLocals }
    ensures part { IfOk result (λ s. s.part.now ≡ part.now) }
{
    let locals = scope_of(alloc, part.locals())?;
    Ok(Stretch { part, locals })
}
