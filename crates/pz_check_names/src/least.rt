// The least violation at a word.

ghost use Rattle.std.specs.Prelude.{◌≡◌, [], None, IfOk};
ghost use Rattle.pz_classes_code.specs.pz_syntax.ClassView.{model_view};
ghost use Rattle.pz_classes_code.specs.pz_syntax.ModelText.{HasFewMarks};
ghost use Rattle.pz_classes.specs.pz_classes_rules.Ancestors.{ancestors};
ghost use Rattle.pz_classes.specs.pz_classes_rules.Preorder.{Opens};
ghost use Rattle.pz_classes.specs.devices.Rows.{AreClasses};
ghost use Rattle.pz_classes.specs.pz_classes_rules.WordRules.{BreaksWord};
ghost use Rattle.pz_classes_lineage.specs.Preorder.{visited};
ghost use Rattle.pz_check_violations.specs.Least.{LeastOf, least_from};
ghost use Rattle.pz_check_names.specs.devices.Inherited.{IsOpen};
ghost use Rattle.pz_check_names.specs.devices.Scopes.{AreDeclared, IsScope, HasLocals, model_of, decl_of};
ghost use Rattle.pz_check_names.specs.devices.Misuses.{at_word, of_part, of_parts, of_number, misuses};

use crate::class_scope::ClassScope;
use crate::declared::Declared;
use crate::inherited::Inherited;
use crate::selectors::selectors_of;
use crate::stretch::{Stretch, stretch_of};
use crate::words::least_at_word;
use pz_check_violations::Violation;
use pz_classes::{Classes, Visit, declaration};
use pz_classes_code::pz_syntax::Model;
use pz_classes_code::pz_value::ClassId;
use pz_classes_mentions::{Listener, Part, Word, parts_of};
use std::alloc::{AllocError, Global};

/// Finds the least violation in a part of a class, as it is told the words.
#[derive(Drop)]
struct Finder<'a> {
    declared: &'a Declared<'a, 'a>,
    scope: &'a ClassScope<'a, 'a>,
    stretch: &'a Stretch<'a>,
}

impl Listener for Finder<'_> {
    type Heard = Option<Violation>;

    ghost listens = { λ f. AreDeclared f.declared.now × IsScope f.declared.now f.scope.now
        × HasLocals f.stretch.now };

    ghost after = { λ f least word. least_from least (at_word (model_of f.declared.now)
        f.scope.now.class.0 (decl_of f.scope.now) f.stretch.now.part.now.locals word) };

    fn hear(&self, heard: Option<Violation>, word: Word) -> Option<Violation> {
        least_at_word(self.declared, self.scope, self.stretch, word, heard)
    }
}

/// The least of what was found before and the violations in this part of a class. The only error is
/// want of memory.
fn least_of_part(
    alloc: Global,
    declared: &Declared,
    scope: &ClassScope,
    part: &Part,
    before: Option<Violation>,
) -> Result<Option<Violation>, AllocError>
    requires declares { AreDeclared declared.now }
    requires scoped { IsScope declared.now scope.now }
    ensures { IfOk result (λ least. least ≡ least_from before
        (of_part (model_of declared.now) scope.now.class.0 (decl_of scope.now) part.now)) }
{
    let stretch = stretch_of(alloc, part)?;
    let finder = Finder {
        declared,
        scope,
        stretch: &stretch,
    };
    Ok(part.tell(&finder, before))
}

/// The least of what was found before and the violations in these parts of a class. The only error
/// is want of memory.
fn least_of_parts(
    alloc: Global,
    declared: &Declared,
    scope: &ClassScope,
    parts: &[Part],
    before: Option<Violation>,
) -> Result<Option<Violation>, AllocError>
    requires declares { AreDeclared declared.now }
    requires scoped { IsScope declared.now scope.now }
    ensures { IfOk result (λ least. least ≡ least_from before
        (of_parts (model_of declared.now) scope.now.class.0 (decl_of scope.now) parts.now)) }
{
    let mut least = before;
    for part in parts {
        least = least_of_part(alloc, declared, scope, part, least)?;
    }
    Ok(least)
}

/// The least of what was found before and the violations in the class of this number. The only error
/// is want of memory.
fn least_of_class(
    alloc: Global,
    declared: &Declared,
    inherited: &Inherited,
    number: u32,
    before: Option<Violation>,
) -> Result<Option<Violation>, AllocError>
    requires declares { AreDeclared declared.now }
    requires opened { IsOpen (model_of declared.now)
        (ancestors (model_of declared.now) number) inherited.now }
    ensures { IfOk result (λ least. least ≡ least_from before
        (of_number (model_of declared.now) number)) }
{
    let Some(decl) = declaration(declared.model, number) else {
        return Ok(before);
    };
    let scope = ClassScope {
        class: ClassId(number),
        decl,
        inherited,
    };
    let parts = parts_of(alloc, decl)?;
    least_of_parts(alloc, declared, &scope, parts.as_slice(), before)
}

/// The least of the violations in these classes, to which a walk comes in turn. The only error is
/// want of memory.
fn least_of_visits(
    alloc: Global,
    declared: &Declared,
    visits: &[Visit],
) -> Result<Option<Violation>, AllocError>
    requires few { HasFewMarks (model_of declared.now) }
    requires declares { AreDeclared declared.now }
    requires opens { Opens (model_of declared.now) [] visits.now }
    ensures { IfOk result (λ least. least ≡ least_from None
        (misuses (model_of declared.now) (visited visits.now))) }
{
    let mut inherited = Inherited::new(alloc);
    let least = least_of_each(alloc, declared, visits, &mut inherited);
    std::mem::drop(inherited);
    least
}

/// As `least_of_visits`, where no class is open yet.
fn least_of_each<'a>(
    alloc: Global,
    declared: &Declared<'_, 'a>,
    visits: &[Visit],
    inherited: &mut Inherited<'a>,
) -> Result<Option<Violation>, AllocError>
    requires few { HasFewMarks (model_of declared.now) }
    requires declares { AreDeclared declared.now }
    requires opens { Opens (model_of declared.now) [] visits.now }
    requires empty { IsOpen (model_of declared.now) [] inherited.old }
    ensures { IfOk result (λ least. least ≡ least_from None
        (misuses (model_of declared.now) (visited visits.now))) }
{
    let mut least = None;
    for visit in visits {
        inherited.enter(declared.model, *visit)?;
        least = least_of_class(alloc, declared, inherited, visit.class, least)?;
    }
    Ok(least)
}

/// The least violation of the rules C5 to C13, C18, C21 and C22, which are broken at a word, if
/// there is one. The only error is want of memory.
pub fn least_misuse(
    alloc: Global,
    model: &Model,
    classes: &Classes,
) -> Result<Option<Violation>, AllocError>
    requires few { HasFewMarks (model_view model.now) }
    requires classes { AreClasses (model_view model.now) classes.now }
    ensures { IfOk result (LeastOf (BreaksWord (model_view model.now))) }
{
    let selectors = selectors_of(alloc, model)?;
    let declared = Declared {
        model,
        classes,
        selectors: &selectors,
    };
    least_of_visits(alloc, &declared, classes.preorder())
}
