// The numbers of classes by their names, and who extends whom.

ghost use Rattle.std.specs.Prelude.{◌≡◌, ◌<◌, ◌+◌, ◌^◌, List, ℕ, length, IfOk};
ghost use Rattle.pz_classes_code.specs.pz_syntax.ClassView.{decl_view, model_view};
ghost use Rattle.pz_classes_rules.specs.Numbers.{class};
ghost use Rattle.pz_classes_rules.specs.Ancestors.{parent, parent_of};
ghost use Rattle.pz_classes_code.specs.NumberIn.{number_in};
ghost use Rattle.pz_classes_lineage.specs.Parents.{parent_in};

use crate::declarations::{declared_name, extended};
use pz_classes_code::pz_syntax::{Decl, Model};
use pz_classes_code::{Numbering, is_primitive, is_unsupported};
use std::alloc::{AllocError, Global};

/// The number of each class by its name, from 1 in the order of the text; the first declaration of
/// a name counts. The only error is want of memory.
pub(crate) fn number_classes(alloc: Global, model: &Model) -> Result<Numbering, AllocError>
    requires { length model.now.decls + 1 < 2 ^ 32 }
    ensures { IfOk result (λ n. (q : List ℕ) → number_in n q ≡ class (model_view model.now) q) }
{
    let mut numbering = Numbering::new(alloc);
    let mut number = 0u32;
    for decl in model.decls.as_slice() {
        number += 1;
        if let Some(id) = declared_name(decl) {
            numbering.add(alloc, &id.name, number)?;
        }
    }
    Ok(numbering)
}

/// The parent of the class that is declared.
fn parent_of_decl(model: &Model, numbering: &Numbering, decl: &Decl) -> Option<u32>
    requires { (q : List ℕ) → number_in numbering.now q ≡ class (model_view model.now) q }
    ensures { result ≡ parent_of (model_view model.now) (decl_view decl.now) }
{
    let id = extended(decl)?;
    if is_unsupported(&id.name) || is_primitive(&id.name) {
        return None;
    }
    numbering.get(id.name.as_str().as_bytes())
}

/// The parent of each class by its number; Array, with number 0, has none. The only error is want
/// of memory.
pub(crate) fn parents_of(
    alloc: Global,
    model: &Model,
    numbering: &Numbering,
) -> Result<Vec<Option<u32>>, AllocError>
    requires { (q : List ℕ) → number_in numbering.now q ≡ class (model_view model.now) q }
    ensures each { IfOk result (λ parents. (c : ℕ) →
        parent_in parents.items c ≡ parent (model_view model.now) c) }
    ensures counted { IfOk result (λ parents. length parents.items ≡ length model.now.decls + 1) }
{
    let mut parents = Vec::new(alloc);
    parents.push(None)?;
    for decl in model.decls.as_slice() {
        parents.push(parent_of_decl(model, numbering, decl))?;
    }
    Ok(parents)
}

pub(crate) fn parent_at(parents: &[Option<u32>], class: u32) -> Option<u32>
    ensures { result ≡ parent_in parents.now class }
{
    parents.get(class as usize).copied().flatten()
}
