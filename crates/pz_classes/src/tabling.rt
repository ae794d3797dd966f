// What is kept of the classes of a model.

ghost use Rattle.std.specs.Prelude.{◌≡◌, ◌<◌, ◌+◌, ◌-◌, ◌^◌, ℕ, List, length, map, IfOk};
ghost use Rattle.pz_classes_code.specs.pz_syntax.ClassView.{model_view};
ghost use Rattle.pz_classes_code.specs.pz_syntax.ModelText.{HasFewMarks};
ghost use Rattle.pz_classes_code.specs.NumberIn.{number_in};
ghost use Rattle.pz_classes_rules.specs.Numbers.{class as numbered};
ghost use Rattle.pz_classes_rules.specs.Ancestors.{ancestors, parent};
ghost use Rattle.pz_classes.specs.devices.Inherited.{HasMembers, AreMembers};
ghost use Rattle.pz_classes_rules.specs.Methods.{methods_before};
ghost use Rattle.pz_classes.specs.devices.MethodIn.{HasMethodsOf};
ghost use Rattle.pz_classes_lineage.specs.Parents.{parent_in};
ghost use Rattle.pz_classes_lineage.specs.Reached.{GoesRound};
ghost use Rattle.pz_classes.specs.devices.Surrounding.{Numbers};
ghost use Rattle.pz_classes.specs.devices.Rows.{row, rows, row_view};

use crate::ancestry::parent_at;
use crate::declarations::declaration;
use crate::entry::Entry;
use crate::front::Front;
use crate::method_index::Methods;
use crate::methods::methods_of;
use crate::starting::start_at;
use pz_classes_code::Numbering;
use pz_classes_code::pz_items::Items;
use pz_classes_code::pz_syntax::Model;
use std::alloc::{AllocError, Global};

/// The methods that the class of this number itself declares, of which the first has the number
/// `first`. The only error is want of memory.
fn methods_at(alloc: Global, model: &Model, class: u32, first: u32) -> Result<Methods, AllocError>
    requires few { HasFewMarks (model_view model.now) }
    requires counted { first ≡ methods_before (model_view model.now) class }
    ensures { IfOk result (HasMethodsOf (model_view model.now) class) }
{
    match declaration(model, class) {
        Some(decl) => methods_of(alloc, first, decl),
        None => Ok(Methods::new(alloc, first)),
    }
}

/// What is kept of the class of this number, of whose methods the first has the number `first`. The
/// only error is want of memory.
fn entry_of(
    alloc: Global,
    model: &Model,
    numbering: &Numbering,
    parents: &[Option<u32>],
    class: u32,
    first: u32,
    members: Front,
) -> Result<Entry, AllocError>
    requires numbered { Numbers (model_view model.now) numbering.now }
    requires extending { (c : ℕ) → parent_in parents.now c ≡ parent (model_view model.now) c }
    requires few { HasFewMarks (model_view model.now) }
    requires acyclic { (c : ℕ) → GoesRound (parent (model_view model.now)) c → ⊥ }
    requires within { class < length model.now.decls + 1 }
    requires counted { first ≡ methods_before (model_view model.now) class }
    requires inherited { HasMembers (model_view model.now)
        (ancestors (model_view model.now) class) members }
    ensures row { IfOk result (λ e. row_view e ≡ row (model_view model.now) class) }
    ensures next { IfOk result (λ e. e.methods.next ≡ methods_before (model_view model.now)
        (class + 1)) }
{
    let methods = methods_at(alloc, model, class, first)?;
    let start = start_at(alloc, model, numbering, &members, class)?;
    let parent = parent_at(parents, class);
    Ok(Entry {
        parent,
        members,
        start,
        methods,
    })
}

/// What is kept of each class, at its number, where the table has what each inherits and has of its
/// own. The only error is want of memory.
pub(crate) fn entries_of(
    alloc: Global,
    model: &Model,
    numbering: &Numbering,
    parents: &[Option<u32>],
    table: Vec<Front>,
) -> Result<Items<Entry>, AllocError>
    requires numbered { Numbers (model_view model.now) numbering.now }
    requires extending { (c : ℕ) → parent_in parents.now c ≡ parent (model_view model.now) c }
    requires inherited { AreMembers (model_view model.now) table.items }
    requires few { HasFewMarks (model_view model.now) }
    requires acyclic { (c : ℕ) → GoesRound (parent (model_view model.now)) c → ⊥ }
    requires room { length model.now.decls + 1 < 2 ^ 32 }
    ensures { IfOk result (λ es. map row_view es ≡ rows (model_view model.now)) }
{
    let mut entries = Items::new(alloc);
    let mut number = 0u32;
    let mut first = 0u32;
    for members in table {
        let entry = entry_of(alloc, model, numbering, parents, number, first, members)?;
        first = entry.methods.next;
        entries.push(entry)?;
        number += 1;
    }
    Ok(entries)
}
