// What each class has, in lists that the classes of a line share. A line is made whole, with its
// lists, so nothing is copied: what stands above it is the first names of another.

ghost use Rattle.std.specs.Prelude.{◌≡◌, ◌<◌, ◌+◌, ◌∷◌, [], ℕ, None, length, map, take, All, IfOk, OnOk};
ghost use Rattle.std.specs.Option.{IsSome, option_copied};
ghost use Rattle.pz_classes_code.specs.pz_syntax.ClassView.{model_view};
ghost use Rattle.pz_classes_code.specs.pz_syntax.ModelText.{HasFewMarks};
ghost use Rattle.pz_classes_lineage.specs.Parents.{parent_in};
ghost use Rattle.pz_classes_lineage.specs.Reached.{GoesRound};
ghost use Rattle.pz_classes_lineage.specs.Preorder.{IsPreorder, visited};
ghost use Rattle.pz_classes_rules.specs.Ancestors.{parent};
ghost use Rattle.pz_classes.specs.devices.Inherited.{AreMembers, none_yet};
ghost use Rattle.pz_classes.specs.devices.Fronts.{kept, kept_above, Inherits, IsTable, Fills};

use crate::ancestry::parent_at;
use crate::descent::heirs_of;
use crate::front::Front;
use crate::line::{Line, line_from};
use crate::lists::Lists;
use crate::members::Members;
use pz_classes_code::pz_items::{Items, Shared};
use pz_classes_code::pz_syntax::Model;
use pz_classes_code::{NameFront, NameList};
use pz_classes_lineage::Visit;
use std::alloc::{AllocError, Global};

/// No names, before the first list. The only error is want of memory.
fn no_names(alloc: Global) -> Result<NameFront, AllocError>
    ensures { IfOk result (λ front. front.names ≡ []) }
{
    let list = NameList::new(alloc, None, Items::new(alloc))?;
    let list = Shared::new(alloc, list)?;
    NameFront::new(&list, 0)
}

/// What a class inherits that extends none. The only error is want of memory.
fn nothing(alloc: Global) -> Result<Front, AllocError>
    ensures { IfOk result (λ front. front ≡ none_yet) }
{
    let fields = no_names(alloc)?;
    let variables = no_names(alloc)?;
    let ports = no_names(alloc)?;
    Ok(Front {
        fields,
        variables,
        ports,
    })
}

/// A table for so many classes in which nothing is kept. The only error is want of memory.
fn empty_table(alloc: Global, count: usize) -> Result<Vec<Option<Front>>, AllocError>
    ensures counted { IfOk result (λ table. length table.items ≡ count) }
    ensures empty { IfOk result (λ table. (c : ℕ) → kept table.items c ≡ None) }
{
    let mut table = Vec::with_capacity(alloc, count)?;
    for _class in 0..count {
        table.push(None)?;
    }
    Ok(table)
}

/// What the table keeps of a class.
fn front_at(table: &[Option<Front>], class: u32) -> Option<&Front>
    ensures { option_copied result ≡ kept table.now class }
{
    table.get(class as usize)?.as_ref()
}

/// What is kept of the class that is extended; the root where none is.
fn front_above<'a>(table: &'a [Option<Front>], root: &'a Front, parent: Option<u32>) -> &'a Front
    ensures { result.now ≡ kept_above table.now root.now parent }
{
    let Some(class) = parent else {
        return root;
    };
    front_at(table, class).unwrap_or(root)
}

/// Sees to it that something is kept of this class: where nothing is, the line that begins with it is made,
/// and what its classes have put into the table. The only error is want of memory.
fn visit_class(
    alloc: Global,
    model: &Model,
    parents: &[Option<u32>],
    heirs: &[Option<u32>],
    root: &Front,
    class: u32,
    table: &mut [Option<Front>],
) -> Result<(), AllocError>
    requires extending { (c : ℕ) → parent_in parents.now c ≡ parent (model_view model.now) c }
    requires acyclic { (c : ℕ) → GoesRound (parent (model_view model.now)) c → ⊥ }
    requires few { HasFewMarks (model_view model.now) }
    requires within { class < length model.now.decls + 1 }
    requires inherits { Inherits (model_view model.now) class
        (kept_above table.old root.now (parent_in parents.now class)) }
    requires table { IsTable (model_view model.now) table.old }
    ensures { OnOk result (Fills (model_view model.now) (class ∷ []) table.old table.new) }
{
    if front_at(table, class).is_some() {
        return Ok(());
    }
    let above = front_above(table, root, parent_at(parents, class)).copy()?;
    let Line { own, ends } = line_from(alloc, model, parents, heirs, class)?;
    let lists = Lists::new(alloc, above, own)?;
    lists.fill(model, ends.as_slice(), table)
}

/// Puts what each class has at its number. The classes come in an order in which each stands behind
/// its parent. The only error is want of memory.
fn fill_table(
    alloc: Global,
    model: &Model,
    parents: &[Option<u32>],
    visits: &[Visit],
    root: &Front,
    table: &mut [Option<Front>],
) -> Result<(), AllocError>
    requires extending { (c : ℕ) → parent_in parents.now c ≡ parent (model_view model.now) c }
    requires preorder { IsPreorder (parent (model_view model.now))
        (length model.now.decls + 1) visits.now }
    requires acyclic { (c : ℕ) → GoesRound (parent (model_view model.now)) c → ⊥ }
    requires few { HasFewMarks (model_view model.now) }
    requires root { root.now ≡ none_yet }
    requires table { IsTable (model_view model.now) table.old }
    ensures { OnOk result (Fills (model_view model.now) (visited visits.now) table.old table.new) }
{
    let heirs = heirs_of(alloc, parents, visits)?;
    for visit in visits {
        visit_class(
            alloc,
            model,
            parents,
            heirs.as_slice(),
            root,
            visit.class,
            table,
        )?;
    }
    Ok(())
}

/// What is kept in a table in which nothing is left out. The only error is want of memory.
fn all_kept(alloc: Global, table: Vec<Option<Front>>) -> Result<Vec<Front>, AllocError>
    requires { All IsSome table.items }
    ensures { IfOk result (λ fronts. map Some fronts.items ≡ table.items) }
{
    let mut fronts = Vec::with_capacity(alloc, table.len())?;
    for front in table {
        match front {
            Some(front) => fronts.push(front)?,
            None => unreachable!(),
        }
    }
    Ok(fronts)
}

/// A table in which what each class has is kept at its number. The classes come in an order in which
/// each stands behind its parent. The only error is want of memory.
fn filled_table(
    alloc: Global,
    model: &Model,
    parents: &[Option<u32>],
    visits: &[Visit],
) -> Result<Vec<Option<Front>>, AllocError>
    requires extending { (c : ℕ) → parent_in parents.now c ≡ parent (model_view model.now) c }
    requires counted { length parents.now ≡ length model.now.decls + 1 }
    requires preorder { IsPreorder (parent (model_view model.now))
        (length model.now.decls + 1) visits.now }
    requires acyclic { (c : ℕ) → GoesRound (parent (model_view model.now)) c → ⊥ }
    requires few { HasFewMarks (model_view model.now) }
    ensures table { IfOk result (λ table. IsTable (model_view model.now) table.items) }
    ensures whole { IfOk result (λ table. All IsSome table.items) }
{
    let root = nothing(alloc)?;
    let mut table = empty_table(alloc, parents.len())?;
    fill_table(alloc, model, parents, visits, &root, table.as_mut_slice())?;
    Ok(table)
}

/// What each class has, at its number. The classes come in an order in which each stands behind its
/// parent. The only error is want of memory.
pub(crate) fn members_of_classes(
    alloc: Global,
    model: &Model,
    parents: &[Option<u32>],
    visits: &[Visit],
) -> Result<Vec<Front>, AllocError>
    requires extending { (c : ℕ) → parent_in parents.now c ≡ parent (model_view model.now) c }
    requires counted { length parents.now ≡ length model.now.decls + 1 }
    requires preorder { IsPreorder (parent (model_view model.now))
        (length model.now.decls + 1) visits.now }
    requires acyclic { (c : ℕ) → GoesRound (parent (model_view model.now)) c → ⊥ }
    requires few { HasFewMarks (model_view model.now) }
    ensures { IfOk result (λ table. AreMembers (model_view model.now) table.items) }
{
    let table = filled_table(alloc, model, parents, visits)?;
    all_kept(alloc, table)
}
