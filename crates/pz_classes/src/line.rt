// The classes of a line, of which each extends the one before, and their names.

ghost use Rattle.std.specs.Prelude.{◌≡◌, ◌<◌, ◌+◌, ◌∷◌, [], ◌++◌, ℕ, Some, length, IfOk, IfSome, OnOk};
ghost use Rattle.pz_classes_code.specs.pz_syntax.ClassView.{model_view};
ghost use Rattle.pz_classes_lineage.specs.Parents.{parent_in};
ghost use Rattle.pz_classes_lineage.specs.Reached.{GoesRound};
ghost use Rattle.pz_classes_rules.specs.Ancestors.{parent};
ghost use Rattle.pz_classes.specs.devices.Inherited.{AddsAt};
ghost use Rattle.pz_classes.specs.devices.Fronts.{lengths, IsLine, IsLineTo};

use crate::ancestry::parent_at;
use crate::members::{Lengths, Members};
use pz_classes_code::pz_syntax::Model;
use std::alloc::{AllocError, Global};

/// How many names of its line a class has: its own are the last of these.
#[derive(Clone, Copy)]
pub(crate) struct End {
    pub(crate) class: u32,
    pub(crate) lengths: Lengths,
}

/// What the classes of a line have of their own, one behind the other, and where each ends.
#[derive(Drop)]
pub(crate) struct Line {
    pub(crate) own: Members,
    pub(crate) ends: Vec<End>,
}

impl Line {
    /// Adds the class of this number to the end. The only error is want of memory.
    fn add(&mut self, model: &Model, class: u32) -> Result<(), AllocError>
        ensures own { OnOk result (AddsAt (model_view model.now) class self.old.own self.new.own) }
        ensures ends { OnOk result (self.new.ends.items ≡ self.old.ends.items ++
            (record { class = class; lengths = lengths self.new.own }) ∷ []) }
    {
        self.own.add_own_of(model, class)?;
        let lengths = self.own.lengths();
        self.ends.push(End { class, lengths })?;
        Ok(())
    }
}

/// The class that goes on with the line of this one: its heir, if that extends it.
fn next_in(parents: &[Option<u32>], heirs: &[Option<u32>], class: u32) -> Option<u32>
    ensures { IfSome result (λ next. parent_in parents.now next ≡ Some class) }
{
    let heir = parent_at(heirs, class)?;
    if parent_at(parents, heir) == Some(class) {
        Some(heir)
    } else {
        None
    }
}

/// Adds the heir of the class that the line ends with, the heir of that, and so on. The only error
/// is want of memory.
fn follow(
    model: &Model,
    parents: &[Option<u32>],
    heirs: &[Option<u32>],
    first: u32,
    line: &mut Line,
) -> Result<(), AllocError>
    requires extending { (c : ℕ) → parent_in parents.now c ≡ parent (model_view model.now) c }
    requires acyclic { (c : ℕ) → GoesRound (parent (model_view model.now)) c → ⊥ }
    requires begun { IsLineTo (model_view model.now) first line.old.own line.old.ends.items first }
    ensures { OnOk result (IsLine (model_view model.now) first line.new.own line.new.ends.items) }
{
    let mut last = first;
    for _step in 0..parents.len() {
        let Some(next) = next_in(parents, heirs, last) else {
            return Ok(());
        };
        line.add(model, next)?;
        last = next;
    }
    Ok(())
}

/// The line that begins with this class. The only error is want of memory.
pub(crate) fn line_from(
    alloc: Global,
    model: &Model,
    parents: &[Option<u32>],
    heirs: &[Option<u32>],
    first: u32,
) -> Result<Line, AllocError>
    requires extending { (c : ℕ) → parent_in parents.now c ≡ parent (model_view model.now) c }
    requires acyclic { (c : ℕ) → GoesRound (parent (model_view model.now)) c → ⊥ }
    requires within { first < length model.now.decls + 1 }
    ensures { IfOk result (λ line. IsLine (model_view model.now) first line.own line.ends.items) }
{
    let mut line = Line {
        own: Members::new(alloc),
        ends: Vec::new(alloc),
    };
    line.add(model, first)?;
    follow(model, parents, heirs, first, &mut line)?;
    Ok(line)
}
