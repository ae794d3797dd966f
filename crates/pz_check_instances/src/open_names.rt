// Names on a walk from classes to those that extend them.

ghost use Rattle.std.specs.Prelude.{◌≡◌, List, ℕ, [], ◌∷◌, ◌++◌, OnOk};
ghost use Rattle.pz_classes_lineage.specs.Preorder.{outermost};
ghost use Rattle.pz_classes.specs.pz_classes_rules.Members.{spelled, grouped};
ghost use Rattle.pz_check_instances.specs.devices.NameSets.{names_in};
ghost use Rattle.pz_check_instances.specs.devices.Open.{HasOpen, kept};

use crate::name_set::NameSet;
use pz_classes_code::pz_syntax::{Id, VarGroup};
use std::alloc::{AllocError, Global};

/// The names that the open classes declare: a class and its ancestors. A name that several of them
/// declare is kept where it came first, and goes when that class is left.
#[derive(Drop)]
pub(crate) struct OpenNames<'a> {
    names: NameSet<'a>,
    /// How many names there were when each class was opened.
    starts: Vec<usize>,
}

impl<'a> OpenNames<'a> {
    /// No class is open. Takes no memory.
    pub(crate) fn new(alloc: Global) -> OpenNames<'a>
        ensures { HasOpen [] result }
    {
        OpenNames {
            names: NameSet::new(alloc),
            starts: Vec::new(alloc),
        }
    }

    /// Leaves all classes but the outermost so many.
    fn close_to(&mut self, depth: usize)
        ensures { (scopes : List (List (List ℕ))) → HasOpen scopes self.old →
            HasOpen (outermost depth scopes) self.new }
    {
        if depth < self.starts.len() {
            let start = self.starts[depth];
            self.starts.truncate(depth);
            self.names.truncate(start);
        }
    }

    /// Opens a class that has so many ancestors, which stay open; the others are left. The only
    /// error is want of memory.
    pub(crate) fn enter(&mut self, depth: usize) -> Result<(), AllocError>
        ensures { (scopes : List (List (List ℕ))) → HasOpen scopes self.old →
            OnOk result (HasOpen ([] ∷ outermost depth scopes) self.new) }
    {
        self.close_to(depth);
        self.starts.push(self.names.len())?;
        Ok(())
    }

    /// Adds what the innermost class declares in these groups. The only error is want of memory.
    pub(crate) fn add_groups(&mut self, groups: &'a [VarGroup]) -> Result<(), AllocError>
        ensures { (scope : List (List ℕ)) (outer : List (List (List ℕ))) →
            HasOpen (scope ∷ outer) self.old → OnOk result
            (HasOpen ((scope ++ spelled (grouped groups.now)) ∷ outer) self.new) }
    {
        self.names.add_groups(groups)?;
        Ok(())
    }

    /// Adds these that the innermost class declares. The only error is want of memory.
    pub(crate) fn add_ids(&mut self, ids: &'a [Id]) -> Result<(), AllocError>
        ensures { (scope : List (List ℕ)) (outer : List (List (List ℕ))) →
            HasOpen (scope ∷ outer) self.old → OnOk result
            (HasOpen ((scope ++ spelled ids.now) ∷ outer) self.new) }
    {
        self.names.add_ids(ids)?;
        Ok(())
    }

    /// The names of all classes that are open.
    pub(crate) fn names(&self) -> &NameSet<'a>
        ensures { (scopes : List (List (List ℕ))) → HasOpen scopes self.now →
            names_in result.now ≡ kept scopes }
    {
        &self.names
    }
}
