// The lists of names of a line, and what each of its classes has of them.

ghost use Rattle.std.specs.Prelude.{◌≡◌, ◌<◌, ◌≤◌, ◌^◌, ◌++◌, ℕ, length, take, All, IfOk, OnOk};
ghost use Rattle.pz_classes_code.specs.pz_syntax.ClassView.{model_view};
ghost use Rattle.pz_classes_code.specs.pz_syntax.ModelText.{HasFewMarks};
ghost use Rattle.pz_classes_lineage.specs.Reached.{GoesRound};
ghost use Rattle.pz_classes_rules.specs.Ancestors.{parent};
ghost use Rattle.pz_classes.specs.devices.Inherited.{AreFew};
ghost use Rattle.pz_classes.specs.devices.Fronts.{behind, front, lengths, total, listed, AreWithin, IsEnd, IsTable, Fills, classes_of};

use crate::front::Front;
use crate::line::End;
use crate::members::{Lengths, Members};
use pz_classes_code::pz_items::{Items, Shared};
use pz_classes_code::pz_syntax::{Model, Name};
use pz_classes_code::{NameFront, NameList};
use std::alloc::{AllocError, Global};

/// The lists of a line, each where several can own it, and how many of the names are from above.
pub(crate) struct Lists {
    fields: Shared<NameList>,
    variables: Shared<NameList>,
    ports: Shared<NameList>,
    above: Lengths,
}

/// A list of names that begins with those above, where several can own it. The only error is want of
/// memory.
fn list_of(
    alloc: Global,
    above: NameFront,
    own: Items<Name>,
) -> Result<Shared<NameList>, AllocError>
    ensures { IfOk result (λ list. list.names ≡ above.names ++ own) }
{
    let list = NameList::new(alloc, Some(above), own)?;
    Shared::new(alloc, list)
}

/// So many of the first names of a list. The only error is that the list has as many owners as can be
/// counted.
fn first_of(list: &Shared<NameList>, count: usize) -> Result<NameFront, AllocError>
    requires within { count ≤ length list.now.names }
    requires few { count < 2 ^ 32 }
    ensures { IfOk result (λ front. front.names ≡ take count list.now.names) }
{
    NameFront::new(list, count as u32)
}

// Written out, so that it is proved once, here, and not in each function that drops one.
impl Drop for Lists {
    fn drop(self) {
        let Lists {
            fields,
            variables,
            ports,
            above: _,
        } = self;
        std::mem::drop(fields);
        std::mem::drop(variables);
        std::mem::drop(ports);
    }
}

impl Lists {
    /// The lists that begin with what is above. The only error is want of memory.
    pub(crate) fn new(alloc: Global, above: Front, own: Members) -> Result<Lists, AllocError>
        ensures names { IfOk result (λ lists. listed lists.fields lists.variables lists.ports ≡
            behind above own) }
        ensures above { IfOk result (λ lists. lists.above ≡ lengths above) }
    {
        let lengths = above.lengths();
        let Front {
            fields,
            variables,
            ports,
        } = above;
        let Members {
            fields: own_fields,
            variables: own_variables,
            ports: own_ports,
        } = own;
        let fields = list_of(alloc, fields, own_fields)?;
        let variables = list_of(alloc, variables, own_variables)?;
        let ports = list_of(alloc, ports, own_ports)?;
        Ok(Lists {
            fields,
            variables,
            ports,
            above: lengths,
        })
    }

    /// What a class has whose own names are the last of so many of the line.
    fn front(&self, own: Lengths) -> Result<Front, AllocError>
        requires within { AreWithin (total self.now.above own)
            (listed self.now.fields self.now.variables self.now.ports) }
        requires few { AreFew (front (total self.now.above own)
            (listed self.now.fields self.now.variables self.now.ports)) }
        ensures { IfOk result (λ f. f ≡ front (total self.now.above own)
            (listed self.now.fields self.now.variables self.now.ports)) }
    {
        let fields = first_of(&self.fields, self.above.fields + own.fields)?;
        let variables = first_of(&self.variables, self.above.variables + own.variables)?;
        let ports = first_of(&self.ports, self.above.ports + own.ports)?;
        Ok(Front {
            fields,
            variables,
            ports,
        })
    }

    /// Puts what each class of the line has at its number. The only error is that a list has as many
    /// owners as can be counted.
    pub(crate) fn fill(
        &self,
        model: &Model,
        ends: &[End],
        table: &mut [Option<Front>],
    ) -> Result<(), AllocError>
        requires few { HasFewMarks (model_view model.now) }
        requires acyclic { (c : ℕ) → GoesRound (parent (model_view model.now)) c → ⊥ }
        requires ends { All (IsEnd (model_view model.now) self.now.above
            (listed self.now.fields self.now.variables self.now.ports)) ends.now }
        requires table { IsTable (model_view model.now) table.old }
        ensures { OnOk result (Fills (model_view model.now) (classes_of ends.now) table.old
            table.new) }
    {
        for end in ends {
            table[end.class as usize] = Some(self.front(end.lengths)?);
        }
        Ok(())
    }
}
