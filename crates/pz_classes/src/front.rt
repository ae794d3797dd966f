// What is kept of the fields, variables and ports of a class.

ghost use Rattle.std.specs.Prelude.{◌≡◌, IfOk};
ghost use Rattle.pz_classes_code.specs.pz_syntax.Classes.{ModelTree};
ghost use Rattle.pz_classes_code.specs.declared.numbering.Numbering.{Numbering as Names};
ghost use Rattle.pz_classes_rules.specs.Bodies.{scope_of};
ghost use Rattle.pz_classes.specs.devices.Fronts.{lengths};
ghost use Rattle.pz_classes.specs.devices.Surrounding.{scope_around, Numbers};

use crate::members::Lengths;
use crate::surroundings::Surroundings;
use pz_classes_code::NameFront;
use std::alloc::AllocError;
use std::marker::Model;

/// The names of what a class has, those of its ancestors first. Classes of one line share their
/// lists, of which each has the first names.
#[derive(Drop)]
pub(crate) struct Front {
    pub(crate) fields: NameFront,
    pub(crate) variables: NameFront,
    pub(crate) ports: NameFront,
}

impl Model for Front {
    ghost use Rattle.pz_classes.specs.declared.members.Members.{Members};
    ghost use Rattle.pz_classes.specs.devices.Fronts.{listed};

    ghost Value = { Members };

    ghost view = { λ f. listed f.fields f.variables f.ports };
}

impl Front {
    /// The same names again. Takes constant time and no memory. The only error is that a list has as
    /// many owners as can be counted.
    pub(crate) fn copy(&self) -> Result<Front, AllocError>
        ensures { IfOk result (λ copy. copy ≡ self.now) }
    {
        let fields = self.fields.copy()?;
        let variables = self.variables.copy()?;
        let ports = self.ports.copy()?;
        Ok(Front {
            fields,
            variables,
            ports,
        })
    }

    /// How many there are.
    pub(crate) fn lengths(&self) -> Lengths
        ensures { result ≡ lengths self.now }
    {
        Lengths {
            fields: self.fields.len() as usize,
            variables: self.variables.len() as usize,
            ports: self.ports.len() as usize,
        }
    }

    /// The fields, those of the ancestors first.
    pub(crate) fn fields(&self) -> &NameFront
        ensures { result.now.names ≡ self.now.fields }
    {
        &self.fields
    }

    /// The variables, those of the ancestors first.
    pub(crate) fn variables(&self) -> &NameFront
        ensures { result.now.names ≡ self.now.variables }
    {
        &self.variables
    }

    /// The ports, those of the ancestors first.
    pub(crate) fn ports(&self) -> &NameFront
        ensures { result.now.names ≡ self.now.ports }
    {
        &self.ports
    }

    /// What the methods of such a data class have in common.
    pub(crate) fn around_data(&self) -> Surroundings<'_>
        ensures { (m : ModelTree) (classes : Names) → Numbers m classes →
            scope_around result classes ≡ scope_of m self.now.fields self.now.ports }
    {
        Surroundings {
            shared: self.fields(),
            ports: self.ports(),
        }
    }

    /// What the methods of such a process class have in common.
    pub(crate) fn around_process(&self) -> Surroundings<'_>
        ensures { (m : ModelTree) (classes : Names) → Numbers m classes →
            scope_around result classes ≡ scope_of m self.now.variables self.now.ports }
    {
        Surroundings {
            shared: self.variables(),
            ports: self.ports(),
        }
    }
}
