ghost use Rattle.std.specs.Prelude.{◌≡◌, ◌<◌, ◌+◌, ◌^◌, List, ℕ, length, IfOk, OnOk, IfErr, IfSome};
ghost use Rattle.std.specs.Prelude.{Some, slice_get};
ghost use Rattle.std.specs.Option.{option_map, option_and_then, option_copied};
ghost use Rattle.pz_classes_code.specs.StepView as step;
ghost use Rattle.pz_classes_rules.specs.Bodies.{bodies};
ghost use Rattle.pz_classes_rules.specs.BodyView.{body_view};
ghost use Rattle.pz_classes_rules.specs.Starts.{init};
ghost use Rattle.pz_classes_code.specs.pz_syntax.Classes.{ModelTree};
ghost use Rattle.pz_classes_code.specs.pz_syntax.ClassView.{decl_view, model_view};
ghost use Rattle.pz_classes_code.specs.pz_syntax.ModelText.{HasFewMarks};
ghost use Rattle.pz_check_violations.specs.declared.violation.Violation.{Violation as Found};
ghost use Rattle.pz_classes_code.specs.pz_value.declared.value.ClassId.{ClassId as Number};
ghost use Rattle.pz_classes_rules.specs.Numbers as numbers;
ghost use Rattle.pz_classes_rules.specs.Ancestors as ancestors;
ghost use Rattle.pz_classes_rules.specs.Members as members;
ghost use Rattle.pz_classes_rules.specs.Members.{spelled};
ghost use Rattle.pz_classes_rules.specs.Methods as methods;
ghost use Rattle.pz_classes_rules.specs.MethodBodies.{method_body, process_method_body};
ghost use Rattle.pz_classes_rules.specs.Violations.{Violates};
ghost use Rattle.pz_check_violations.specs.Order.{IsLeast};
ghost use Rattle.pz_classes_rules.specs.Preorder.{IsPreorderOf};
ghost use Rattle.pz_classes.specs.Refusals.{OnRefused};
ghost use Rattle.pz_classes_rules.specs.ClassNames.{class_names, class_id};
ghost use Rattle.pz_classes.specs.Tables.{HasClass, HasMethod};
ghost use Rattle.pz_classes.specs.devices.Rows.{AreClasses, row, row_view};

use crate::ancestry::{number_classes, parents_of};
use crate::bodies::bodies_of;
use crate::checking::least_violation;
use crate::declarations::declared_name;
use crate::entry::Entry;
use crate::finding::{find, find_start};
use crate::sharing::members_of_classes;
use crate::tabling::entries_of;
use crate::{Body, BuildError, Counts, MethodId, Step};
use pz_classes_code::pz_items::Items;
use pz_classes_code::pz_syntax::{Decl, Model};
use pz_classes_code::pz_value::{ClassId, Text};
use pz_classes_code::{NameFront, Numbering};
use pz_classes_lineage::{Visit, go_round, preorder};
use std::alloc::{AllocError, Global};

/// The classes of a model, by their numbers: 0 is Array, and the class of the first declaration is
/// number 1.
pub struct Classes {
    names: Items<Text>,
    numbering: Numbering,
    entries: Items<Entry>,
    bodies: Items<Body>,
    preorder: Items<Visit>,
}

// Written out, so that it is proved once, here, and not in each function that drops one.
impl Drop for Classes {
    fn drop(self) {
        let Classes {
            names,
            numbering,
            entries,
            bodies,
            preorder,
        } = self;
        std::mem::drop(names);
        std::mem::drop(numbering);
        std::mem::drop(entries);
        std::mem::drop(bodies);
        std::mem::drop(preorder);
    }
}

/// The name of the class that is declared, empty for a system. The only error is want of memory.
fn spelling(alloc: Global, decl: &Decl) -> Result<Text, AllocError>
    ensures { IfOk result (λ text. text ≡ numbers.spelling (decl_view decl.now)) }
{
    match declared_name(decl) {
        Some(id) => Ok(Text::new(id.name.as_str().as_bytes().to_vec(alloc)?)),
        None => Ok(Text::new(Vec::new(alloc))),
    }
}

/// The name of each class at its number. The only error is want of memory.
fn names_of(alloc: Global, model: &Model) -> Result<Items<Text>, AllocError>
    ensures { IfOk result (λ names. names ≡ class_names (model_view model.now)) }
{
    let mut names = Items::new(alloc);
    names.push(Text::new("Array".as_bytes().to_vec(alloc)?))?;
    for decl in model.decls.as_slice() {
        names.push(spelling(alloc, decl)?)?;
    }
    Ok(names)
}

impl Classes {
    /// The classes of the model, or the least violation of the rules C1 to C3. The only other error
    /// is want of memory.
    pub fn build(alloc: Global, model: &Model) -> Result<Classes, BuildError>
        requires { HasFewMarks (model_view model.now) }
        ensures classes { IfOk result (AreClasses (model_view model.now)) }
        ensures sound { OnOk result ((v : Found) → ¬ Violates (model_view model.now) v) }
        ensures refused { IfErr result (OnRefused (IsLeast (Violates (model_view model.now)))) }
    {
        let numbering = number_classes(alloc, model)?;
        let parents = parents_of(alloc, model, &numbering)?;
        let round = go_round(alloc, parents.as_slice())?;
        if let Some(violation) = least_violation(model, &numbering, round.as_slice()) {
            return Err(BuildError::Refused(violation));
        }
        let visits = preorder(alloc, parents.as_slice())?;
        let table = members_of_classes(alloc, model, parents.as_slice(), visits.as_slice())?;
        let entries = entries_of(alloc, model, &numbering, parents.as_slice(), table)?;
        let bodies = bodies_of(alloc, model, &numbering, entries.as_slice())?;
        let names = names_of(alloc, model)?;
        Ok(Classes {
            names,
            numbering,
            entries,
            bodies,
            preorder: Items::from_vec(visits),
        })
    }

    /// The class of this name; None where no class of the model has it.
    pub fn class(&self, name: &[u8]) -> Option<ClassId>
        ensures class { (m : ModelTree) → AreClasses m self.now →
            result ≡ option_map class_id (numbers.class m name.now) }
        ensures belongs { (m : ModelTree) → AreClasses m self.now →
            IfSome result (HasClass self.now) }
    {
        self.numbering.get(name).map(ClassId)
    }

    /// The name of each class at its number, empty for a system.
    pub fn names(&self) -> &[Text]
        ensures { (m : ModelTree) → AreClasses m self.now → result.now ≡ class_names m }
    {
        self.names.as_slice()
    }

    /// How many numbers of classes there are. Each number below it is that of a class.
    pub fn count(&self) -> usize
        ensures count { (m : ModelTree) → AreClasses m self.now → result ≡ length m.decls + 1 }
        ensures belongs { (class : Number) → class.0 < result → HasClass self.now class }
    {
        self.entries.len()
    }

    /// The class that this one extends, if that is one of these.
    pub fn parent(&self, class: ClassId) -> Option<ClassId>
        requires { HasClass self.now class }
        ensures parent { (m : ModelTree) → AreClasses m self.now →
            result ≡ option_map class_id (ancestors.parent m class.0) }
        ensures belongs { (m : ModelTree) → AreClasses m self.now →
            IfSome result (HasClass self.now) }
    {
        self.entry(class).parent.map(ClassId)
    }

    /// The classes in an order in which each comes after its ancestors, and all that descend from
    /// one come before the next that does not.
    pub fn preorder(&self) -> &[Visit]
        ensures preorder { (m : ModelTree) → AreClasses m self.now → IsPreorderOf m result.now }
    {
        self.preorder.as_slice()
    }

    fn entry(&self, class: ClassId) -> &Entry
        requires { HasClass self.now class }
        ensures { (m : ModelTree) → AreClasses m self.now → row_view result.now ≡ row m class.0 }
    {
        &self.entries.as_slice()[class.0 as usize]
    }

    /// The fields of a data class: those of its ancestors from the root on, in the order of the
    /// text. 32 bits number them.
    pub fn fields(&self, class: ClassId) -> &NameFront
        requires { HasClass self.now class }
        ensures fields { (m : ModelTree) → AreClasses m self.now →
            result.now.names ≡ spelled (members.fields m class.0) }
        ensures few { length result.now.names < 2 ^ 32 }
    {
        self.entry(class).members.fields()
    }

    /// The parameters and variables of a process class, those of its ancestors first.
    pub fn variables(&self, class: ClassId) -> &NameFront
        requires { HasClass self.now class }
        ensures { (m : ModelTree) → AreClasses m self.now →
            result.now.names ≡ spelled (members.variables m class.0) }
    {
        self.entry(class).members.variables()
    }

    /// The ports of a class, those of its ancestors first.
    pub fn ports(&self, class: ClassId) -> &NameFront
        requires { HasClass self.now class }
        ensures { (m : ModelTree) → AreClasses m self.now →
            result.now.names ≡ spelled (members.ports m class.0) }
    {
        self.entry(class).members.ports()
    }

    /// The method of a data class with this name and number of inputs: that of the nearest ancestor
    /// that has it. None where none has.
    pub fn method(&self, class: ClassId, name: &[u8], inputs: usize) -> Option<MethodId>
        requires { HasClass self.now class }
        ensures method { (m : ModelTree) → AreClasses m self.now →
            result ≡ methods.method m class.0 name.now inputs }
        ensures body { (m : ModelTree) → AreClasses m self.now →
            option_and_then (λ n. slice_get (bodies m) n.0) result ≡
            method_body m class.0 name.now inputs }
        ensures belongs { (m : ModelTree) → AreClasses m self.now →
            IfSome result (HasMethod self.now) }
    {
        find(
            self.entries.as_slice(),
            class.0,
            name,
            Counts::Data { inputs },
        )
    }

    /// The method of a process class with this name and numbers of inputs and outputs: that of the
    /// nearest ancestor that has it. None where none has.
    pub fn process_method(
        &self,
        class: ClassId,
        name: &[u8],
        inputs: usize,
        outputs: usize,
    ) -> Option<MethodId>
        requires { HasClass self.now class }
        ensures method { (m : ModelTree) → AreClasses m self.now →
            result ≡ methods.process_method m class.0 name.now inputs outputs }
        ensures body { (m : ModelTree) → AreClasses m self.now →
            option_and_then (λ n. slice_get (bodies m) n.0) result ≡
            process_method_body m class.0 name.now inputs outputs }
        ensures belongs { (m : ModelTree) → AreClasses m self.now →
            IfSome result (HasMethod self.now) }
    {
        find(
            self.entries.as_slice(),
            class.0,
            name,
            Counts::Process { inputs, outputs },
        )
    }

    /// The body of a method, with slots in place of names.
    pub fn body(&self, method: MethodId) -> &Body
        requires { HasMethod self.now method }
        ensures { (m : ModelTree) → AreClasses m self.now →
            slice_get (bodies m) method.0 ≡ Some (body_view result.now) }
    {
        &self.bodies.as_slice()[method.0 as usize]
    }

    /// The call that the `init` of the nearest ancestor of a process class names, without results,
    /// at the place of the method's name. None where no ancestor has an `init`.
    pub fn init(&self, class: ClassId) -> Option<&Step>
        requires { HasClass self.now class }
        ensures { (m : ModelTree) → AreClasses m self.now →
            option_map step.view (option_copied result) ≡ init m class.0 }
    {
        find_start(self.entries.as_slice(), class.0)
    }
}
