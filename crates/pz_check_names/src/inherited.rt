// What a class and its ancestors declare, as a walk goes from each class to those that extend it.

ghost use Rattle.std.specs.Prelude.{◌≡◌, ◌<◌, ◌^◌, [], ◌∷◌, List, ℕ, Bool, Option, None, Some, length, All, OnOk};
ghost use Rattle.std.specs.List.{list_any};
ghost use Rattle.std.specs.Option.{is_some, option_map, option_to_list, unwrap_or};
ghost use Rattle.pz_classes_code.specs.pz_syntax.Classes.{DeclTree as Tree, process_class, StartTree, ModelTree};
ghost use Rattle.pz_classes_code.specs.pz_syntax.ClassView.{decl_view, process_class_view, start_view, model_view};
ghost use Rattle.pz_classes_code.specs.pz_syntax.ModelText.{HasFewMarks, decl_text};
ghost use Rattle.pz_classes.specs.pz_classes_rules.Members.{from_root, grouped, own_fields, own_variables, own_ports};
ghost use Rattle.pz_classes.specs.pz_classes_rules.CallRules.{is_message};
ghost use Rattle.pz_classes.specs.pz_classes_rules.Words.{is_among};
ghost use Rattle.pz_classes_lineage.specs.Preorder.{outermost};
ghost use Rattle.pz_check_names.specs.devices.Shown.{ShowsStarts, called};
ghost use Rattle.pz_check_names.specs.devices.Inherited.{AreOpen, IsOpen, messages_along, method_along, start_along};

use crate::messages::{Signal, note_messages};
use crate::methods::{Call, note_methods};
use crate::names::{has_name, note_optional, note_section};
use pz_check_scopes::Nested;
use pz_classes::{Visit, declaration};
use pz_classes_code::pz_syntax::{Decl, Model, Name, ProcessClass, Start};
use std::alloc::{AllocError, Global};

/// What the classes that are open declare: a class that a walk has come to, and its ancestors. Each
/// of them has a scope, in which it notes what it declares itself.
#[derive(Drop)]
pub(crate) struct Inherited<'a> {
    fields: Nested<&'a [u8], ()>,
    /// Parameters are variables too.
    variables: Nested<&'a [u8], ()>,
    ports: Nested<&'a [u8], ()>,
    messages: Nested<Signal<'a>, ()>,
    /// Those of process classes.
    methods: Nested<Call<'a>, ()>,
    /// Something is noted by each class that has an `init`.
    starts: Nested<(), ()>,
}

/// Notes that there is an `init`, if there is one. The only error is want of memory.
fn note_start(starts: &mut Nested<(), ()>, start: &Option<Start>) -> Result<(), AllocError>
    ensures { (outer : List (List StartTree)) → ShowsStarts ([] ∷ outer) starts.old →
        OnOk result (ShowsStarts (option_to_list (option_map start_view start.now) ∷ outer)
        starts.new) }
{
    let Some(_) = start else {
        return Ok(());
    };
    starts.note((), ())?;
    Ok(())
}

impl<'a> Inherited<'a> {
    /// No class is open. Takes no memory.
    pub(crate) fn new(alloc: Global) -> Self
        ensures { AreOpen [] result }
    {
        Inherited {
            fields: Nested::new(alloc),
            variables: Nested::new(alloc),
            ports: Nested::new(alloc),
            messages: Nested::new(alloc),
            methods: Nested::new(alloc),
            starts: Nested::new(alloc),
        }
    }

    /// Leaves all classes but the outermost so many.
    fn close_to(&mut self, depth: usize)
        ensures { (decls : List (Option Tree)) → AreOpen decls self.old →
            AreOpen (outermost depth decls) self.new }
    {
        self.fields.close_to(depth);
        self.variables.close_to(depth);
        self.ports.close_to(depth);
        self.messages.close_to(depth);
        self.methods.close_to(depth);
        self.starts.close_to(depth);
    }

    /// Opens a class that declares nothing so far. The only error is want of memory.
    fn open(&mut self) -> Result<(), AllocError>
        ensures { (decls : List (Option Tree)) → AreOpen decls self.old →
            OnOk result (AreOpen (None ∷ decls) self.new) }
    {
        self.fields.open()?;
        self.variables.open()?;
        self.ports.open()?;
        self.messages.open()?;
        self.methods.open()?;
        self.starts.open()?;
        Ok(())
    }

    /// Notes what a process class declares itself. The only error is want of memory.
    fn note_process(&mut self, class: &'a ProcessClass) -> Result<(), AllocError>
        requires inputs { All (λ r. length (grouped r.inputs) < 2 ^ 32)
            (unwrap_or class.now.methods []) }
        requires outputs { All (λ r. length (grouped r.outputs) < 2 ^ 32)
            (unwrap_or class.now.methods []) }
        ensures { (outer : List (Option Tree)) → AreOpen (None ∷ outer) self.old →
            OnOk result (AreOpen (Some (process_class (process_class_view class.now)) ∷ outer)
            self.new) }
    {
        note_section(&mut self.variables, &class.parameters)?;
        note_section(&mut self.variables, &class.variables)?;
        note_optional(&mut self.ports, &class.ports)?;
        note_messages(&mut self.messages, &class.messages)?;
        note_methods(&mut self.methods, &class.methods)?;
        note_start(&mut self.starts, &class.start)?;
        Ok(())
    }

    /// Notes what a class declares itself. The only error is want of memory.
    fn note_own(&mut self, decl: &'a Decl) -> Result<(), AllocError>
        requires { length (decl_text (decl_view decl.now)) < 2 ^ 32 }
        ensures { (outer : List (Option Tree)) → AreOpen (None ∷ outer) self.old →
            OnOk result (AreOpen (Some (decl_view decl.now) ∷ outer) self.new) }
    {
        match decl {
            Decl::Data(class) => note_section(&mut self.fields, &class.variables),
            Decl::Process(class) => self.note_process(class),
            Decl::Cluster(class) => note_optional(&mut self.ports, &class.ports),
            Decl::System(_) => Ok(()),
        }
    }

    /// Leaves all classes but the ancestors of this one, and opens it. The only error is want of
    /// memory.
    pub(crate) fn enter(&mut self, model: &'a Model, visit: Visit) -> Result<(), AllocError>
        requires { HasFewMarks (model_view model.now) }
        ensures { (line : List ℕ) → IsOpen (model_view model.now) line self.old →
            OnOk result (IsOpen (model_view model.now)
            (visit.class ∷ outermost visit.depth line) self.new) }
    {
        self.close_to(visit.depth);
        self.open()?;
        match declaration(model, visit.class) {
            Some(decl) => self.note_own(decl),
            None => Ok(()),
        }
    }

    /// Whether a data class has this field.
    pub(crate) fn has_field(&self, name: &Name) -> bool
        ensures { (m : ModelTree) (line : List ℕ) → IsOpen m line self.now →
            result ≡ is_among (from_root own_fields m line) name.now }
    {
        has_name(&self.fields, name)
    }

    /// Whether a process class has this parameter or variable.
    pub(crate) fn has_variable(&self, name: &Name) -> bool
        ensures { (m : ModelTree) (line : List ℕ) → IsOpen m line self.now →
            result ≡ is_among (from_root own_variables m line) name.now }
    {
        has_name(&self.variables, name)
    }

    /// Whether the class has this port.
    pub(crate) fn has_port(&self, name: &Name) -> bool
        ensures { (m : ModelTree) (line : List ℕ) → IsOpen m line self.now →
            result ≡ is_among (from_root own_ports m line) name.now }
    {
        has_name(&self.ports, name)
    }

    /// Whether the class has a message on this port, of this direction and name, with so many
    /// parameters.
    pub(crate) fn has_message(&self, port: &Name, out: bool, name: &Name, count: usize) -> bool
        ensures { (m : ModelTree) (line : List ℕ) → IsOpen m line self.now →
            result ≡ list_any (is_message port.now out name.now count) (messages_along m line) }
    {
        let sought = Signal::new(port, out, name, count);
        self.messages.get(sought).is_some()
    }

    /// Whether a process class has a method of this name, with so many inputs and outputs.
    pub(crate) fn has_method(&self, name: &Name, inputs: usize, outputs: usize) -> bool
        ensures { (m : ModelTree) (line : List ℕ) → IsOpen m line self.now →
            result ≡ is_some (method_along m (called name.now inputs outputs) line) }
    {
        self.methods.get(Call::new(name, inputs, outputs)).is_some()
    }

    /// Whether the class has an `init`.
    pub(crate) fn has_start(&self) -> bool
        ensures { (m : ModelTree) (line : List ℕ) → IsOpen m line self.now →
            result ≡ is_some (start_along m line) }
    {
        self.starts.get(()).is_some()
    }
}
