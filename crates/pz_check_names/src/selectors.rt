// The selectors that the data classes of a model declare.

ghost use Rattle.std.specs.Prelude.{◌≡◌, ◌<◌, ◌^◌, List, ℕ, ◌||◌, ◌&&◌, false, length, map, nat_eq, All, IfOk, OnOk};
ghost use Rattle.std.specs.List.{list_any};
ghost use Rattle.std.specs.Str.{bytes_eq};
ghost use Rattle.pz_classes_code.specs.pz_syntax.ClassView.{decl_view, data_method_view, model_view};
ghost use Rattle.pz_classes_code.specs.pz_syntax.ModelText.{HasFewMarks, decl_text};
ghost use Rattle.pz_classes.specs.pz_classes_rules.Members.{section};
ghost use Rattle.pz_classes.specs.pz_classes_rules.Methods.{signatures, data_signature};
ghost use Rattle.pz_classes.specs.pz_classes_rules.CallRules.{is_declared};
ghost use Rattle.pz_check_names.specs.devices.Sets.{has_selector};
ghost use Rattle.pz_check_names.specs.devices.Scopes.{is_one_of, asked};

use indexmap::IndexSet;
use pz_classes::count_section;
use pz_classes_code::pz_syntax::{DataMethod, Decl, Model, Name};
use std::alloc::{AllocError, Global};

/// A selector, and how many arguments it has.
#[derive(Clone, Copy, PartialEq, Eq, Hash)]
struct Selector<'a> {
    name: &'a [u8],
    count: usize,
}

/// A set of selectors.
#[derive(Drop)]
pub(crate) struct Selectors<'a> {
    set: IndexSet<Selector<'a>>,
}

fn key_of(name: &Name, count: usize) -> Selector
    ensures named { result.name.now ≡ name.now }
    ensures counted { result.count ≡ count }
{
    Selector {
        name: name.as_str().as_bytes(),
        count,
    }
}

impl<'a> Selectors<'a> {
    /// The empty set. Takes no memory.
    fn new(alloc: Global) -> Self
        ensures { (q : List ℕ) (n : ℕ) → has_selector result q n ≡ false }
    {
        Selectors {
            set: IndexSet::new(alloc),
        }
    }

    /// Whether the set has this selector with so many arguments.
    pub(crate) fn has(&self, name: &Name, count: usize) -> bool
        ensures { result ≡ has_selector self.now name.now count }
    {
        self.set.contains(&key_of(name, count))
    }

    /// Adds a selector. The only error is want of memory.
    fn add(&mut self, name: &'a Name, count: usize) -> Result<(), AllocError>
        ensures { OnOk result ((q : List ℕ) (n : ℕ) →
            has_selector self.new q n ≡ (has_selector self.old q n ||
            (nat_eq n count && bytes_eq q name.now))) }
    {
        self.set.insert(key_of(name, count))?;
        Ok(())
    }

    /// Adds the selector of each method. The only error is want of memory.
    fn add_methods(&mut self, methods: &'a [DataMethod]) -> Result<(), AllocError>
        requires { All (λ r. length (section r.inputs) < 2 ^ 32) methods.now }
        ensures { OnOk result ((q : List ℕ) (n : ℕ) →
            has_selector self.new q n ≡ (has_selector self.old q n || is_one_of (asked q n)
            (map data_signature (map data_method_view methods.now)))) }
    {
        for method in methods {
            let count = count_section(&method.inputs);
            self.add(&method.name.name, count as usize)?;
        }
        Ok(())
    }

    /// Adds the selectors that a data class declares, none for another declaration. The only error is
    /// want of memory.
    #[tactic(auto, using(crate::proofs::Sets::or_none, crate::proofs::Foreign::no_selector))]
    fn add_declared(&mut self, decl: &'a Decl) -> Result<(), AllocError>
        requires { length (decl_text (decl_view decl.now)) < 2 ^ 32 }
        ensures { OnOk result ((q : List ℕ) (n : ℕ) →
            has_selector self.new q n ≡ (has_selector self.old q n || is_one_of (asked q n)
            (signatures (decl_view decl.now)))) }
    {
        match decl {
            Decl::Data(class) => match &class.methods {
                None => Ok(()),
                Some(methods) => self.add_methods(methods.as_slice()),
            },
            Decl::Process(_) => Ok(()),
            Decl::Cluster(_) => Ok(()),
            Decl::System(_) => Ok(()),
        }
    }
}

/// The selectors of all data classes of the model. The only error is want of memory.
pub(crate) fn selectors_of(alloc: Global, model: &Model) -> Result<Selectors, AllocError>
    requires { HasFewMarks (model_view model.now) }
    ensures { IfOk result (λ s. (q : List ℕ) (n : ℕ) →
        has_selector s q n ≡ is_declared (model_view model.now) (asked q n)) }
{
    let mut selectors = Selectors::new(alloc);
    for decl in model.decls.as_slice() {
        selectors.add_declared(decl)?;
    }
    Ok(selectors)
}
