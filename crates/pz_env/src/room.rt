// Whether a system is so large that an environment does not fit.

ghost use Rattle.std.specs.Prelude.{◌≡◌, ◌≤◌, ◌<◌, ◌+◌, ◌++◌, length, IfOk, OnOk, if◌then◌else◌};
ghost use Rattle.std.specs.Option.{option_map, option_copied};
ghost use Rattle.std.specs.List.{list_any};
ghost use Rattle.pz_syntax.specs.ClassView.{decl_view, model_view};
ghost use Rattle.pz_classes.specs.pz_classes_rules.Instances as spec;
ghost use Rattle.pz_classes.specs.pz_classes_rules.Kinds as kinds;
ghost use Rattle.pz_classes.specs.pz_classes_rules.SizeRules.{system_of, systems, system_size};
ghost use Rattle.pz_classes.specs.devices.Rows.{AreClasses};
ghost use Rattle.pz_env.specs.devices.Counting.{held_by, held, opened, is_over, is_above, size_of};

use pz_classes::{Classes, channels_of, class_of_instance, declaration, instances_of};
use pz_syntax::{Decl, Instance, Model};
use std::alloc::{AllocError, Global};

/// Where there are as many processes, there is no room for one more.
const FULL_PROCESSES: usize = 10_000;
/// The most channels beside which there is room for those of a script.
const MOST_CHANNELS: usize = 900_000;

/// A class of which one stands in the system, to be counted down to so many levels.
#[derive(Clone, Copy)]
struct Held {
    class: u32,
    levels: usize,
}

/// How much of a system has been counted, and what is left.
#[derive(Drop)]
struct Counting {
    processes: usize,
    channels: usize,
    left: Vec<Held>,
}

fn is_process(decl: &Decl) -> bool
    ensures { result ≡ kinds.is_process (decl_view decl.now) }
{
    matches!(decl, Decl::Process(_))
}

/// The declaration of the class, unless no level is left.
fn declared(model: &Model, held: Held) -> Option<&Decl>
    ensures { option_map decl_view (option_copied result) ≡ opened (model_view model.now) held }
{
    if held.levels == 0 {
        return None;
    }
    declaration(model, held.class)
}

impl Counting {
    /// There is no room.
    fn is_over(&self) -> bool
        ensures { result ≡ is_over self.now }
    {
        self.processes >= FULL_PROCESSES || self.channels > MOST_CHANNELS
    }

    /// Adds what the instance is, to be counted down to so many levels.
    fn hold(
        &mut self,
        model: &Model,
        classes: &Classes,
        levels: usize,
        instance: &Instance,
    ) -> Result<(), AllocError>
        requires { AreClasses (model_view model.now) classes.now }
        ensures left { OnOk result (self.new.left.items ≡ self.old.left.items ++ held_by
            (model_view model.now) levels instance.now) }
        ensures processes { OnOk result (self.new.processes ≡ self.old.processes) }
        ensures channels { OnOk result (self.new.channels ≡ self.old.channels) }
    {
        match class_of_instance(model, classes, &instance.class.name) {
            Some(class) => {
                let class = class.0;
                self.left.push(Held { class, levels })?;
                Ok(())
            }
            None => Ok(()),
        }
    }

    /// Adds all these instances.
    fn hold_all(
        &mut self,
        model: &Model,
        classes: &Classes,
        levels: usize,
        instances: &[Instance],
    ) -> Result<(), AllocError>
        requires { AreClasses (model_view model.now) classes.now }
        ensures left { OnOk result (self.new.left.items ≡ self.old.left.items ++ held
            (model_view model.now) levels instances.now) }
        ensures processes { OnOk result (self.new.processes ≡ self.old.processes) }
        ensures channels { OnOk result (self.new.channels ≡ self.old.channels) }
    {
        for instance in instances {
            self.hold(model, classes, levels, instance)?;
        }
        Ok(())
    }

    /// Counts one of what is declared; what stands in it is left, down to so many levels.
    fn count(
        &mut self,
        model: &Model,
        classes: &Classes,
        levels: usize,
        decl: &Decl,
    ) -> Result<(), AllocError>
        requires classes { AreClasses (model_view model.now) classes.now }
        requires processes { self.old.processes < 10000 }
        requires channels { self.old.channels ≤ 900000 }
        ensures left { OnOk result (self.new.left.items ≡ self.old.left.items ++ held
            (model_view model.now) levels (spec.instances (decl_view decl.now))) }
        ensures processes { OnOk result (self.new.processes ≡ self.old.processes +
            (if kinds.is_process (decl_view decl.now) then 1 else 0)) }
        ensures channels { OnOk result (self.new.channels ≡ self.old.channels +
            length (spec.channels (decl_view decl.now))) }
    {
        if is_process(decl) {
            self.processes += 1;
        }
        self.channels += channels_of(decl).len();
        self.hold_all(model, classes, levels, instances_of(decl))
    }
}

/// Whether one of what is declared, with all that it holds, leaves no room. The only error is want of
/// memory.
fn is_large(
    alloc: Global,
    model: &Model,
    classes: &Classes,
    decl: &Decl,
) -> Result<bool, AllocError>
    requires { AreClasses (model_view model.now) classes.now }
    ensures { IfOk result (λ large. large ≡ is_above (size_of (model_view model.now)
        (decl_view decl.now))) }
{
    let mut counting = Counting {
        processes: 0,
        channels: 0,
        left: Vec::new(alloc),
    };
    counting.count(model, classes, model.decls.len(), decl)?;
    loop {
        if counting.is_over() {
            return Ok(true);
        }
        let Some(held) = counting.left.pop() else {
            return Ok(false);
        };
        if let Some(decl) = declared(model, held) {
            counting.count(model, classes, held.levels - 1, decl)?;
        }
    }
}

/// The same of a system; nothing else is asked.
fn is_large_system(
    alloc: Global,
    model: &Model,
    classes: &Classes,
    decl: &Decl,
) -> Result<bool, AllocError>
    requires { AreClasses (model_view model.now) classes.now }
    ensures { IfOk result (λ large. large ≡ list_any (λ s. is_above
        (system_size (model_view model.now) s)) (system_of (decl_view decl.now))) }
{
    match decl {
        Decl::System(_) => is_large(alloc, model, classes, decl),
        _ => Ok(false),
    }
}

/// Whether a system of the model is so large that an environment does not fit. The only error is want
/// of memory.
pub(crate) fn has_large_system(
    alloc: Global,
    model: &Model,
    classes: &Classes,
) -> Result<bool, AllocError>
    requires { AreClasses (model_view model.now) classes.now }
    ensures { IfOk result (λ large. large ≡ list_any (λ s. is_above
        (system_size (model_view model.now) s)) (systems (model_view model.now))) }
{
    for decl in model.decls.as_slice() {
        if is_large_system(alloc, model, classes, decl)? {
            return Ok(true);
        }
    }
    Ok(false)
}
