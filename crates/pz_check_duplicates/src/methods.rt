// Methods that repeat one another.

ghost use Rattle.std.specs.Prelude.{◌≡◌, ◌<◌, ◌^◌, length, map, All, IfOk};
ghost use Rattle.pz_classes.specs.pz_syntax.ClassView.{decl_view, data_method_view, process_method_view};
ghost use Rattle.pz_classes.specs.pz_syntax.ModelText.{decl_text};
ghost use Rattle.pz_check_violations.specs.Least.{least_from};
ghost use Rattle.pz_classes.specs.pz_classes_rules.Members.{grouped, section};
ghost use Rattle.pz_classes.specs.pz_classes_rules.RepeatRules.{data_heading, process_heading, headings, same_heading};
ghost use Rattle.pz_check_duplicates.specs.devices.Again.{repeats};
ghost use Rattle.pz_check_duplicates.specs.devices.Headings.{heading_of, heading_place};

use crate::again::least_again;
use crate::places::Thing;
use pz_check_violations::Violation;
use pz_classes::pz_items::Items;
use pz_classes::pz_syntax::{DataMethod, Decl, ProcessMethod};
use pz_classes::{count_names, count_section};
use std::alloc::{AllocError, Global};

/// A method, by its name and its counts.
#[derive(Clone, Copy, Debug, PartialEq, Eq, Hash)]
pub(crate) enum MethodKey<'a> {
    Data {
        name: &'a [u8],
        inputs: u32,
    },
    Process {
        name: &'a [u8],
        inputs: u32,
        outputs: u32,
    },
}

fn data_things<'a>(
    alloc: Global,
    methods: &'a [DataMethod],
) -> Result<Items<Thing<MethodKey<'a>>>, AllocError>
    requires { All (λ r. length (section r.inputs) < 2 ^ 32) methods.now }
    ensures { IfOk result (λ things. map heading_of things ≡ map data_heading
        (map data_method_view methods.now)) }
{
    let mut things = Items::new(alloc);
    for method in methods {
        things.push(Thing {
            key: MethodKey::Data {
                name: method.name.name.as_str().as_bytes(),
                inputs: count_section(&method.inputs),
            },
            place: method.name.pos,
        })?;
    }
    Ok(things)
}

fn process_things<'a>(
    alloc: Global,
    methods: &'a [ProcessMethod],
) -> Result<Items<Thing<MethodKey<'a>>>, AllocError>
    requires inputs { All (λ r. length (grouped r.inputs) < 2 ^ 32) methods.now }
    requires outputs { All (λ r. length (grouped r.outputs) < 2 ^ 32) methods.now }
    ensures { IfOk result (λ things. map heading_of things ≡ map process_heading
        (map process_method_view methods.now)) }
{
    let mut things = Items::new(alloc);
    for method in methods {
        things.push(Thing {
            key: MethodKey::Process {
                name: method.name.name.as_str().as_bytes(),
                inputs: count_names(method.inputs.as_slice()),
                outputs: count_names(method.outputs.as_slice()),
            },
            place: method.name.pos,
        })?;
    }
    Ok(things)
}

/// The methods of a class. The only error is want of memory.
fn method_things(alloc: Global, decl: &Decl) -> Result<Items<Thing<MethodKey>>, AllocError>
    requires { length (decl_text (decl_view decl.now)) < 2 ^ 32 }
    ensures { IfOk result (λ things. map heading_of things ≡ headings (decl_view decl.now)) }
{
    match decl {
        Decl::Data(class) => match &class.methods {
            Some(methods) => data_things(alloc, methods.as_slice()),
            None => Ok(Items::new(alloc)),
        },
        Decl::Process(class) => match &class.methods {
            Some(methods) => process_things(alloc, methods.as_slice()),
            None => Ok(Items::new(alloc)),
        },
        _ => Ok(Items::new(alloc)),
    }
}

/// The least of what was found before and the methods that repeat one of the same class. The only
/// error is want of memory.
pub(crate) fn least_method(
    alloc: Global,
    decl: &Decl,
    before: Option<Violation>,
) -> Result<Option<Violation>, AllocError>
    requires { length (decl_text (decl_view decl.now)) < 2 ^ 32 }
    ensures { IfOk result (λ least. least ≡ least_from before
        (repeats same_heading heading_place 4 (headings (decl_view decl.now)))) }
{
    let things = method_things(alloc, decl)?;
    least_again(alloc, 4, things.as_slice(), before)
}
