// The classes of a model as far as instances stand in them.

ghost use Rattle.std.specs.Prelude.{◌≡◌, ◌++◌, IfOk, OnOk};
ghost use Rattle.pz_classes.specs.pz_syntax.ClassView.{decl_view, model_view};
ghost use Rattle.pz_classes.specs.devices.Rows.{AreClasses};
ghost use Rattle.pz_check_size.specs.devices.Nodes as spec;

use crate::totals::Totals;
use pz_classes::pz_items::Items;
use pz_classes::pz_syntax::{Decl, Instance, Model, Pos};
use pz_classes::{Classes, channels_of, class_of_instance, instances_of, is_cluster};
use std::alloc::{AllocError, Global};

/// An instance that stands in a class: the number of its own class, and the place where that is
/// named.
#[derive(Clone, Copy, Debug, PartialEq, Eq)]
pub(crate) struct Held {
    pub(crate) class: u32,
    pub(crate) pos: Pos,
}

/// What stands in a class.
#[derive(Drop)]
pub(crate) struct Node {
    /// One of the class, without its instances.
    pub(crate) own: Totals,
    pub(crate) is_cluster: bool,
    pub(crate) held: Items<Held>,
}

/// Adds the instance, if its class may have instances. The only error is want of memory.
fn push_held(
    held: &mut Items<Held>,
    model: &Model,
    classes: &Classes,
    instance: &Instance,
) -> Result<(), AllocError>
    requires { AreClasses (model_view model.now) classes.now }
    ensures { OnOk result (held.new ≡ held.old ++ spec.held_of
        (model_view model.now) instance.now) }
{
    match class_of_instance(model, classes, &instance.class.name) {
        Some(class) => held.push(Held {
            class: class.0,
            pos: instance.class.pos,
        }),
        None => Ok(()),
    }
}

/// The instances whose class may have instances. The only error is want of memory.
fn held_of(
    alloc: Global,
    model: &Model,
    classes: &Classes,
    instances: &[Instance],
) -> Result<Items<Held>, AllocError>
    requires { AreClasses (model_view model.now) classes.now }
    ensures { IfOk result (λ hs. hs ≡ spec.all_held (model_view model.now) instances.now) }
{
    let mut held = Items::new(alloc);
    for instance in instances {
        push_held(&mut held, model, classes, instance)?;
    }
    Ok(held)
}

/// One of what is declared, without its instances.
fn own_totals(decl: &Decl) -> Totals
    ensures { result ≡ spec.own_totals (decl_view decl.now) }
{
    match decl {
        Decl::Data(_) => Totals::nothing(),
        Decl::Process(_) => Totals {
            processes: 1,
            clusters: 0,
            channels: 0,
        },
        Decl::Cluster(_) => Totals {
            processes: 0,
            clusters: 1,
            channels: Totals::count_channels(channels_of(decl)),
        },
        Decl::System(_) => Totals {
            processes: 0,
            clusters: 0,
            channels: Totals::count_channels(channels_of(decl)),
        },
    }
}

/// What stands in the class that is declared. The only error is want of memory.
fn node_of(alloc: Global, model: &Model, classes: &Classes, decl: &Decl) -> Result<Node, AllocError>
    requires { AreClasses (model_view model.now) classes.now }
    ensures { IfOk result (λ n. n ≡ spec.node_of (model_view model.now) (decl_view decl.now)) }
{
    Ok(Node {
        own: own_totals(decl),
        is_cluster: is_cluster(decl),
        held: held_of(alloc, model, classes, instances_of(decl))?,
    })
}

/// What stands in each class, by its number; nothing in Array. The only error is want of memory.
pub(crate) fn nodes_of(
    alloc: Global,
    model: &Model,
    classes: &Classes,
) -> Result<Items<Node>, AllocError>
    requires { AreClasses (model_view model.now) classes.now }
    ensures { IfOk result (λ ns. ns ≡ spec.nodes (model_view model.now)) }
{
    let mut nodes = Items::new(alloc);
    nodes.push(Node {
        own: Totals::nothing(),
        is_cluster: false,
        held: Items::new(alloc),
    })?;
    for decl in model.decls.as_slice() {
        nodes.push(node_of(alloc, model, classes, decl)?)?;
    }
    Ok(nodes)
}
