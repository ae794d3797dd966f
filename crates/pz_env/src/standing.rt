// The ports of the instances of a system, and those of them that are in a channel.

ghost use Rattle.std.specs.Prelude.{◌≡◌, ◌<◌, ◌||◌, [], length, get_or, IfOk, OnOk};
ghost use Rattle.std.specs.List.{list_any};
ghost use Rattle.std.specs.Option.{option_map, option_copied};
ghost use Rattle.pz_syntax.specs.ClassView.{decl_view, model_view};
ghost use Rattle.pz_classes.specs.pz_classes_rules.Members as members;
ghost use Rattle.pz_classes.specs.pz_classes_rules.Members.{spelled};
ghost use Rattle.pz_classes.specs.devices.Rows.{AreClasses};
ghost use Rattle.pz_env_tree.specs.pz_bind_rules.Nest as nest;
ghost use Rattle.pz_env_tree.specs.pz_bind_rules.Connections.{is_inner};
ghost use Rattle.pz_env.specs.devices.Ends.{Named, ends_in, has_end};
ghost use Rattle.pz_env.specs.devices.Standing.{first_of, is_port_of, is_port_at, is_port_in, is_in_channel, is_connected};

use crate::ends::EndSet;
use pz_classes::{Classes, channels_of, class_of_instance, instances_of};
use pz_classes_code::NameFront;
use pz_classes_code::pz_value::ClassId;
use pz_syntax::{Channel, ChannelEnd, Decl, Instance, Model};
use std::alloc::{AllocError, Global};

/// The declaration of the system, the first one if there are several.
fn system_of(model: &Model) -> Option<&Decl>
    ensures { option_map decl_view (option_copied result) ≡ first_of (model_view model.now).decls }
{
    for decl in model.decls.as_slice() {
        if let Decl::System(_) = decl {
            return Some(decl);
        }
    }
    None
}

/// The instances that stand in the system.
pub(crate) fn system_instances(model: &Model) -> &[Instance]
    ensures { result.now ≡ nest.instances_at (model_view model.now) [] }
{
    match system_of(model) {
        Some(decl) => instances_of(decl),
        None => &[],
    }
}

/// The channels of the system.
pub(crate) fn system_channels(model: &Model) -> &[Channel]
    ensures { result.now ≡ nest.channels_at (model_view model.now) [] }
{
    match system_of(model) {
        Some(decl) => channels_of(decl),
        None => &[],
    }
}

/// The ports of an instance.
fn ports_of<'a>(model: &Model, classes: &'a Classes, instance: &Instance) -> &'a NameFront
    requires { AreClasses (model_view model.now) classes.now }
    ensures { result.now.names ≡ spelled (members.ports (model_view model.now)
        (nest.class_of (model_view model.now) instance.now)) }
{
    match class_of_instance(model, classes, &instance.class.name) {
        Some(class) => classes.ports(class),
        None => {
            let _count = classes.count();
            classes.ports(ClassId(0))
        }
    }
}

/// The name of the port at this place.
fn port_at(ports: &NameFront, place: u32) -> &[u8]
    requires { place < length ports.now.names }
    ensures { result.now ≡ get_or ports.now.names place [] }
{
    match ports.name(place) {
        Some(port) => port.as_str().as_bytes(),
        None => unreachable!(),
    }
}

/// Adds the ports of an instance of this name. The only error is want of memory.
fn add_ports<'a>(
    ends: &mut EndSet<'a>,
    instance: &'a [u8],
    ports: &'a NameFront,
) -> Result<(), AllocError>
    ensures { OnOk result ((e : Named) → has_end (ends_in ends.new) e ≡
        (has_end (ends_in ends.old) e || is_port_of instance.now ports.now.names e)) }
{
    for place in 0..ports.len() {
        ends.add(instance, port_at(ports, place))?;
    }
    Ok(())
}

/// Adds the ports of these instances. The only error is want of memory.
fn add_instances<'a>(
    ends: &mut EndSet<'a>,
    model: &Model,
    classes: &'a Classes,
    instances: &'a [Instance],
) -> Result<(), AllocError>
    requires { AreClasses (model_view model.now) classes.now }
    ensures { OnOk result ((e : Named) → has_end (ends_in ends.new) e ≡
        (has_end (ends_in ends.old) e || list_any (is_port_at (model_view model.now) e)
        instances.now)) }
{
    for instance in instances {
        let ports = ports_of(model, classes, instance);
        add_ports(ends, instance.name.name.as_str().as_bytes(), ports)?;
    }
    Ok(())
}

/// The ports of all instances of the system. The only error is want of memory.
pub(crate) fn system_ports<'a>(
    alloc: Global,
    model: &'a Model,
    classes: &'a Classes,
) -> Result<EndSet<'a>, AllocError>
    requires { AreClasses (model_view model.now) classes.now }
    ensures { IfOk result (λ ends. (e : Named) → has_end (ends_in ends) e ≡
        is_port_in (model_view model.now) e) }
{
    let mut ends = EndSet::new(alloc);
    add_instances(&mut ends, model, classes, system_instances(model))?;
    Ok(ends)
}

/// Adds an end of a channel, if it is a port of an instance. The only error is want of memory.
fn add_end<'a>(ends: &mut EndSet<'a>, end: &'a ChannelEnd) -> Result<(), AllocError>
    ensures { OnOk result ((e : Named) → has_end (ends_in ends.new) e ≡
        (has_end (ends_in ends.old) e || is_inner e.instance e.port end.now)) }
{
    if let ChannelEnd::Inner(instance, port) = end {
        let instance = instance.name.as_str().as_bytes();
        ends.add(instance, port.name.as_str().as_bytes())?;
    }
    Ok(())
}

/// Adds those of these ends that are ports of instances. The only error is want of memory.
fn add_ends<'a>(ends: &mut EndSet<'a>, listed: &'a [ChannelEnd]) -> Result<(), AllocError>
    ensures { OnOk result ((e : Named) → has_end (ends_in ends.new) e ≡
        (has_end (ends_in ends.old) e || list_any (is_inner e.instance e.port) listed.now)) }
{
    for end in listed {
        add_end(ends, end)?;
    }
    Ok(())
}

/// The same for the ends of these channels. The only error is want of memory.
fn add_channels<'a>(ends: &mut EndSet<'a>, channels: &'a [Channel]) -> Result<(), AllocError>
    ensures { OnOk result ((e : Named) → has_end (ends_in ends.new) e ≡
        (has_end (ends_in ends.old) e || list_any (is_in_channel e) channels.now)) }
{
    for channel in channels {
        add_ends(ends, channel.ends.as_slice())?;
    }
    Ok(())
}

/// The ports of instances that are in channels of the system. The only error is want of memory.
pub(crate) fn connected_ports<'a>(alloc: Global, model: &'a Model) -> Result<EndSet<'a>, AllocError>
    ensures { IfOk result (λ ends. (e : Named) → has_end (ends_in ends) e ≡
        is_connected (model_view model.now) e) }
{
    let mut ends = EndSet::new(alloc);
    add_channels(&mut ends, system_channels(model))?;
    Ok(ends)
}
