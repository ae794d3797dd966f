//! The processes and the wires of a model's system.

ghost use Rattle.pz_classes_code.specs.pz_syntax.ClassView.{model_view};
ghost use Rattle.pz_classes_code.specs.pz_syntax.ModelText.{HasFewMarks};
ghost use Rattle.pz_bind.specs.NetView.{HasProcess, IsWireOf};

use crate::checking::{check_model, show_error};
use pz_bind::pz_classes::Checked;
use pz_bind::{Net, Value};
use pz_classes_code::pz_syntax::{Model, Name};
use std::io;

/// Bytes that are a name, a path or a string.
fn text_of(bytes: &[u8]) -> &str {
    std::str::from_utf8(bytes).unwrap_or("no text")
}

fn show_value(rt: &HostRuntime, value: &Value) -> io::Result<()> {
    match value {
        Value::Nil => print!(rt; " nil"),
        Value::Bool(is) => print!(rt; " {is}"),
        Value::Int(number) => print!(rt; " {number}"),
        Value::Char(byte) => print!(rt; " byte {byte}"),
        Value::Str(text) => print!(rt; " text {}", text_of(text.as_bytes())),
        Value::Ref(_) => print!(rt; " a reference"),
    }
}

fn show_values(rt: &HostRuntime, values: &[Value]) -> io::Result<()> {
    for value in values {
        show_value(rt, value)?;
    }
    Ok(())
}

/// The wire of a port.
fn show_port(rt: &HostRuntime, net: &Net, process: u32, number: u32, name: &Name) -> io::Result<()>
    requires { HasProcess net.now process }
{
    let name = name.as_str();
    match net.wire(process, number) {
        Some(wire) => print!(rt; ", {name} has wire {wire}"),
        None => print!(rt; ", {name} has none"),
    }
}

fn show_ports(rt: &HostRuntime, checked: &Checked, net: &Net, process: u32) -> io::Result<()>
    requires { HasProcess net.now process }
{
    let classes = checked.classes();
    let class = net.class(process);
    if (class.0 as usize) < classes.count() {
        let ports = classes.ports(class);
        for number in 0..ports.len() {
            if let Some(name) = ports.name(number) {
                show_port(rt, net, process, number, name)?;
            }
        }
    }
    Ok(())
}

/// A process: its path, its class, its values and the wires of its ports.
fn show_process(rt: &HostRuntime, checked: &Checked, net: &Net, process: u32) -> io::Result<()>
    requires { HasProcess net.now process }
{
    let path = text_of(net.path(process));
    let class = net.class(process).0;
    print!(rt; "process {process} {path} of class {class}:")?;
    show_values(rt, net.values(process))?;
    show_ports(rt, checked, net, process)?;
    println!(rt)
}

fn show_wire(rt: &HostRuntime, net: &Net, wire: u32) -> io::Result<()>
    requires { IsWireOf net.now wire }
{
    let name = text_of(net.wire_name(wire));
    println!(rt; "wire {wire} {name}")
}

fn show_all(rt: &HostRuntime, checked: &Checked, net: &Net) -> io::Result<()> {
    for process in 0..net.processes() {
        show_process(rt, checked, net, process)?;
    }
    for wire in 0..net.wires() {
        show_wire(rt, net, wire)?;
    }
    Ok(())
}

fn show_flat(rt: &HostRuntime, checked: &Checked, net: &Net, whole: bool) -> io::Result<()> {
    if whole {
        show_all(rt, checked, net)?;
    }
    println!(rt; "{} processes, {} wires", net.processes(), net.wires())
}

fn show_checked(rt: &HostRuntime, checked: &Checked, whole: bool) -> io::Result<()> {
    match Net::flatten(rt.alloc(), checked) {
        Ok(net) => show_flat(rt, checked, &net, whole),
        Err(_) => println!(rt; "no memory"),
    }
}

/// How many processes and wires a model has; and all of them, where the whole is to be shown.
pub fn show_net(rt: &HostRuntime, model: Model, whole: bool) -> io::Result<()>
    requires { HasFewMarks (model_view model) }
{
    match check_model(rt.alloc(), model) {
        Ok(checked) => show_checked(rt, &checked, whole),
        Err(error) => {
            show_error(rt, error)?;
            println!(rt)
        }
    }
}
