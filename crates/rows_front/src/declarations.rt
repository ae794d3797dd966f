//! What stands in declarations: how much is mentioned in their parts, messages, instances and what
//! they are given, and channels.

ghost use Rattle.std.specs.Prelude.{◌+◌, ◌-◌, ◌^◌, min};

use pz_bind::pz_classes::{channels_of, instances_of};
use pz_classes_code::pz_items::Items;
use pz_classes_code::pz_syntax::{
    Arg, Channel, ChannelEnd, Decl, Given, Id, Instance, Message, Model, VarGroup,
};
use pz_classes_mentions::{Listener, Part, Word, parts_of};
use std::io;

/// Counts the words that it is told.
#[derive(Drop)]
struct Counter;

impl Listener for Counter {
    type Heard = usize;

    ghost listens = { λ c. Unit };

    ghost after = { λ c count word. min (count + 1) (2 ^ 64 - 1) };

    fn hear(&self, heard: usize, _: Word) -> usize {
        heard.saturating_add(1)
    }
}

fn count_names(groups: &[VarGroup]) -> usize {
    let mut count: usize = 0;
    for group in groups {
        count = count.saturating_add(group.names.len());
    }
    count
}

fn show_parts(rt: &HostRuntime, parts: &[Part]) -> io::Result<()> {
    for part in parts {
        let declared = part.locals();
        let locals = count_names(declared.inputs)
            .saturating_add(count_names(declared.outputs))
            .saturating_add(count_names(declared.others));
        let mentions = part.tell(&Counter, 0);
        println!(rt; "  part: {locals} locals, {mentions} mentions")?;
    }
    Ok(())
}

/// What it is, and a copy of its name and place.
fn show_id(rt: &HostRuntime, what: &str, id: &Id) -> io::Result<()> {
    let Id { name, pos } = id.copy()?;
    println!(rt; "  {what} {} at {}:{}", name.as_str(), pos.line, pos.column)
}

fn show_message(rt: &HostRuntime, message: &Message) -> io::Result<()> {
    let way = if message.out { "goes out" } else { "comes in" };
    show_id(rt, "message", &message.name)?;
    match &message.types {
        None => println!(rt; "    {way} without brackets"),
        Some(types) => println!(rt; "    {way} with {} types", types.len()),
    }
}

fn show_messages(rt: &HostRuntime, messages: &Option<Items<Message>>) -> io::Result<()> {
    if let Some(messages) = messages {
        for message in messages.as_slice() {
            show_message(rt, message)?;
        }
    }
    Ok(())
}

fn show_given(rt: &HostRuntime, given: &Given) -> io::Result<()> {
    let name = given.name.name.as_str();
    match &given.arg {
        Arg::Plain(_, pos) => println!(rt; "    {name}: a literal at {}:{}", pos.line, pos.column),
        Arg::Negated(number, pos) => {
            println!(rt;
                "    {name}: {number} negated at {}:{}",
                pos.line, pos.column
            )
        }
        Arg::Parameter(id) => println!(rt; "    {name}: {}", id.name.as_str()),
    }
}

fn show_instance(rt: &HostRuntime, instance: &Instance) -> io::Result<()> {
    show_id(rt, "instance", &instance.name)?;
    if let Some(givens) = &instance.given {
        for given in givens.as_slice() {
            show_given(rt, given)?;
        }
    }
    Ok(())
}

fn show_end(rt: &HostRuntime, end: &ChannelEnd) -> io::Result<()> {
    match end {
        ChannelEnd::Inner(part, port) => {
            println!(rt; "    port {} of {}", port.name.as_str(), part.name.as_str())
        }
        ChannelEnd::Outer(port) => println!(rt; "    port {} of the cluster", port.name.as_str()),
    }
}

fn show_channel(rt: &HostRuntime, channel: &Channel) -> io::Result<()> {
    println!(rt; "  channel at {}:{}", channel.pos.line, channel.pos.column)?;
    for end in channel.ends.as_slice() {
        show_end(rt, end)?;
    }
    Ok(())
}

fn show_inside(rt: &HostRuntime, decl: &Decl) -> io::Result<()> {
    for instance in instances_of(decl) {
        show_instance(rt, instance)?;
    }
    for channel in channels_of(decl) {
        show_channel(rt, channel)?;
    }
    Ok(())
}

fn show_declaration(rt: &HostRuntime, decl: &Decl) -> io::Result<()> {
    let parts = parts_of(rt.alloc(), decl)?;
    show_parts(rt, parts.as_slice())?;
    if let Decl::Process(class) = decl {
        return show_messages(rt, &class.messages);
    }
    show_inside(rt, decl)
}

/// The declarations of a model.
pub fn show_declarations(rt: &HostRuntime, model: &Model) -> io::Result<()> {
    for decl in model.decls.as_slice() {
        show_declaration(rt, decl)?;
    }
    Ok(())
}
