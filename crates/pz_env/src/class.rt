// The class of an environment.

ghost use Rattle.std.specs.Prelude.{◌≡◌, ◌++◌, ◌∷◌, ◌<◌, ◌≤◌, ◌^◌, ◌-◌, [], None, suc, length, map, if◌then◌else◌, IfOk, OnOk};
ghost use Rattle.pz_syntax.specs.Expressions.{none};
ghost use Rattle.pz_syntax.specs.ClassView.{process_class_view, process_method_view, start_view};
ghost use Rattle.pz_syntax.specs.StatementView as statement;
ghost use Rattle.pz_env_tree.specs.pz_env_rules.Environment.{lines_of};
ghost use Rattle.pz_env_tree.specs.pz_env_rules.Ends.{first_mentions};
ghost use Rattle.pz_env_tree.specs.Names.{port_of, method_name, variable_name, kind_name};
ghost use Rattle.pz_env_tree.specs.EnvironmentClass.{environment_class, first_messages, message_of, named, statements};
ghost use Rattle.pz_env.specs.devices.Ends.{ends_in, has_end, number_of, with_end, end_of_entry};
ghost use Rattle.pz_env.specs.devices.Said.{said_in, said_by_entry, has_said, with_said};
ghost use Rattle.pz_env.specs.devices.Making.{port_at, message_at, statements_at, place_at};

use crate::ends::EndSet;
use crate::messages::{SaidSet, add_message};
use crate::names::{CLASS, FIRST, KIND, METHOD, VARIABLE, id, port_id};
use crate::statements::{exchange, waiting};
use pz_env_tree::pz_env_script::Entry;
use pz_syntax::pz_items::Items;
use pz_syntax::{Id, Message, Pos, ProcessClass, ProcessMethod, Start, Stmt, VarGroup};
use std::alloc::{AllocError, Global};

/// What is made of the class, line after line: the ends that have been mentioned with a port for each,
/// what has been said with its declarations, and the statements.
#[derive(Drop)]
struct Making<'a> {
    ends: EndSet<'a>,
    said: SaidSet<'a>,
    ports: Items<Id>,
    messages: Items<Message>,
    body: Items<Stmt>,
}

/// Adds the port of this number, if it is new. The only error is want of memory.
fn add_port(
    alloc: Global,
    ports: &mut Items<Id>,
    number: usize,
    is_new: bool,
    at: Pos,
) -> Result<(), AllocError>
    ensures { OnOk result (ports.new ≡ (if is_new then ports.old ++ port_at at number ∷ [] else
        ports.old)) }
{
    if is_new {
        ports.push(port_id(alloc, number, at)?)?;
    }
    Ok(())
}

/// Adds the two statements of a line. The only error is want of memory.
fn add_statements(
    alloc: Global,
    body: &mut Items<Stmt>,
    number: usize,
    at: Pos,
    entry: &Entry,
) -> Result<(), AllocError>
    ensures { OnOk result (map statement.view body.new ≡ map statement.view body.old ++
        statements_at at number entry.now) }
{
    let port = port_id(alloc, number, at)?;
    let second = exchange(alloc, at, port, &entry.message, &entry.transfer)?;
    body.push(waiting(at, entry.wait))?;
    body.push(second)?;
    Ok(())
}

impl<'a> Making<'a> {
    /// Adds what a line asks for. The only error is want of memory.
    fn add(&mut self, alloc: Global, at: Pos, entry: &'a Entry) -> Result<(), AllocError>
        ensures ends { OnOk result (ends_in self.new.ends ≡ with_end (ends_in self.old.ends)
            (end_of_entry entry.now)) }
        ensures ports { OnOk result (self.new.ports ≡
            (if has_end (ends_in self.old.ends) (end_of_entry entry.now) then self.old.ports else
            self.old.ports ++ port_at at (number_of (ends_in self.old.ends)
            (end_of_entry entry.now)) ∷ [])) }
        ensures said { OnOk result (said_in self.new.said ≡ with_said (said_in self.old.said)
            (said_by_entry entry.now)) }
        ensures messages { OnOk result (self.new.messages ≡
            (if has_said (said_in self.old.said) (said_by_entry entry.now) then
            self.old.messages else self.old.messages ++
            message_at at (number_of (ends_in self.old.ends) (end_of_entry entry.now)) entry.now
            ∷ [])) }
        ensures body { OnOk result (map statement.view self.new.body ≡
            map statement.view self.old.body ++ statements_at at (number_of
            (ends_in self.old.ends) (end_of_entry entry.now)) entry.now) }
    {
        let instance = entry.instance.as_str().as_bytes();
        let end = self.ends.add(instance, entry.port.as_str().as_bytes())?;
        add_port(alloc, &mut self.ports, end.number, end.is_new, at)?;
        let (said, messages) = (&mut self.said, &mut self.messages);
        add_message(alloc, said, messages, end.number, at, entry)?;
        add_statements(alloc, &mut self.body, end.number, at, entry)
    }

    /// The ports, the messages and the statements.
    fn into_parts(self) -> (Items<Id>, Items<Message>, Items<Stmt>)
        ensures { result ≡ (self.entry.ports, self.entry.messages, self.entry.body) }
    {
        (self.ports, self.messages, self.body)
    }
}

/// The place of the line at this index, from 0.
pub(crate) fn place_of(index: usize) -> Pos
    requires { index < 2 ^ 32 - 1 }
    ensures { result ≡ place_at (suc index) }
{
    Pos {
        line: index as u32 + 1,
        column: 1,
    }
}

/// What the lines of a script ask for. The only error is want of memory.
fn made_of<'a>(alloc: Global, entries: &'a [Entry]) -> Result<Making<'a>, AllocError>
    requires few { length entries.now ≤ 100000 }
    ensures ports { IfOk result (λ made. made.ports ≡ map (port_of (lines_of entries.now))
        (first_mentions (lines_of entries.now))) }
    ensures messages { IfOk result (λ made. made.messages ≡
        map (message_of (lines_of entries.now)) (first_messages (lines_of entries.now))) }
    ensures body { IfOk result (λ made. statement.sequence_view made.body ≡
        statements (lines_of entries.now) (lines_of entries.now)) }
{
    let mut made = Making {
        ends: EndSet::new(alloc),
        said: SaidSet::new(alloc),
        ports: Items::new(alloc),
        messages: Items::new(alloc),
        body: Items::new(alloc),
    };
    for (index, entry) in entries.iter().enumerate() {
        made.add(alloc, place_of(index), entry)?;
    }
    Ok(made)
}

/// The one method, with this body. The only error is want of memory.
fn method_with(alloc: Global, body: Items<Stmt>) -> Result<ProcessMethod, AllocError>
    ensures { IfOk result (λ m. process_method_view m ≡ record {
      name = named method_name;
      inputs = [];
      outputs = [];
      locals = None;
      body = statement.sequence_view body;
    }) }
{
    Ok(ProcessMethod {
        name: id(alloc, METHOD, FIRST)?,
        inputs: Items::new(alloc),
        outputs: Items::new(alloc),
        locals: None,
        body,
    })
}

/// The declaration of the one variable. The only error is want of memory.
fn variables(alloc: Global) -> Result<Items<VarGroup>, AllocError>
    ensures { IfOk result (λ groups. groups ≡ record {
      names = named variable_name ∷ [];
      kind = named kind_name;
    } ∷ []) }
{
    let mut names = Items::new(alloc);
    names.push(id(alloc, VARIABLE, FIRST)?)?;
    let kind = id(alloc, KIND, FIRST)?;
    let mut groups = Items::new(alloc);
    groups.push(VarGroup { names, kind })?;
    Ok(groups)
}

/// The call with which it starts. The only error is want of memory.
fn start(alloc: Global) -> Result<Start, AllocError>
    ensures { IfOk result (λ s. start_view s ≡ record {
      method = named method_name;
      args = none;
    }) }
{
    let method = id(alloc, METHOD, FIRST)?;
    Ok(Start {
        method,
        args: Items::new(alloc),
    })
}

/// The class of the environment that does these entries. The only error is want of memory.
pub(crate) fn environment_class(
    alloc: Global,
    entries: &[Entry],
) -> Result<ProcessClass, AllocError>
    requires few { length entries.now ≤ 100000 }
    ensures { IfOk result (λ c. process_class_view c ≡
        environment_class (lines_of entries.now)) }
{
    let (ports, messages, body) = made_of(alloc, entries)?.into_parts();
    let mut methods = Items::new(alloc);
    methods.push(method_with(alloc, body)?)?;
    let variables = variables(alloc)?;
    let start = start(alloc)?;
    let name = id(alloc, CLASS, FIRST)?;
    Ok(ProcessClass {
        name,
        parameters: None,
        parent: None,
        ports: Some(ports),
        messages: Some(messages),
        variables: Some(variables),
        start: Some(start),
        methods: Some(methods),
    })
}
