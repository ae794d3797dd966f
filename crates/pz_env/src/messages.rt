// Messages that have been declared, each once.

ghost use Rattle.std.specs.Prelude.{◌≡◌, ◌++◌, ◌∷◌, [], not, length, if◌then◌else◌, IfOk, OnOk};
ghost use Rattle.pz_syntax.specs.declared.tokens.Pos.{Pos};
ghost use Rattle.pz_env_tree.specs.pz_env_script.Entries.{count_in};
ghost use Rattle.pz_env_tree.specs.EnvironmentClass.{is_sent};
ghost use Rattle.pz_env.specs.devices.Said.{said_in, said_by, said_by_entry, has_said, with_said};
ghost use Rattle.pz_env.specs.devices.Making.{message_at};

use crate::names::{KIND, id_list, id_of, port_id};
use indexmap::IndexSet;
use pz_env_tree::pz_env_script::{Entry, Transfer};
use pz_syntax::pz_items::Items;
use pz_syntax::{Message, Pos};
use std::alloc::{AllocError, Global};

/// What is sent or received over an end, by names, with how many values.
#[derive(Clone, Copy, Debug, PartialEq, Eq, Hash)]
pub(crate) struct Said<'a> {
    instance: &'a [u8],
    port: &'a [u8],
    message: &'a [u8],
    out: bool,
    count: usize,
}

/// What has been said.
#[derive(Drop)]
pub(crate) struct SaidSet<'a> {
    set: IndexSet<Said<'a>>,
}

/// Whether the entry sends.
fn is_sent(transfer: &Transfer) -> bool
    ensures { result ≡ is_sent transfer.now }
{
    match transfer {
        Transfer::Send(_) => true,
        Transfer::Receive(_) => false,
    }
}

/// How many values it sends or receives.
fn count_of(transfer: &Transfer) -> usize
    ensures { result ≡ count_in transfer.now }
{
    match transfer {
        Transfer::Send(values) => values.len(),
        Transfer::Receive(count) => *count as usize,
    }
}

impl<'a> SaidSet<'a> {
    /// Nothing yet. Takes no memory.
    pub(crate) fn new(alloc: Global) -> SaidSet<'a>
        ensures { said_in result ≡ [] }
    {
        SaidSet {
            set: IndexSet::new(alloc),
        }
    }

    /// Adds this, and tells whether it is new. The only error is want of memory.
    fn insert(&mut self, key: Said<'a>) -> Result<bool, AllocError>
        ensures added { OnOk result (said_in self.new ≡ with_said (said_in self.old)
            (said_by key.entry)) }
        ensures fresh { IfOk result (λ is_new. is_new ≡ not (has_said (said_in self.old)
            (said_by key.entry))) }
    {
        let (_number, is_new) = self.set.insert_full(key)?;
        Ok(is_new)
    }
}

/// What the entry says.
fn said_of<'a>(entry: &'a Entry) -> Said<'a>
    ensures { said_by result ≡ said_by_entry entry.now }
{
    Said {
        instance: entry.instance.as_str().as_bytes(),
        port: entry.port.as_str().as_bytes(),
        message: entry.message.as_str().as_bytes(),
        out: is_sent(&entry.transfer),
        count: count_of(&entry.transfer),
    }
}

/// The declaration of what the entry says over the port of this number. The only error is want of
/// memory.
fn declaration(alloc: Global, number: usize, at: Pos, entry: &Entry) -> Result<Message, AllocError>
    ensures { IfOk result (λ m. m ≡ message_at at number entry.now) }
{
    let types = id_list(alloc, KIND, at, count_of(&entry.transfer))?;
    let name = id_of(&entry.message, at)?;
    Ok(Message {
        port: port_id(alloc, number, at)?,
        out: is_sent(&entry.transfer),
        name,
        types,
    })
}

/// Declares what the entry says, unless it is declared. The only error is want of memory.
pub(crate) fn add_message<'a>(
    alloc: Global,
    said: &mut SaidSet<'a>,
    messages: &mut Items<Message>,
    number: usize,
    at: Pos,
    entry: &'a Entry,
) -> Result<(), AllocError>
    ensures said { OnOk result (said_in said.new ≡ with_said (said_in said.old)
        (said_by_entry entry.now)) }
    ensures messages { OnOk result (messages.new ≡
        (if has_said (said_in said.old) (said_by_entry entry.now) then messages.old else
        messages.old ++ message_at at number entry.now ∷ [])) }
{
    if said.insert(said_of(entry))? {
        messages.push(declaration(alloc, number, at, entry)?)?;
    }
    Ok(())
}
