// Messages that classes declare, in nested scopes.

ghost use Rattle.std.specs.Prelude.{◌≡◌, [], ◌∷◌, ◌++◌, List, length, OnOk};
ghost use Rattle.std.specs.Option.{unwrap_or};
ghost use Rattle.pz_classes_code.specs.pz_syntax.declared.classes.Message.{Message as Declared};
ghost use Rattle.pz_check_names.specs.devices.Shown.{ShowsMessages};

use pz_check_scopes::Nested;
use pz_classes_code::pz_items::Items;
use pz_classes_code::pz_syntax::{Id, Message, Name};
use std::alloc::AllocError;

/// A message as it is sent or received: on which port, in which direction, by which name and with
/// how many parameters.
#[derive(Clone, Copy, PartialEq, Eq, Hash)]
pub(crate) struct Signal<'a> {
    port: &'a [u8],
    out: bool,
    name: &'a [u8],
    count: usize,
}

impl<'a> Signal<'a> {
    pub(crate) fn new(port: &'a Name, out: bool, name: &'a Name, count: usize) -> Self
        ensures on { result.port.now ≡ port.now }
        ensures directed { result.out ≡ out }
        ensures named { result.name.now ≡ name.now }
        ensures counted { result.count ≡ count }
    {
        Signal {
            port: port.as_str().as_bytes(),
            out,
            name: name.as_str().as_bytes(),
            count,
        }
    }
}

/// How many these are, none where nothing is written.
fn count_types(types: &Option<Items<Id>>) -> usize
    ensures { result ≡ length (unwrap_or types.now []) }
{
    match types {
        Some(types) => types.len(),
        None => 0,
    }
}

fn note_each<'a>(
    noted: &mut Nested<Signal<'a>, ()>,
    messages: &'a [Message],
) -> Result<(), AllocError>
    ensures { (own : List Declared) (outer : List (List Declared)) →
        ShowsMessages (own ∷ outer) noted.old → OnOk result
        (ShowsMessages ((own ++ messages.now) ∷ outer) noted.new) }
{
    for message in messages {
        let count = count_types(&message.types);
        let signal = Signal::new(&message.port.name, message.out, &message.name.name, count);
        noted.note(signal, ())?;
    }
    Ok(())
}

/// Notes these messages, if they are written. The only error is want of memory.
pub(crate) fn note_messages<'a>(
    noted: &mut Nested<Signal<'a>, ()>,
    messages: &'a Option<Items<Message>>,
) -> Result<(), AllocError>
    ensures { (own : List Declared) (outer : List (List Declared)) →
        ShowsMessages (own ∷ outer) noted.old → OnOk result
        (ShowsMessages ((own ++ unwrap_or messages.now []) ∷ outer) noted.new) }
{
    match messages {
        Some(messages) => note_each(noted, messages.as_slice()),
        None => Ok(()),
    }
}
