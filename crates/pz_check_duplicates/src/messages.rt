// Messages that repeat one another.

ghost use Rattle.std.specs.Prelude.{◌≡◌, [], length, map, IfOk};
ghost use Rattle.std.specs.Option.{unwrap_or};
ghost use Rattle.pz_classes.specs.pz_syntax.ClassView.{decl_view};
ghost use Rattle.pz_check_violations.specs.Least.{least_from};
ghost use Rattle.pz_classes.specs.pz_classes_rules.CallRules.{own_messages};
ghost use Rattle.pz_classes.specs.pz_classes_rules.RepeatRules.{same_message};
ghost use Rattle.pz_check_duplicates.specs.devices.Again.{repeats};
ghost use Rattle.pz_check_duplicates.specs.devices.Signals.{signal, signal_of, message_place};

use crate::again::least_again;
use crate::places::Thing;
use pz_check_violations::Violation;
use pz_classes::pz_items::Items;
use pz_classes::pz_syntax::{Decl, Id, Message};
use std::alloc::{AllocError, Global};

/// A message, by its port, its direction, its name and how many parameters it has.
#[derive(Clone, Copy, Debug, PartialEq, Eq, Hash)]
pub(crate) struct MessageKey<'a> {
    port: &'a [u8],
    out: bool,
    name: &'a [u8],
    count: usize,
}

/// How many these are, none where nothing is written.
fn count_types(types: &Option<Items<Id>>) -> usize
    ensures { result ≡ length (unwrap_or types.now []) }
{
    match types {
        Some(types) => types.len(),
        None => 0,
    }
}

fn messages_of(decl: &Decl) -> &[Message]
    ensures { result.now ≡ own_messages (decl_view decl.now) }
{
    match decl {
        Decl::Process(class) => match &class.messages {
            Some(messages) => messages.as_slice(),
            None => &[],
        },
        _ => &[],
    }
}

fn message_things<'a>(
    alloc: Global,
    messages: &'a [Message],
) -> Result<Items<Thing<MessageKey<'a>>>, AllocError>
    ensures { IfOk result (λ things. map signal_of things ≡ map signal messages.now) }
{
    let mut things = Items::new(alloc);
    for message in messages {
        things.push(Thing {
            key: MessageKey {
                port: message.port.name.as_str().as_bytes(),
                out: message.out,
                name: message.name.name.as_str().as_bytes(),
                count: count_types(&message.types),
            },
            place: message.name.pos,
        })?;
    }
    Ok(things)
}

/// The least of what was found before and the messages that repeat one of the same class. The only
/// error is want of memory.
pub(crate) fn least_message(
    alloc: Global,
    decl: &Decl,
    before: Option<Violation>,
) -> Result<Option<Violation>, AllocError>
    ensures { IfOk result (λ least. least ≡ least_from before
        (repeats same_message message_place 4 (own_messages (decl_view decl.now)))) }
{
    let things = message_things(alloc, messages_of(decl))?;
    least_again(alloc, 4, things.as_slice(), before)
}
