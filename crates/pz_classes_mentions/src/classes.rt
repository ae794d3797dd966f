// What the parts of declarations mention.

ghost use Rattle.std.specs.Prelude.{◌≡◌, [], option_map};
ghost use Rattle.std.specs.Option.{unwrap_or};
ghost use Rattle.pz_syntax.specs.ClassView.{start_view, data_method_view, data_class_view, process_method_view, process_class_view};
ghost use Rattle.pz_classes_mentions.specs.Declarations as parts;
ghost use Rattle.pz_classes_mentions.specs.Declarations.{extended, mentioned_message, mentioned_messages, mentioned_start};
ghost use Rattle.pz_classes_mentions.specs.Words.{told};

use crate::expressions::{count_exprs, tell_exprs};
use crate::groups::{section, tell_named_types, tell_types};
use crate::instances::tell_instances;
use crate::statements::tell_statements;
use crate::{Listener, Word};
use pz_syntax::pz_items::Items;
use pz_syntax::{
    ClusterClass, DataClass, DataMethod, Id, Message, ProcessClass, ProcessMethod, Start,
};

fn tell_extended<L: Listener>(listener: &L, heard: L::Heard, parent: &Option<Id>) -> L::Heard
    requires { L.listens listener.now }
    ensures { result ≡ told (L.after listener.now) heard (extended parent.now) }
{
    match parent {
        None => heard,
        Some(parent) => listener.hear(heard, Word::Extended(parent)),
    }
}

fn tell_message<L: Listener>(listener: &L, heard: L::Heard, message: &Message) -> L::Heard
    requires { L.listens listener.now }
    ensures { result ≡ told (L.after listener.now) heard (mentioned_message message.now) }
{
    let heard = listener.hear(heard, Word::Port(&message.port));
    match &message.types {
        None => heard,
        Some(types) => tell_named_types(listener, heard, types.as_slice()),
    }
}

#[tactic(auto, using(crate::proofs::Told::told_append))]
fn tell_each_message<L: Listener>(listener: &L, heard: L::Heard, messages: &[Message]) -> L::Heard
    requires { L.listens listener.now }
    ensures { result ≡ told (L.after listener.now) heard (mentioned_messages messages.now) }
{
    let mut heard = heard;
    for message in messages {
        heard = tell_message(listener, heard, message);
    }
    heard
}

/// Nothing where the section is not written.
fn tell_messages<L: Listener>(
    listener: &L,
    heard: L::Heard,
    messages: &Option<Items<Message>>,
) -> L::Heard
    requires { L.listens listener.now }
    ensures { result ≡ told (L.after listener.now) heard (mentioned_messages
        (unwrap_or messages.now [])) }
{
    match messages {
        None => heard,
        Some(messages) => tell_each_message(listener, heard, messages.as_slice()),
    }
}

fn tell_start<L: Listener>(listener: &L, heard: L::Heard, start: &Option<Start>) -> L::Heard
    requires { L.listens listener.now }
    ensures { result ≡ told (L.after listener.now) heard (mentioned_start
        (option_map start_view start.now)) }
{
    let Some(start) = start else {
        return heard;
    };
    let call = Word::Called {
        name: &start.method,
        inputs: count_exprs(start.args.as_slice()),
        outputs: 0,
    };
    let heard = listener.hear(heard, call);
    tell_exprs(listener, heard, start.args.as_slice())
}

#[tactic(auto, using(crate::proofs::Told::told_append))]
pub(crate) fn tell_data_head<L: Listener>(
    listener: &L,
    heard: L::Heard,
    class: &DataClass,
) -> L::Heard
    requires { L.listens listener.now }
    ensures { result ≡ told (L.after listener.now) heard
        (parts.data_head (data_class_view class.now)).mentions }
{
    let heard = listener.hear(heard, Word::Declared(&class.name));
    let heard = tell_extended(listener, heard, &class.parent);
    tell_types(listener, heard, section(&class.variables))
}

#[tactic(auto, using(crate::proofs::Told::told_append))]
pub(crate) fn tell_data_method<L: Listener>(
    listener: &L,
    heard: L::Heard,
    method: &DataMethod,
) -> L::Heard
    requires { L.listens listener.now }
    ensures { result ≡ told (L.after listener.now) heard
        (parts.data_method (data_method_view method.now)).mentions }
{
    let heard = tell_types(listener, heard, section(&method.inputs));
    let heard = listener.hear(heard, Word::Typed(&method.result));
    let heard = tell_types(listener, heard, section(&method.locals));
    tell_exprs(listener, heard, method.body.as_slice())
}

#[tactic(auto, using(crate::proofs::Told::told_append))]
pub(crate) fn tell_process_head<L: Listener>(
    listener: &L,
    heard: L::Heard,
    class: &ProcessClass,
) -> L::Heard
    requires { L.listens listener.now }
    ensures { result ≡ told (L.after listener.now) heard
        (parts.process_head (process_class_view class.now)).mentions }
{
    let heard = listener.hear(heard, Word::Declared(&class.name));
    let heard = tell_types(listener, heard, section(&class.parameters));
    let heard = tell_extended(listener, heard, &class.parent);
    let heard = tell_messages(listener, heard, &class.messages);
    let heard = tell_types(listener, heard, section(&class.variables));
    tell_start(listener, heard, &class.start)
}

#[tactic(auto, using(crate::proofs::Told::told_append))]
pub(crate) fn tell_process_method<L: Listener>(
    listener: &L,
    heard: L::Heard,
    method: &ProcessMethod,
) -> L::Heard
    requires { L.listens listener.now }
    ensures { result ≡ told (L.after listener.now) heard
        (parts.process_method (process_method_view method.now)).mentions }
{
    let heard = tell_types(listener, heard, method.inputs.as_slice());
    let heard = tell_types(listener, heard, method.outputs.as_slice());
    let heard = tell_types(listener, heard, section(&method.locals));
    tell_statements(listener, heard, method.body.as_slice())
}

#[tactic(auto, using(crate::proofs::Told::told_append))]
pub(crate) fn tell_cluster<L: Listener>(
    listener: &L,
    heard: L::Heard,
    class: &ClusterClass,
) -> L::Heard
    requires { L.listens listener.now }
    ensures { result ≡ told (L.after listener.now) heard (parts.cluster_part class.now).mentions }
{
    let heard = listener.hear(heard, Word::Declared(&class.name));
    let heard = tell_types(listener, heard, section(&class.parameters));
    tell_instances(listener, heard, &class.instances)
}
