// The instances of a cluster or of the system, and what they are given.

ghost use Rattle.std.specs.Prelude.{◌≡◌, []};
ghost use Rattle.std.specs.Option.{unwrap_or};
ghost use Rattle.pz_classes_mentions.specs.Declarations.{mentioned_argument, mentioned_givens, mentioned_instance, mentioned_instances};
ghost use Rattle.pz_classes_mentions.specs.Words.{told};

use crate::expressions::{tell_literal, variable};
use crate::{Listener, Word};
use pz_syntax::pz_items::Items;
use pz_syntax::{Arg, Given, Instance};

fn tell_argument<L: Listener>(listener: &L, heard: L::Heard, arg: &Arg) -> L::Heard
    requires { L.listens listener.now }
    ensures { result ≡ told (L.after listener.now) heard (mentioned_argument arg.now) }
{
    match arg {
        Arg::Plain(literal, pos) => tell_literal(listener, heard, literal, *pos),
        Arg::Negated(_, _) => heard,
        Arg::Parameter(name) => listener.hear(heard, variable(name)),
    }
}

#[tactic(auto, using(crate::proofs::Told::told_append))]
fn tell_givens<L: Listener>(listener: &L, heard: L::Heard, givens: &[Given]) -> L::Heard
    requires { L.listens listener.now }
    ensures { result ≡ told (L.after listener.now) heard (mentioned_givens givens.now) }
{
    let mut heard = heard;
    for given in givens {
        heard = tell_argument(listener, heard, &given.arg);
    }
    heard
}

#[tactic(auto, using(crate::proofs::Told::told_append))]
fn tell_instance<L: Listener>(listener: &L, heard: L::Heard, instance: &Instance) -> L::Heard
    requires { L.listens listener.now }
    ensures { result ≡ told (L.after listener.now) heard (mentioned_instance instance.now) }
{
    let heard = listener.hear(heard, Word::Instantiated(&instance.class));
    match &instance.given {
        None => heard,
        Some(givens) => tell_givens(listener, heard, givens.as_slice()),
    }
}

#[tactic(auto, using(crate::proofs::Told::told_append))]
fn tell_each<L: Listener>(listener: &L, heard: L::Heard, instances: &[Instance]) -> L::Heard
    requires { L.listens listener.now }
    ensures { result ≡ told (L.after listener.now) heard (mentioned_instances instances.now) }
{
    let mut heard = heard;
    for instance in instances {
        heard = tell_instance(listener, heard, instance);
    }
    heard
}

/// Nothing where the section is not written.
pub(crate) fn tell_instances<L: Listener>(
    listener: &L,
    heard: L::Heard,
    instances: &Option<Items<Instance>>,
) -> L::Heard
    requires { L.listens listener.now }
    ensures { result ≡ told (L.after listener.now) heard (mentioned_instances
        (unwrap_or instances.now [])) }
{
    match instances {
        None => heard,
        Some(instances) => tell_each(listener, heard, instances.as_slice()),
    }
}
