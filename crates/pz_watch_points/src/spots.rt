// The points of a run, made of what a run has at hand when an event happens. Takes no memory.

ghost use Rattle.std.specs.Prelude.{◌≡◌};
ghost use Rattle.pz_bind.specs.pz_syntax.Classes.{ModelTree};
ghost use Rattle.pz_bind.specs.devices.Nets.{IsNet};
ghost use Rattle.pz_watch.specs.SpotView.{happening, point_of};
ghost use Rattle.pz_watch_points.specs.EventPoints.{happening_of, action_point, passing_point};
ghost use Rattle.pz_watch_points.specs.Present.{HasProcesses};

use crate::names::{kind_word, path};
use pz_bind::Net;
use pz_trace::pz_rules::Action;
use pz_watch::{Event, Spot};

/// The point of an action that is chosen at a clock, in clock units. It borrows its words, from the
/// net and from the action.
///
/// The processes of the action are those of the net, as those of each that is offered are.
pub fn spot<'a>(net: &'a Net, clock: u128, action: &'a Action) -> Spot<'a>
    requires { HasProcesses net.now action.now }
    ensures { (m : ModelTree) → ∥ IsNet m net.now ∥₁ →
        point_of result ≡ action_point m clock action.now }
{
    Spot {
        clock,
        event: event(net, action),
    }
}

/// The point of a passing of time from a clock on, in clock units.
pub fn passing(clock: u128) -> Spot<'static>
    ensures { point_of result ≡ passing_point clock }
{
    Spot {
        clock,
        event: Event::Pass,
    }
}

// What an action is, in the words of its line.
fn event<'a>(net: &'a Net, action: &'a Action) -> Event<'a>
    requires { HasProcesses net.now action.now }
    ensures { (m : ModelTree) → ∥ IsNet m net.now ∥₁ →
        happening result ≡ happening_of m action.now }
{
    match action {
        Action::Internal { at, kind, .. } => Event::Internal {
            path: path(net, at.process),
            kind: kind_word(*kind),
        },
        Action::Comm {
            sender,
            receiver,
            message,
            ..
        } => Event::Comm {
            message: message.as_str().as_bytes(),
            from: path(net, sender.process),
            to: path(net, receiver.process),
        },
    }
}
