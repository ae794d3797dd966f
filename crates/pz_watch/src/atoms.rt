ghost use Rattle.std.specs.Prelude.{◌≡◌};
ghost use Rattle.pz_watch.specs.Formulas.{says};
ghost use Rattle.pz_watch.specs.SpotView.{happening};

use crate::Event;
use pz_items::Text;

/// What can be said of one line of a trace.
#[derive(Drop)]
pub enum Atom {
    /// It is a communication with this message.
    Message(Text),
    /// It is a communication whose sender has this path.
    From(Text),
    /// It is a communication whose receiver has this path.
    To(Text),
    /// It is an internal action of this kind.
    Kind(Text),
    /// It is an internal action of the process with this path.
    At(Text),
    /// It is a time line.
    Pass,
}

impl Atom {
    /// Whether it is so of what a line tells.
    pub fn says(&self, event: &Event<'_>) -> bool
        ensures { result ≡ says self.now (happening event.now) }
    {
        match (self, event) {
            (Atom::Message(name), Event::Comm { message, .. }) => name.as_bytes() == *message,
            (Atom::From(path), Event::Comm { from, .. }) => path.as_bytes() == *from,
            (Atom::To(path), Event::Comm { to, .. }) => path.as_bytes() == *to,
            (Atom::Kind(word), Event::Internal { kind, .. }) => word.as_bytes() == *kind,
            (Atom::At(word), Event::Internal { path, .. }) => word.as_bytes() == *path,
            (Atom::Pass, Event::Pass) => true,
            _ => false,
        }
    }
}
