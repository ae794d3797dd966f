ghost use Rattle.std.specs.Prelude.{◌≡◌};
ghost use Rattle.pz_watch.specs.SpotView.{point_of};
ghost use Rattle.pz_watch.specs.devices.Memory.{told, later};
ghost use Rattle.pz_watch.specs.devices.MonitorView.{memory_of};

use crate::{Atom, Spot, Window};
use std::mem;

/// A formula, with what its operators keep of the points so far: `before` what its part was at the
/// last point, `once`, `always` and `since` the latest clock that counts.
#[derive(Drop)]
pub enum Monitor {
    Atom(Atom),
    Not(Box<Monitor>),
    And(Box<Monitor>, Box<Monitor>),
    Or(Box<Monitor>, Box<Monitor>),
    Before(bool, Box<Monitor>),
    Once(Window, Box<Monitor>),
    Always(Window, Box<Monitor>),
    Since(Window, Box<Monitor>, Box<Monitor>),
}

impl Monitor {
    /// Goes on to this point, and whether the formula holds there. All parts are fed, whatever the
    /// others answer. Takes no memory.
    pub fn feed(&mut self, spot: &Spot<'_>) -> bool
        ensures told { result ≡ told (memory_of self.old) (point_of spot.now) }
        ensures later { memory_of self.new ≡ later (memory_of self.old) (point_of spot.now) }
    {
        match self {
            Monitor::Atom(atom) => atom.says(&spot.event),
            Monitor::Not(part) => !part.feed(spot),
            Monitor::And(first, second) => {
                let one = first.feed(spot);
                let other = second.feed(spot);
                one && other
            }
            Monitor::Or(first, second) => {
                let left = first.feed(spot);
                let right = second.feed(spot);
                left || right
            }
            Monitor::Before(was, part) => {
                let now = part.feed(spot);
                mem::replace(was, now)
            }
            Monitor::Once(window, part) => {
                let now = part.feed(spot);
                window.mark(now, spot.clock);
                window.reaches(spot.clock)
            }
            Monitor::Always(window, part) => {
                let now = part.feed(spot);
                window.mark(!now, spot.clock);
                !window.reaches(spot.clock)
            }
            Monitor::Since(window, first, second) => {
                let kept = first.feed(spot);
                let met = second.feed(spot);
                window.renew(kept, met, spot.clock);
                window.reaches(spot.clock)
            }
        }
    }
}
