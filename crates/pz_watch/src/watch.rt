ghost use Rattle.std.specs.Prelude.{◌≡◌, List, [], ◌∷◌, ◌++◌, length};
ghost use Rattle.pz_watch.specs.Points.{Point, AreInOrder};
ghost use Rattle.pz_watch.specs.SpotView.{point_of};
ghost use Rattle.pz_watch.specs.Formulas.{Formula, holds};
ghost use Rattle.pz_watch.specs.devices.Standing.{IsFresh, StandsFor, name_in};

use crate::{Monitor, Spot};
use pz_items::Text;

/// A formula with a name, that judges a run point by point. It keeps a truth value or a clock for each
/// operator, and no points.
#[derive(Drop)]
pub struct Watch {
    name: Text,
    monitor: Monitor,
}

impl Watch {
    /// A watch of this name, before the first point.
    pub fn new(name: Text, monitor: Monitor) -> Watch
        ensures stands { (f : Formula) → IsFresh monitor f → StandsFor result f [] }
        ensures name { name_in result ≡ name }
    {
        Watch { name, monitor }
    }

    /// Its name.
    pub fn name(&self) -> &[u8]
        ensures { result.now ≡ name_in self.now }
    {
        self.name.as_bytes()
    }

    /// Goes on to the next point, whose clock is not below that of the point before, and says whether
    /// the formula holds there. Takes no memory, and a time that is linear in the formula.
    pub fn feed(&mut self, spot: &Spot<'_>) -> bool
        ensures answers { (f : Formula) (ps : List Point) →
            let all = ps ++ point_of spot.now ∷ [] in
            StandsFor self.old f ps → AreInOrder all → result ≡ holds f all (length ps) }
        ensures stands { (f : Formula) (ps : List Point) →
            let all = ps ++ point_of spot.now ∷ [] in
            StandsFor self.old f ps → AreInOrder all → StandsFor self.new f all }
        ensures name { name_in self.new ≡ name_in self.old }
    {
        self.monitor.feed(spot)
    }
}
