ghost use Rattle.std.specs.Prelude.{◌≡◌, ◌+◌, ◌^◌, ◌<◌, ◌↔◌, true, false, IsNone};
ghost use Rattle.pz_clock.specs.Shifts.{new_shift, is_running, local, due_in, frozen, thawed, IsReached, ShiftFits};

use std::marker::Model;

/// A local clock, seen from the clock around it: how many clock units it is behind, and if it stands
/// still, since which moment of the clock around it. It is never behind by more than that moment.
#[derive(Clone, Copy)]
pub struct Shift {
    behind: u128,
    since: Option<u128>,
}

impl Model for Shift {
    ghost use Rattle.pz_clock.specs.Shifts.{ShiftView, KeptSince};

    ghost Value = { ShiftView };

    ghost view = { λ s. record { behind = s.behind; since = s.since } };

    ghost inverse = { λ s. record { behind = s.behind; since = s.since } };

    ghost invariant = { λ s. KeptSince s.behind s.since };
}

impl Shift {
    /// A clock that runs and is not behind.
    pub fn new() -> Shift
        ensures { result ≡ new_shift }
    {
        Shift {
            behind: 0,
            since: None,
        }
    }

    /// How many clock units it is behind, but for those since which it stands still.
    pub fn behind(&self) -> u128
        ensures { result ≡ self.now.behind }
    {
        self.behind
    }

    /// Since which moment of the clock around it it stands still, if it does.
    pub fn since(&self) -> Option<u128>
        ensures { result ≡ self.now.since }
    {
        self.since
    }

    /// Stands still from now on, where `outer` is what the clock around it shows. One that stands still
    /// stays as it is.
    pub fn freeze(&self, outer: u128) -> Shift
        requires { IsReached self.now outer }
        ensures shift { result ≡ frozen self.now outer }
        ensures fits { ShiftFits result outer }
        ensures local { local result outer ≡ local self.now outer }
        ensures stands { is_running result ≡ false }
    {
        match self.since {
            None => Shift {
                behind: self.behind,
                since: Some(outer),
            },
            Some(_) => *self,
        }
    }

    /// Runs from now on, where `outer` is what the clock around it shows. One that runs stays as it is.
    pub fn thaw(&self, outer: u128) -> Shift
        requires { IsReached self.now outer }
        ensures shift { result ≡ thawed self.now outer }
        ensures fits { ShiftFits result outer }
        ensures local { local result outer ≡ local self.now outer }
        ensures runs { is_running result ≡ true }
    {
        match self.since {
            None => *self,
            Some(since) => Shift {
                behind: self.behind + (outer - since),
                since: None,
            },
        }
    }

    /// What it shows, where the clock around it shows `outer`.
    pub fn local(&self, outer: u128) -> u128
        requires { IsReached self.now outer }
        ensures { result ≡ local self.now outer }
    {
        match self.since {
            None => outer - self.behind,
            Some(since) => since - self.behind,
        }
    }

    /// When it shows `due`, by the clock around it; None exactly while it stands still.
    pub fn due_in(&self, due: u128) -> Option<u128>
        requires { due + self.now.behind < 2 ^ 128 }
        ensures due { result ≡ due_in self.now due }
        ensures none { IsNone result ↔ (is_running self.now ≡ false) }
    {
        match self.since {
            None => Some(due + self.behind),
            Some(_) => None,
        }
    }
}
