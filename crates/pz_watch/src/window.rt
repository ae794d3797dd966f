ghost use Rattle.std.specs.Prelude.{◌≡◌, Some, if◌then◌else◌};
ghost use Rattle.pz_watch.specs.devices.Memory.{is_within, renewed};

/// How far back a formula looks, and the latest clock of those that count for it.
#[derive(Clone, Copy)]
pub struct Window {
    /// At most so many clock units ago; without one, however long ago.
    pub bound: Option<u64>,
    /// The clock of the latest point that counts; of points with equal clocks any.
    pub latest: Option<u128>,
}

impl Window {
    /// This point counts, or does not.
    pub fn mark(&mut self, counts: bool, clock: u128)
        ensures bound { self.new.bound ≡ self.old.bound }
        ensures latest { self.new.latest ≡ (if counts then Some clock else self.old.latest) }
    {
        if counts {
            self.latest = Some(clock);
        }
    }

    /// What counted before still does where `kept`, and this point counts where `met`.
    pub fn renew(&mut self, kept: bool, met: bool, clock: u128)
        ensures bound { self.new.bound ≡ self.old.bound }
        ensures latest { self.new.latest ≡ renewed kept met clock self.old.latest }
    {
        if met {
            self.latest = Some(clock);
        } else if !kept {
            self.latest = None;
        }
    }

    /// Whether a point that counts is near enough to this clock.
    pub fn reaches(&self, clock: u128) -> bool
        ensures { result ≡ is_within self.now.bound clock self.now.latest }
    {
        match (self.latest, self.bound) {
            (None, _) => false,
            (Some(_), None) => true,
            (Some(latest), Some(bound)) => clock.saturating_sub(latest) <= u128::from(bound),
        }
    }
}
