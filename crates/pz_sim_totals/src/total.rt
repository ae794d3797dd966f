ghost use Rattle.std.specs.Prelude.{◌≡◌, MatchOption};
ghost use Rattle.pz_sim_totals.specs.Sums.{none, both, AreNumbers};

use pz_offer::Summary;

/// What one process can do in short, or several together.
#[derive(Clone, Copy, Debug, PartialEq, Eq)]
pub struct Total {
    pub summary: Summary,
    /// How many of the processes are not done.
    pub unfinished: u64,
}

impl Total {
    /// That of no process.
    pub fn none() -> Total
        ensures { result ≡ none }
    {
        Total {
            summary: Summary::none(),
            unfinished: 0,
        }
    }

    /// That of these and those together, from the left; none where a sum would be 2^64 or more.
    pub fn both(&self, right: &Total) -> Option<Total>
        ensures { MatchOption result (AreNumbers (both self.now right.now) → ⊥)
            (λ sum. sum ≡ both self.now right.now) }
    {
        self.summary.internal.checked_add(right.summary.internal)?;
        self.summary.sends.checked_add(right.summary.sends)?;
        self.summary.receives.checked_add(right.summary.receives)?;
        let unfinished = self.unfinished.checked_add(right.unfinished)?;
        Some(Total {
            summary: self.summary.join(&right.summary),
            unfinished,
        })
    }
}
