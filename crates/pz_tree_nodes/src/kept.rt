ghost use Rattle.std.specs.Prelude.{◌≡◌, ◌*◌, IsTrue, IfOk};
ghost use Rattle.pz_rules.specs.pz_offer.Summaries.{AreJoinable, MayShift};
ghost use Rattle.pz_tree_nodes.specs.Keeping as keeping;
ghost use Rattle.pz_tree_nodes.specs.Keeping.{kept_none, kept_done, kept_asked, joined, kept_later};

use pz_rules::pz_offer::Summary;
use std::alloc::AllocError;

/// What a node keeps of its term, so that nobody need look below it.
#[derive(Clone, Copy, Debug, PartialEq, Eq)]
pub struct Kept {
    /// The summary, by the clock of the node. It may be another as long as nobody has asked what there is
    /// to ask.
    pub summary: Summary,
    /// Whether a guard, a delay that has not begun or a send is there. What is interrupted does not count.
    pub asks: bool,
    /// Whether an active delay has not begun; as the summary, of what was asked last.
    pub starts: bool,
    /// Whether an active part names the clock; as the summary, of what was asked last.
    pub clocked: bool,
    /// The height of the term.
    pub height: u32,
}

impl Kept {
    /// Of no part at all.
    pub fn none() -> Kept
        ensures { result ≡ kept_none }
    {
        Kept {
            summary: Summary::none(),
            asks: false,
            starts: false,
            clocked: false,
            height: 0,
        }
    }

    /// Of a part that is done, or that can do nothing and is asked nothing.
    pub fn done() -> Kept
        ensures { result ≡ kept_done }
    {
        Kept {
            height: 1,
            ..Kept::none()
        }
    }

    /// Of a statement that was not asked yet what there is to ask.
    pub fn asked() -> Kept
        ensures { result ≡ kept_asked }
    {
        Kept {
            asks: true,
            ..Kept::done()
        }
    }

    // Whether this is kept of no part at all, as before the first of several.
    fn is_none(&self) -> bool
        ensures { IsTrue result → self.now ≡ kept_none }
    {
        let summary = &self.summary;
        self.height == 0
            && summary.internal == 0
            && summary.sends == 0
            && summary.receives == 0
            && summary.due.is_none()
            && summary.trouble.is_none()
            && !self.asks
            && !self.starts
            && !self.clocked
    }

    /// Of parts side by side, from the left. The only error is that there is more to do than can be counted.
    pub fn join(&self, right: &Kept) -> Result<Kept, AllocError>
        ensures { IfOk result (λ both. both ≡ joined self.now right.now) }
    {
        if self.is_none() {
            return Ok(*right);
        }
        if !may_join(&self.summary, &right.summary) {
            return Err(AllocError);
        }
        Ok(Kept {
            summary: self.summary.join(&right.summary),
            asks: self.asks || right.asks,
            starts: self.starts || right.starts,
            clocked: self.clocked || right.clocked,
            height: self.height.max(right.height),
        })
    }

    /// Of a node over parts of which this is kept. The only error is that it is higher than can be counted.
    pub fn raised(&self) -> Result<Kept, AllocError>
        ensures { IfOk result (λ above. above ≡ keeping.raised self.now) }
    {
        match self.height.checked_add(1) {
            Some(height) => Ok(Kept { height, ..*self }),
            None => Err(AllocError),
        }
    }
}

/// Whether there is a number for each sum.
fn may_join(left: &Summary, right: &Summary) -> bool
    ensures { IsTrue result → AreJoinable left.now right.now }
{
    left.internal.checked_add(right.internal).is_some()
        && left.sends.checked_add(right.sends).is_some()
        && left.receives.checked_add(right.receives).is_some()
}

/// The same by a clock that is ahead by so many clock units.
pub fn later(kept: &Kept, by: u128) -> Kept
    ensures { MayShift by kept.now.summary → result ≡ kept_later by kept.now }
{
    let due = match kept.summary.due {
        Some(due) => Some(due.saturating_add(by)),
        None => None,
    };
    Kept {
        summary: Summary {
            due,
            ..kept.summary
        },
        ..*kept
    }
}

/// As many nodes as may stand one below the other, where the topmost keeps this.
pub fn fuel_for(kept: &Kept) -> u64
    ensures { result ≡ 2 * kept.now.height }
{
    2 * u64::from(kept.height)
}
