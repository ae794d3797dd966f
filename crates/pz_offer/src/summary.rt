ghost use Rattle.std.specs.Prelude.{◌≡◌};
ghost use Rattle.pz_offer.specs.Summaries.{nothing, least, join, shifted, AreJoinable, MayShift};

use crate::Trouble;

/// What the active parts of a term can do, in short.
#[derive(Clone, Copy, Debug, PartialEq, Eq)]
pub struct Summary {
    /// How many internal actions there are.
    pub internal: u64,
    /// How many active sends, but for those of which the arguments have a trouble.
    pub sends: u64,
    /// How many active receives.
    pub receives: u64,
    /// When the first of the active delays is over: a moment of the clock where the term stands, in
    /// clock units.
    pub due: Option<u128>,
    /// The first trouble, by place, of what the active parts are asked.
    pub trouble: Option<Trouble>,
}

impl Summary {
    /// That of a term that can do nothing.
    pub fn none() -> Summary
        ensures { result ≡ nothing }
    {
        Summary {
            internal: 0,
            sends: 0,
            receives: 0,
            due: None,
            trouble: None,
        }
    }

    /// That of a term of which these are the parts, from the left.
    pub fn join(&self, right: &Summary) -> Summary
        requires { AreJoinable self.now right.now }
        ensures { result ≡ join self.now right.now }
    {
        Summary {
            internal: self.internal + right.internal,
            sends: self.sends + right.sends,
            receives: self.receives + right.receives,
            due: sooner(self.due, right.due),
            trouble: self.trouble.or(right.trouble),
        }
    }

    /// That of a part that is not active.
    pub fn hidden(&self) -> Summary
        ensures { result ≡ nothing }
    {
        Summary::none()
    }

    /// The same by a clock that is ahead by so many clock units.
    pub fn shifted(&self, by: u128) -> Summary
        requires { MayShift by self.now }
        ensures { result ≡ shifted by self.now }
    {
        let due = match self.due {
            Some(due) => Some(due + by),
            None => None,
        };
        Summary { due, ..*self }
    }
}

/// The earlier of two moments, as far as there are any.
fn sooner(first: Option<u128>, second: Option<u128>) -> Option<u128>
    ensures { result ≡ least first second }
{
    match (first, second) {
        (Some(one), Some(other)) => Some(one.min(other)),
        (None, due) | (due, None) => due,
    }
}
