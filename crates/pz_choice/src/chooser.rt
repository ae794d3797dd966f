ghost use Rattle.std.specs.Prelude.{◌≡◌, ◌≤◌, ℕ, suc};
ghost use Rattle.pz_choice.specs.Resolvers.{Resolver, always_first, seeded, listed, choice, left_over};
ghost use Rattle.pz_choice.specs.Choosers.{Stands};

use crate::choices::Choices;
use crate::generator::Generator;
use pz_items::Items;

/// Who chooses an offer wherever there are some.
#[derive(Debug, Drop)]
pub enum Chooser {
    /// Always the first.
    First,
    /// By the words that a seed makes.
    Seed(Generator),
    /// By the entries of a list, until it is used up.
    List(Choices),
}

impl Chooser {
    /// Chooses the first offer, always.
    pub fn first() -> Chooser
        ensures { Stands result always_first 0 }
    {
        Chooser::First
    }

    /// Chooses by the words that this seed makes.
    pub fn seed(n: u64) -> Chooser
        ensures { Stands result (seeded n) 0 }
    {
        Chooser::Seed(Generator::new(n))
    }

    /// Chooses by these entries, one after another.
    pub fn list(choices: Vec<u64>) -> Chooser
        ensures { Stands result (listed choices.items) 0 }
    {
        Chooser::List(Choices {
            list: Items::from_vec(choices),
            next: 0,
        })
    }

    /// The choice among so many offers, which a list may set at none of them; nothing where a list is
    /// used up. Takes no memory.
    pub fn next(&mut self, offers: u64) -> Option<u64>
        requires { 1 ≤ offers }
        ensures chooses { (r : Resolver) (j : ℕ) → Stands self.old r j →
            result ≡ choice r j offers }
        ensures goes_on { (r : Resolver) (j : ℕ) → Stands self.old r j → Stands self.new r (suc j) }
    {
        match self {
            Chooser::First => Some(0),
            Chooser::Seed(generator) => Some(u64::from(generator.draw()) % offers),
            Chooser::List(choices) => choices.take(),
        }
    }

    /// The entry of a list that is next, if one is left. Takes no memory.
    pub fn ahead(&self) -> Option<u64>
        ensures { (r : Resolver) (j : ℕ) → Stands self.now r j → result ≡ left_over r j }
    {
        match self {
            Chooser::First | Chooser::Seed(_) => None,
            Chooser::List(choices) => choices.ahead(),
        }
    }
}
