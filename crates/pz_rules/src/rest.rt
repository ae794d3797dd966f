ghost use Rattle.std.specs.Prelude.{◌≡◌, [], ◌∷◌, drop, length, ◌==◌, slice_get};
ghost use Rattle.std.specs.Option.{option_copied};

use pz_bind_rules::pz_classes_code::Step;
use pz_bind_rules::pz_items::{Items, Shared};
use std::marker::Model;

/// The statements behind the one that is open. Contracts see them in the order in which they come.
#[derive(Drop)]
pub struct Rest {
    waiting: Waiting,
}

/// Where they stand.
#[derive(Drop)]
enum Waiting {
    /// In a list, from this place on.
    From {
        all: Shared<Items<Step>>,
        first: usize,
    },
    /// A loop alone, behind its body, until it is taken.
    Again(Option<Step>),
}

impl Model for Rest {
    ghost use Rattle.std.specs.Prelude.{List};
    ghost use Rattle.std.specs.Coded.{codes};
    ghost use Rattle.pz_bind_rules.specs.pz_classes_code.declared.step.Step.{Step};
    ghost use Rattle.pz_bind_rules.specs.pz_classes_code.contracts.step.Step as step;
    ghost use Rattle.pz_rules.specs.RestView.{steps_waiting};

    ghost Value = { List Step };

    ghost coded = { Prim.hlevel (codes, step.the_row.coded) };

    ghost view = { λ r. steps_waiting r.waiting };
}

impl Rest {
    /// The statements of a list from this place on.
    pub fn from(all: Shared<Items<Step>>, first: usize) -> Rest
        ensures { result ≡ drop first all }
    {
        Rest {
            waiting: Waiting::From { all, first },
        }
    }

    /// One statement.
    pub fn again(step: Step) -> Rest
        ensures { result ≡ step ∷ [] }
    {
        Rest {
            waiting: Waiting::Again(Some(step)),
        }
    }

    /// All but the next statement.
    pub fn behind_first(self) -> Rest
        ensures { result ≡ drop 1 self }
    {
        let Rest { waiting } = self;
        match waiting {
            Waiting::From { all, first } => {
                let first = if first < all.get().len() {
                    first + 1
                } else {
                    first
                };
                Rest::from(all, first)
            }
            Waiting::Again(_) => Rest {
                waiting: Waiting::Again(None),
            },
        }
    }

    /// The next statement, if there is one.
    pub fn first(&self) -> Option<&Step>
        ensures { option_copied result ≡ slice_get self.now 0 }
    {
        match &self.waiting {
            Waiting::From { all, first } => all.get().as_slice().get(*first),
            Waiting::Again(step) => step.as_ref(),
        }
    }

    /// How many statements there are.
    pub fn len(&self) -> usize
        ensures { result ≡ length self.now }
    {
        match &self.waiting {
            Waiting::From { all, first } => all.get().len().saturating_sub(*first),
            Waiting::Again(Some(_)) => 1,
            Waiting::Again(None) => 0,
        }
    }

    /// Whether there is no statement.
    pub fn is_empty(&self) -> bool
        ensures { result ≡ (length self.now == 0) }
    {
        self.len() == 0
    }
}
