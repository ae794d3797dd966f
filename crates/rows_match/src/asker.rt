//! Who answers for the conditions.

use pz_match::Judge;
use pz_nodes::Steps;
use pz_offer::pz_copy::Parcel;
use pz_offer::{End, Verdict};
use rows_match_plain::{Rule, said, spot_of};
use std::alloc::AllocError;
use std::sync::ledger::{Blank, Ledger};

/// Says what its rule says to every question, and counts the questions.
#[derive(Drop)]
pub struct Asker<L: Ledger> {
    pub rule: Rule,
    /// How many questions it was asked since the count was taken.
    questions: u64,
    /// How many since the first, for proofs.
    steps: Steps<L>,
}

impl<L: Ledger> Asker<L> {
    ghost use Rattle.std.specs.Prelude.{◌≡◌, ◌<◌};

    pub fn new(ledger: Blank) -> Asker<L>
        requires name { ledger.name ≡ L.name }
        requires parts { ledger.parts ≡ L.parts }
        requires some { 0 < L.parts }
    {
        Asker {
            rule: Rule::Yes,
            questions: 0,
            steps: Steps::new(ledger),
        }
    }

    /// How many questions there were since the last time.
    pub fn take_questions(&mut self) -> u64 {
        let questions = self.questions;
        self.questions = 0;
        questions
    }
}

impl<L: Ledger> Judge for Asker<L> {
    ghost use Rattle.std.specs.Prelude.{[]};
    ghost use Rattle.rows_match_plain.specs.Answers.{said, spot_of};

    ghost takes = { λ j s p r. Unit {0} };

    ghost verdict = { λ j s p r. said j.rule (spot_of s) (spot_of r) };

    ghost asked = { λ j. j.steps };

    ghost lent = { λ j. [] };

    fn judge(
        &mut self,
        sender: &End,
        _parcel: &Parcel,
        receiver: &End,
    ) -> Result<Verdict, AllocError> {
        self.steps.tick();
        self.questions = self.questions.saturating_add(1);
        Ok(said(self.rule, spot_of(sender), spot_of(receiver)))
    }
}
