ghost use Rattle.std.specs.Prelude.{◌≡◌};
ghost use Rattle.pz_words.specs.Options.{with_option, nothing_said};
ghost use Rattle.pz_words.specs.Jobs.{choice_or, limits_of, units_of};
ghost use Rattle.pz_words.specs.devices.Reading.{is_free};

use crate::jobs::{Choice, DEFAULT_STEPS, DEFAULT_UNITS, RunLimits};
use std::mem;

/// The most actions that `--steps` may ask for.
pub const MOST_STEPS: u64 = 1_000_000_000;

/// The most units that `--units` may ask for.
pub const MOST_UNITS: u64 = 1_000_000_000;

/// What one option says.
#[derive(Debug, Drop)]
pub enum OptionWord {
    /// How offers are chosen.
    Chooses(Choice),
    /// How many actions are chosen at most.
    Steps(u64),
    /// The clock that no passing of time goes beyond.
    Until(u64),
    /// How many units each evaluation has.
    Units(u64),
    /// That only a summary is printed.
    Summary,
}

/// What the options of a command line say together.
#[derive(Debug, Drop)]
pub struct Options {
    pub choice: Option<Choice>,
    pub steps: Option<u64>,
    pub until: Option<u64>,
    pub units: Option<u64>,
    pub summary: bool,
}

impl Options {
    /// Nothing is said yet.
    pub(crate) fn new() -> Options
        ensures { result ≡ nothing_said }
    {
        Options {
            choice: None,
            steps: None,
            until: None,
            units: None,
            summary: false,
        }
    }

    /// Adds what one option says, and tells whether none before it spoke of the same.
    pub(crate) fn add(&mut self, setting: OptionWord) -> bool
        ensures free { result ≡ is_free setting self.old }
        ensures added { self.new ≡ with_option setting self.old }
    {
        match setting {
            OptionWord::Chooses(choice) => self.choice.replace(choice).is_none(),
            OptionWord::Steps(steps) => self.steps.replace(steps).is_none(),
            OptionWord::Until(until) => self.until.replace(until).is_none(),
            OptionWord::Units(units) => self.units.replace(units).is_none(),
            OptionWord::Summary => !mem::replace(&mut self.summary, true),
        }
    }

    /// The limits of a run.
    pub(crate) fn limits(&self) -> RunLimits
        ensures { result ≡ limits_of self.now }
    {
        RunLimits {
            steps: self.steps.unwrap_or(DEFAULT_STEPS),
            until: self.until,
            units: self.units(),
        }
    }

    /// The units of each evaluation.
    pub(crate) fn units(&self) -> u64
        ensures { result ≡ units_of self.now }
    {
        self.units.unwrap_or(DEFAULT_UNITS)
    }

    /// How offers are chosen, by default in this way.
    pub(crate) fn into_choice(self, default: Choice) -> Choice
        ensures { result ≡ choice_or default self }
    {
        self.choice.unwrap_or(default)
    }
}
