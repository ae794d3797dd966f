ghost use Rattle.std.specs.Prelude.{◌≡◌};
ghost use Rattle.pz_run_output.specs.Plays.{telling_when};

use pz_words::{Choice, RunLimits};

/// What is printed of a run.
#[derive(Clone, Copy, Debug, PartialEq, Eq)]
pub enum Telling {
    /// Its trace.
    Trace,
    /// One line for the whole.
    Summary,
    /// Its trace, and what there is to choose from at its end.
    Menu,
}

impl Telling {
    /// What a job prints that asks for the summary alone, or does not.
    pub fn when(summary: bool) -> Telling
        ensures { result ≡ telling_when summary }
    {
        if summary {
            Telling::Summary
        } else {
            Telling::Trace
        }
    }
}

/// A run that a job asks for.
#[derive(Drop)]
pub struct Play {
    /// How the offers are chosen that are taken.
    pub choice: Choice,
    /// How far the run goes.
    pub limits: RunLimits,
    /// What is printed of it.
    pub telling: Telling,
}
