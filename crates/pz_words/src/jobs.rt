ghost use Rattle.std.specs.Prelude.{◌≡◌, string_bytes};

use pz_items::Items;
use std::marker::Model;

/// How many actions are chosen at most where no option says it.
pub const DEFAULT_STEPS: u64 = 1_000;

/// How many units an evaluation has where no option says it.
pub const DEFAULT_UNITS: u64 = 100_000;

/// The most stations of a ring, which has two at least.
pub const MOST_STATIONS: u64 = 1_000;

/// The name of a file, as it stands in a word of the command line. Contracts see its bytes.
#[derive(Debug, Drop)]
pub struct FileName {
    text: String,
}

impl Model for FileName {
    ghost use Rattle.std.specs.Prelude.{List, ℕ, string_bytes};

    ghost Value = { List ℕ };

    ghost view = { λ n. string_bytes n.text };
}

impl FileName {
    /// The name that is spelled so.
    pub fn new(text: String) -> FileName
        ensures { result ≡ string_bytes text }
    {
        FileName { text }
    }

    /// How the name is spelled.
    pub fn as_str(&self) -> &str
        ensures { result.now ≡ self.now }
    {
        self.text.as_str()
    }
}

/// How the offer that is taken is chosen at each choice of a run.
#[derive(Debug, Drop)]
pub enum Choice {
    /// The first, always.
    First,
    /// By the words of the generator that this seed makes.
    Seed(u64),
    /// By the entries of this list, one after another, until it is used up.
    List(Items<u64>),
}

/// How far a run goes.
#[derive(Clone, Copy, Debug, PartialEq, Eq)]
pub struct RunLimits {
    /// How many actions are chosen at most.
    pub steps: u64,
    /// The clock that no passing of time goes beyond, if there is one.
    pub until: Option<u64>,
    /// How many units each evaluation has.
    pub units: u64,
}

/// What the program is asked to do.
#[derive(Debug, Drop)]
pub enum Job {
    /// To run a model and to print the trace, or only its summary.
    Run {
        model: FileName,
        choice: Choice,
        limits: RunLimits,
        summary: bool,
    },
    /// To run a model, and to print the offers at the end too.
    Menu {
        model: FileName,
        choice: Choice,
        limits: RunLimits,
    },
    /// To run a model as a trace says.
    Replay {
        model: FileName,
        trace: FileName,
        units: u64,
    },
    /// To check a model and to say how large it is.
    Check {
        model: FileName,
    },
    /// To print the model of a ring with this many stations.
    Make {
        n: u32,
    },
    /// To run the model of a ring with this many stations, and to print the summary.
    Ring {
        n: u32,
        choice: Choice,
        limits: RunLimits,
    },
    /// To print a model in one layout.
    Format {
        model: FileName,
    },
    /// To run a model, and to judge each line of its trace by the watches of a file.
    Watch {
        model: FileName,
        watches: FileName,
        choice: Choice,
        limits: RunLimits,
    },
    /// To run a model whose open ends are driven by the script of a file.
    Drive {
        model: FileName,
        script: FileName,
        choice: Choice,
        limits: RunLimits,
    },
}
