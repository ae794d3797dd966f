ghost use Rattle.std.specs.Prelude.{◌≡◌};
ghost use Rattle.pz_trace.specs.TraceText.{run_ending};
ghost use Rattle.pz_run_output.specs.Status.{number_of, status_of};
ghost use Rattle.pz_run_output.specs.devices.Halting.{halted_as, given_as, watched, judged_as, replayed_as};

use pz_env_closing::pz_run_playing::{Finale, Judged};
use pz_io::Halt;
use pz_run_replaying::Replayed;
use pz_trace::Ending;

/// How the program ends.
#[derive(Clone, Copy, Debug, PartialEq, Eq)]
pub enum Status {
    /// The run ended, or was stopped where it could go on; or the job has no run.
    Done,
    /// The run can go no further, and some process is not done.
    Deadlock,
    /// The words ask for no job.
    Usage,
    /// The model is refused.
    ModelRefused,
    /// An expression of the model has no value, or what a process has to do grew too high.
    ModelFault,
    /// An entry of a list of choices is none of the offers.
    ChoiceRefused,
    /// A trace is that of no run.
    TraceRefused,
    /// A file is longer than its limit.
    TooLong,
    /// A file could not be read.
    ReadFault,
    /// The output failed.
    WriteFault,
    /// Memory was wanting.
    NoMemory,
    /// The run ended, or was stopped where it could go on, and a watch was broken.
    WatchBroken,
    /// A file is no list of watches.
    WatchRefused,
    /// A file is no script, or the script cannot drive the system.
    ScriptRefused,
}

impl Status {
    /// The exit status.
    pub fn number(self) -> u8
        ensures { result ≡ number_of self }
    {
        match self {
            Status::Done => 0,
            Status::Deadlock => 1,
            Status::Usage => 2,
            Status::ModelRefused => 3,
            Status::ModelFault => 4,
            Status::ChoiceRefused => 5,
            Status::TraceRefused => 6,
            Status::TooLong => 7,
            Status::ReadFault => 8,
            Status::WriteFault => 9,
            Status::NoMemory => 10,
            Status::WatchBroken => 11,
            Status::WatchRefused => 12,
            Status::ScriptRefused => 13,
        }
    }

    /// That of a job in which this halted.
    pub fn halted(halt: Halt) -> Status
        ensures { result ≡ halted_as halt }
    {
        match halt {
            Halt::NoMemory => Status::NoMemory,
            Halt::WriteFault => Status::WriteFault,
        }
    }

    // That of a job whose run has ended so.
    fn ended(ending: Ending) -> Status
        ensures { result ≡ status_of (run_ending ending) }
    {
        match ending {
            Ending::End | Ending::Stop => Status::Done,
            Ending::Deadlock => Status::Deadlock,
            Ending::Trouble(_) => Status::ModelFault,
        }
    }

    /// That of a job whose run was played so.
    pub fn played(ended: Result<Finale, Halt>) -> Status
        ensures { result ≡ given_as ended }
    {
        match ended {
            Ok(Finale::Ended(ending)) => Status::ended(ending),
            Ok(Finale::Refused { .. }) => Status::ChoiceRefused,
            Err(halt) => Status::halted(halt),
        }
    }

    // The same where watches have judged the run: a broken one is told in the place of `Done` alone.
    fn watched(self, broken: bool) -> Status
        ensures { result ≡ watched broken self }
    {
        match self {
            Status::Done => {
                if broken {
                    Status::WatchBroken
                } else {
                    Status::Done
                }
            }
            other => other,
        }
    }

    /// That of a job whose run was played so, and judged by watches.
    pub fn judged(ended: Result<Judged, Halt>) -> Status
        ensures { result ≡ judged_as ended }
    {
        match ended {
            Ok(judged) => Status::played(Ok(judged.finale)).watched(judged.broken),
            Err(halt) => Status::halted(halt),
        }
    }

    /// That of a job whose trace was replayed so.
    pub fn replayed(ended: Result<Replayed, Halt>) -> Status
        ensures { result ≡ replayed_as ended }
    {
        match ended {
            Ok(Replayed::Ended(ending)) => Status::ended(ending),
            Ok(Replayed::Refused { .. }) => Status::TraceRefused,
            Err(halt) => Status::halted(halt),
        }
    }
}
