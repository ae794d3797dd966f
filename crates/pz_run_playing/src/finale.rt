use pz_watch_points::pz_trace::Ending;

/// How a run that is chosen has ended.
#[derive(Clone, Copy, Debug, PartialEq, Eq)]
pub enum Finale {
    /// It has ended as a trace does.
    Ended(Ending),
    /// An entry of a list of choices is none of so many offers; of none where it was left over.
    Refused { entry: u64, offers: u64 },
}

/// How a run that is judged by watches has ended.
#[derive(Clone, Copy, Debug, PartialEq, Eq)]
pub struct Judged {
    pub finale: Finale,
    /// Whether some watch was broken at some line.
    pub broken: bool,
}
