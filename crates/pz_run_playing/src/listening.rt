ghost use Rattle.std.specs.Prelude.{◌≡◌, ◌↔◌, List, IsTrue};
ghost use Rattle.pz_rules.specs.pz_syntax.Classes.{ModelTree};
ghost use Rattle.pz_rules.specs.Runs.{Event};
ghost use Rattle.pz_watch.specs.Files.{NamedFormula};
ghost use Rattle.pz_watch.specs.Breaking.{AreBroken};
ghost use Rattle.pz_watch_points.specs.EventPoints.{points_of};
ghost use Rattle.pz_run_playing.specs.devices.Hearing.{Hears, with_watches};

use pz_watch_judging::Watching;

/// Who is told what happens in a run, while it goes on. Each line is made in one text, which is kept for its
/// room: what it holds between two lines means nothing.
#[derive(Drop)]
pub(crate) enum Listener {
    /// Nobody: nothing is written.
    Silent,
    /// Lines are written.
    Lines { line: Vec<u8> },
    /// Lines are written, and behind each those of the watches that are broken there.
    Watches { watching: Watching, line: Vec<u8> },
}

impl Listener {
    /// Whether some watch was broken at some point so far.
    pub(crate) fn is_broken(&self) -> bool
        ensures { (m : ModelTree) (ws : List NamedFormula) (past : List Event) →
            Hears m (with_watches ws) past self.now →
            (IsTrue result) ↔ AreBroken ws (points_of m past) }
    {
        match self {
            Listener::Silent => false,
            Listener::Lines { line: _ } => false,
            Listener::Watches { watching, line: _ } => watching.is_broken(),
        }
    }
}
