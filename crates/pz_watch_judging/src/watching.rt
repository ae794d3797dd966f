ghost use Rattle.std.specs.Prelude.{◌≡◌, List, [], ◌∷◌, ◌++◌, length, IsTrue, ◌↔◌, OnOk};
ghost use Rattle.std.specs.Result.{result_err};
ghost use Rattle.pz_io.specs.Writing.{Wrote};
ghost use Rattle.pz_watch.specs.Points.{Point, AreInOrder};
ghost use Rattle.pz_watch.specs.SpotView.{point_of};
ghost use Rattle.pz_watch.specs.Files.{NamedFormula};
ghost use Rattle.pz_watch.specs.Breaking.{broken_at, broken_lines, AreBroken};
ghost use Rattle.pz_watch.specs.devices.Standing.{StandForEach};
ghost use Rattle.pz_watch_judging.specs.devices.Judging.{HasJudged};

use crate::judging::judge_each;
use pz_io::{Halt, Sink};
use pz_items::Items;
use pz_watch::{Spot, Watch};
use std::alloc::Global;

/// The watches of a file over a run that goes on. It keeps them, and whether one of them was broken.
#[derive(Drop)]
pub struct Watching {
    watches: Vec<Watch>,
    broken: bool,
}

impl Watching {
    /// Before the first point. Takes no memory.
    pub fn new(watches: Items<Watch>) -> Watching
        ensures { (ws : List NamedFormula) → StandForEach watches ws [] → HasJudged ws [] result }
    {
        Watching {
            watches: watches.into_vec(),
            broken: false,
        }
    }

    /// Whether some watch was broken at some point so far.
    pub fn is_broken(&self) -> bool
        ensures { (ws : List NamedFormula) (ps : List Point) → HasJudged ws ps self.now →
            (IsTrue result) ↔ AreBroken ws ps }
    {
        self.broken
    }

    /// Goes on to the next point, whose clock is not below that of the point before, and writes a line
    /// for each watch that is broken there, in the file's order, each in one `write_all`. Feeding the
    /// watches takes no memory, and a time that is linear in their formulas.
    ///
    /// # Errors
    ///
    /// What was written is a front of these lines, and some watches may not have been fed.
    pub fn judge<W: Sink>(
        &mut self,
        alloc: Global,
        spot: &Spot<'_>,
        out: &mut W,
    ) -> Result<(), Halt>
        ensures wrote { (ws : List NamedFormula) (ps : List Point) →
            let all = ps ++ point_of spot.now ∷ [] in
            HasJudged ws ps self.old → AreInOrder all → Wrote (W.state out.old) (W.state out.new)
            (broken_lines (broken_at ws all (length ps))) (result_err result) }
        ensures judged { (ws : List NamedFormula) (ps : List Point) →
            let all = ps ++ point_of spot.now ∷ [] in
            HasJudged ws ps self.old → AreInOrder all → OnOk result (HasJudged ws all self.new) }
    {
        pz_watch::laws::meaning_stays();
        if judge_each(alloc, self.watches.as_mut_slice(), spot, out)? {
            self.broken = true;
        }
        Ok(())
    }
}
