// One point, judged by watch after watch.

ghost use Rattle.std.specs.Prelude.{◌≡◌, ℕ, List, [], ◌∷◌, ◌++◌, length, codes, not, IfOk, OnOk};
ghost use Rattle.std.specs.Result.{result_err};
ghost use Rattle.pz_io.specs.Writing.{Wrote};
ghost use Rattle.pz_watch.specs.Points.{Point, AreInOrder};
ghost use Rattle.pz_watch.specs.SpotView.{point_of};
ghost use Rattle.pz_watch.specs.Formulas.{holds};
ghost use Rattle.pz_watch.specs.Files.{NamedFormula};
ghost use Rattle.pz_watch.specs.Breaking.{broken_at, broken_lines};
ghost use Rattle.pz_watch.specs.devices.Standing.{StandsForNamed, StandForEach};
ghost use Rattle.pz_watch_judging.specs.devices.Judging.{has_some};

use pz_io::{Halt, Sink, put};
use pz_watch::{Spot, Watch};
use std::alloc::{AllocError, Global};

// The line of a broken watch of this name. The only error is want of memory.
fn broken_line(alloc: Global, name: &[u8]) -> Result<Vec<u8>, AllocError>
    ensures { IfOk result (λ line. line.items ≡
        codes "broken " ++ (name.now ++ (codes "\n" ++ []))) }
{
    let mut line = b"broken ".to_vec(alloc)?;
    line.extend_from_slice(name)?;
    line.push(b'\n')?;
    Ok(line)
}

// Judges the point by one watch, writes its line where it is broken there, and tells whether it is.
fn judge_one<W: Sink>(
    alloc: Global,
    watch: &mut Watch,
    spot: &Spot<'_>,
    out: &mut W,
) -> Result<bool, Halt>
    ensures wrote { (w : NamedFormula) (ps : List Point) →
        let all = ps ++ point_of spot.now ∷ [] in
        StandsForNamed watch.old w ps → AreInOrder all → Wrote (W.state out.old) (W.state out.new)
        (broken_lines (broken_at (w ∷ []) all (length ps))) (result_err result) }
    ensures stands { (w : NamedFormula) (ps : List Point) →
        let all = ps ++ point_of spot.now ∷ [] in
        StandsForNamed watch.old w ps → AreInOrder all → StandsForNamed watch.new w all }
    ensures broken { (w : NamedFormula) (ps : List Point) →
        let all = ps ++ point_of spot.now ∷ [] in
        StandsForNamed watch.old w ps → AreInOrder all →
        IfOk result (λ broken. broken ≡ not (holds w.formula all (length ps))) }
{
    pz_io::laws::pieces_join();
    if watch.feed(spot) {
        return Ok(false);
    }
    let line = broken_line(alloc, watch.name())?;
    put(out, line.as_slice())?;
    Ok(true)
}

/// Judges the point by each of the watches, writes a line for each that is broken there, in their order,
/// and tells whether there is one.
pub(crate) fn judge_each<W: Sink>(
    alloc: Global,
    watches: &mut [Watch],
    spot: &Spot<'_>,
    out: &mut W,
) -> Result<bool, Halt>
    ensures wrote { (ws : List NamedFormula) (ps : List Point) →
        let all = ps ++ point_of spot.now ∷ [] in
        StandForEach watches.old ws ps → AreInOrder all → Wrote (W.state out.old) (W.state out.new)
        (broken_lines (broken_at ws all (length ps))) (result_err result) }
    ensures stand { (ws : List NamedFormula) (ps : List Point) →
        let all = ps ++ point_of spot.now ∷ [] in
        StandForEach watches.old ws ps → AreInOrder all →
        OnOk result (StandForEach watches.new ws all) }
    ensures broken { (ws : List NamedFormula) (ps : List Point) →
        let all = ps ++ point_of spot.now ∷ [] in
        StandForEach watches.old ws ps → AreInOrder all →
        IfOk result (λ broken. broken ≡ has_some (broken_at ws all (length ps))) }
{
    pz_io::laws::pieces_join();
    let mut broken = false;
    for watch in watches.iter_mut() {
        if judge_one(alloc, watch, spot, out)? {
            broken = true;
        }
    }
    Ok(broken)
}
