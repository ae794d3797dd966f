// Laws of the points of runs, each the contract of a function that does nothing but call laws of the
// crates below.

ghost use Rattle.pz_watch_points.specs.Laws.{NamedHaveProcesses, OffersHaveProcesses, RunsAreInOrder, RunsLieWithin, RunsGoOn, LinesShowPoints, OneLineOnePoint};

/// The processes of an action that its line names are those of the net, and so are those of each that is
/// offered.
pub fn processes_are_there()
    ensures named { NamedHaveProcesses }
    ensures offers { OffersHaveProcesses }
{
    pz_trace::laws::what_happens_is_named();
}

/// In each run the clocks of its points never fall, and lie between those of its first and its last
/// configuration. So with the point of whatever happens next they do not fall either, which is what a
/// watch asks for.
pub fn runs_are_in_order()
    ensures order { RunsAreInOrder }
    ensures within { RunsLieWithin }
    ensures onward { RunsGoOn }
{}

/// The line of each event shows its point: the clock and the words are those of the line. Where no name
/// of an instance has a blank, and none of a message an opening parenthesis, events of a model with one
/// line have one point.
pub fn lines_show_points()
    ensures shown { LinesShowPoints }
    ensures one { OneLineOnePoint }
{}
