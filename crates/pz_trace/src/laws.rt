// Laws of lines, each the contract of a function that does nothing.

ghost use Rattle.pz_trace.specs.Laws.{HeadersAreLines, HeadersDiffer, OneFormIsTold, FormsAreKept, TimeLinesAreLines, ActionLinesAreLines, EndLinesAreLines, OneFirstLine, ActionLinesDiffer, StopIsNoAction, StopIsNoPassing, OneHeading, EveryHeading, ActionsHaveHeadings, OffersAreNamed, FaultsAreNamed, HighsAreNamed, StopsAreNamed};

/// Each line ends with LF and has none before it, whatever a parcel holds, where no name of an
/// instance, a class or a message has one. So a trace is cut into its lines at each LF.
pub fn lines_stand_apart()
    ensures header { HeadersAreLines }
    ensures time { TimeLinesAreLines }
    ensures action { ActionLinesAreLines }
    ensures end { EndLinesAreLines }
{}

/// A text begins with no more than one line. Of one moment, the lines of two offers differ, and the line
/// of a stop is that of no offer and of no passing of time.
pub fn lines_differ()
    ensures first { OneFirstLine }
    ensures offers { ActionLinesDiffer }
    ensures stop_acting { StopIsNoAction }
    ensures stop_passing { StopIsNoPassing }
{}

/// A header tells one form, a text begins with the header of no more than one, and the limits that a form
/// tells have that form.
pub fn headers_differ()
    ensures one { HeadersDiffer }
    ensures told { OneFormIsTold }
    ensures kept { FormsAreKept }
{}

/// A text has one heading and no more, and that of the line of an action has its numbers.
pub fn headings_tell_actions()
    ensures one { OneHeading }
    ensures some { EveryHeading }
    ensures actions { ActionsHaveHeadings }
{}

/// What a line has to name is there: an action that is offered names processes, and a wire, of the
/// net of the model, and a trouble before or in an action names a process of it. So does that of a start
/// that is too high.
pub fn what_happens_is_named()
    ensures offers { OffersAreNamed }
    ensures faults { FaultsAreNamed }
    ensures highs { HighsAreNamed }
    ensures stops { StopsAreNamed }
{}
