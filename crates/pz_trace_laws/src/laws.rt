// Laws of names and lines, each the contract of a function that does nothing but call laws of the
// crates below.

ghost use Rattle.pz_trace_laws.specs.Laws.{NamesAreUnbroken, MessagesAreUnbroken, StartIsUnbroken, StaysUnbroken, OffersAreUnbroken, RunsTellLines};

/// No LF stands in the name of an instance, a class or a message of a model that was read.
pub fn names_are_unbroken()
    ensures names { NamesAreUnbroken }
    ensures messages { MessagesAreUnbroken }
{}

/// Nor is one in what a run of that model tells: at the start all that is left of the processes is
/// so, it stays so, and then each action that is offered names a message without one. So each event
/// has a line of its own.
pub fn runs_tell_lines()
    ensures start { StartIsUnbroken }
    ensures stays { StaysUnbroken }
    ensures offers { OffersAreUnbroken }
    ensures events { RunsTellLines }
{
    names_are_unbroken();
    pz_trace::laws::lines_stand_apart();
    pz_trace::pz_rules::laws::one_next();
}
