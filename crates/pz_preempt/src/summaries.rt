ghost use Rattle.std.specs.Prelude.{◌≡◌};
ghost use Rattle.pz_tree_standing.specs.pz_offer.Summaries.{join, AreJoinable};
ghost use Rattle.pz_preempt.specs.Tables.{guarded_summary, interrupted_summary, MayGuard, MayInterrupt};
ghost use Rattle.pz_preempt.specs.Forms.{IsOfGuard, IsOfAbort, IsOfInterrupt};

use pz_clock::Shift;
use pz_tree_standing::pz_rules::pz_offer::Summary;

/// Whether the body of a guard is active.
#[derive(Clone, Copy, Debug, PartialEq, Eq)]
pub enum Gate {
    /// The test of the guard is true.
    Open,
    /// It is false, or has a trouble.
    Shut,
}

/// Which parts of an interrupt are active.
#[derive(Clone, Copy, Debug, PartialEq, Eq)]
pub enum Mode {
    /// Both are, until the second acts.
    Idle,
    /// The second is, and the first stands still.
    Handling,
}

/// The summary of a guard but for a trouble of its test, from that of its body, whose clock is this.
pub fn guard_summary(gate: Gate, shift: &Shift, child: &Summary) -> Summary
    requires { MayGuard gate shift.now child.now }
    ensures summary { result ≡ guarded_summary gate shift.now child.now }
    ensures term { IsOfGuard gate shift.now child.now result }
{
    pz_tree_standing::laws::summaries_by_form();
    match gate {
        Gate::Open => child.shifted(shift.behind()),
        Gate::Shut => child.hidden(),
    }
}

/// The summary of an abort, from those of its parts.
pub fn abort_summary(first: &Summary, second: &Summary) -> Summary
    requires { AreJoinable first.now second.now }
    ensures summary { result ≡ join first.now second.now }
    ensures term { IsOfAbort first.now second.now result }
{
    pz_tree_standing::laws::summaries_by_form();
    first.join(second)
}

/// The summary of an interrupt, from those of its parts. The clock of the first is this.
pub fn interrupt_summary(mode: Mode, shift: &Shift, first: &Summary, second: &Summary) -> Summary
    requires { MayInterrupt mode shift.now first.now second.now }
    ensures summary { result ≡ interrupted_summary mode shift.now first.now second.now }
    ensures term { IsOfInterrupt mode shift.now first.now second.now result }
{
    pz_tree_standing::laws::summaries_by_form();
    match mode {
        Mode::Idle => first.shifted(shift.behind()).join(second),
        Mode::Handling => *second,
    }
}
