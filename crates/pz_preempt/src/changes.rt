ghost use Rattle.std.specs.Prelude.{◌≡◌};
ghost use Rattle.pz_preempt.specs.Tables.{abort_change, interrupt_change};
ghost use Rattle.pz_preempt.specs.Forms.{IsLeftOfAbort, IsLeftOfInterrupt};

use crate::Mode;

/// What becomes of an abort or an interrupt when one of its parts has acted.
#[derive(Clone, Copy, Debug, PartialEq, Eq)]
pub enum Change {
    /// The part that acted becomes what is left of it.
    Same,
    /// What is left of the second part stands in the place of the whole.
    KeepSecond,
    /// The first part stands still, and the second goes on.
    Suspend,
    /// The first part goes on, and the second begins afresh.
    Resume,
    /// The whole is done.
    End,
}

/// What becomes of an abort when the part of this number has acted, and is done or is not.
pub fn abort_after(child: u32, done: bool) -> Change
    ensures change { result ≡ abort_change child done }
    ensures residual { IsLeftOfAbort child done result }
{
    match (child, done) {
        (0, true) => Change::End,
        (0, false) => Change::Same,
        (_, _) => Change::KeepSecond,
    }
}

/// What becomes of an interrupt when the part of this number has acted, and is done or is not.
pub fn interrupt_after(mode: Mode, child: u32, done: bool) -> Change
    ensures change { result ≡ interrupt_change mode child done }
    ensures residual { IsLeftOfInterrupt mode child done result }
{
    match (mode, child, done) {
        (Mode::Idle, 0, true) => Change::End,
        (Mode::Idle, 0, false) => Change::Same,
        (Mode::Idle, _, true) => Change::Resume,
        (Mode::Idle, _, false) => Change::Suspend,
        (Mode::Handling, _, true) => Change::Resume,
        (Mode::Handling, _, false) => Change::Same,
    }
}
