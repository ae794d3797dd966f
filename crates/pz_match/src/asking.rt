// Questions to the judge.

ghost use Rattle.std.specs.Prelude.{◌≡◌, ◌+◌, ◌++◌, length, count_by, map, All, OnOk};
ghost use Rattle.pz_match_lists.specs.Increasing.{Increasing};
ghost use Rattle.std.specs.List.{flat_map};
ghost use Rattle.pz_match.specs.Judging.{Stays};
ghost use Rattle.pz_match.specs.devices.Kept.{asks_in, kept};
ghost use Rattle.pz_match.specs.devices.Seeking.{OnlyAt};
ghost use Rattle.pz_match.specs.devices.Asking.{asked, asked_in, MayAsk, MayAskAll};

use crate::judge::Judge;
use crate::kept::{Offers, Receiving};
use crate::offers::Sender;
use crate::rows::{Row, Rows};
use std::alloc::AllocError;

/// Asks the conditional receives of a process that are in the group of a send, in order, and notes
/// what they say. The only error is want of memory.
pub(crate) fn ask<J: Judge>(
    sender: &Sender,
    group: usize,
    process: u32,
    receives: &[Receiving],
    rows: &mut Rows,
    judge: &mut J,
) -> Result<(), AllocError>
    requires { All (MayAsk J.takes judge.old sender.now group) receives.now }
    ensures rows { OnOk result (rows.new ≡ rows.old ++ asked
        (J.verdict judge.old) sender.now group process receives.now) }
    ensures stays { OnOk result (Stays J.takes J.verdict J.lent judge.old judge.new) }
    ensures asked { OnOk result (J.asked judge.new ≡ J.asked judge.old + length
        (asked (J.verdict judge.old) sender.now group process receives.now)) }
    ensures lent { J.lent judge.new ≡ J.lent judge.old }
{
    for receive in receives {
        if receive.group == group && receive.receiver.conditional {
            let verdict = judge.judge(&sender.end, &sender.parcel, &receive.receiver.end)?;
            rows.push(Row { process, verdict })?;
        }
    }
    Ok(())
}

/// Asks for a send the conditional receives of all other processes that are in its group: only these
/// processes have any. The only error is want of memory.
pub(crate) fn ask_all<J: Judge>(
    all: &[Offers],
    askers: &[usize],
    sender: &Sender,
    group: usize,
    rows: &mut Rows,
    judge: &mut J,
) -> Result<(), AllocError>
    requires increasing { Increasing askers.now }
    requires only { OnlyAt askers.now (map kept all.now)
        (λ e. count_by (asks_in group) e.receives) }
    requires takes { All (MayAskAll J.takes judge.old sender.now group) (map kept all.now) }
    ensures rows { OnOk result (rows.new ≡ rows.old ++ flat_map
        (asked_in (J.verdict judge.old) sender.now group) (map kept all.now)) }
    ensures stays { OnOk result (Stays J.takes J.verdict J.lent judge.old judge.new) }
    ensures asked { OnOk result (J.asked judge.new ≡ J.asked judge.old + length
        (flat_map (asked_in (J.verdict judge.old) sender.now group) (map kept all.now))) }
    ensures lent { J.lent judge.new ≡ J.lent judge.old }
{
    for at in 0..askers.len() {
        let process = askers[at];
        if process >= all.len() {
            continue;
        }
        let offers = &all[process];
        if offers.process == sender.end.process {
            continue;
        }
        let receives = offers.receives.as_slice();
        ask(sender, group, offers.process, receives, rows, judge)?;
    }
    Ok(())
}
