// The lines of runs that are none of a trace. The only error is want of memory.

ghost use Rattle.std.specs.Prelude.{◌≡◌, IfOk};
ghost use Rattle.pz_rules.specs.pz_syntax.Classes.{ModelTree};
ghost use Rattle.pz_bind.specs.pz_classes.CheckedView.{checked_model};
ghost use Rattle.pz_bind.specs.devices.Nets.{IsNet};
ghost use Rattle.pz_watch_points.specs.pz_trace.Named.{IsNamed};
ghost use Rattle.pz_run_playing.specs.Endings as endings;
ghost use Rattle.pz_run_playing.specs.Endings.{ending_of};
ghost use Rattle.pz_run_playing.specs.Summaries.{summary_of};
ghost use Rattle.pz_run_playing.specs.Menus as menus;
ghost use Rattle.pz_run_playing.specs.devices.Rests.{HasTroubledAtEnd};

use crate::Finale;
use crate::playing::Played;
use pz_bind::Net;
use pz_bind::pz_classes::Checked;
use pz_term_simulator::Action;
use pz_watch_points::pz_trace::{end_words, label};
use std::alloc::{AllocError, Global};

// How a run has ended, in words.
fn words(alloc: Global, net: &Net, finale: Finale) -> Result<Vec<u8>, AllocError>
    requires { HasTroubledAtEnd net.now (ending_of finale) }
    ensures { (m : ModelTree) → ∥ IsNet m net.now ∥₁ →
        IfOk result (λ words. words.items ≡ endings.ending_words m (ending_of finale)) }
{
    match finale {
        Finale::Ended(ending) => end_words(alloc, net, &ending),
        Finale::Refused { entry, offers } => {
            Ok(format!(in alloc; "refused {entry} of {offers}")?.into_bytes())
        }
    }
}

/// The last line of a run, at a clock, in clock units.
pub(crate) fn last_line(
    alloc: Global,
    net: &Net,
    clock: u128,
    finale: Finale,
) -> Result<Vec<u8>, AllocError>
    requires { HasTroubledAtEnd net.now (ending_of finale) }
    ensures { (m : ModelTree) → ∥ IsNet m net.now ∥₁ →
        IfOk result (λ line. line.items ≡ endings.last_line m clock (ending_of finale)) }
{
    let words = words(alloc, net, finale)?;
    let mut line = format!(in alloc; "{clock} ")?.into_bytes();
    line.extend_from_slice(words.as_slice())?;
    line.push(b'\n')?;
    Ok(line)
}

/// The summary of a run that has ended at a clock, in clock units.
pub(crate) fn summary_line(
    alloc: Global,
    net: &Net,
    clock: u128,
    played: Played,
) -> Result<Vec<u8>, AllocError>
    requires { HasTroubledAtEnd net.now (ending_of played.finale) }
    ensures { (m : ModelTree) → ∥ IsNet m net.now ∥₁ →
        IfOk result (λ line. line.items ≡ summary_of m played.actions played.passes clock
        (ending_of played.finale)) }
{
    let Played {
        finale,
        actions,
        passes,
    } = played;
    let words = words(alloc, net, finale)?;
    let begun = format!(in alloc; "actions {actions} passes {passes} clock {clock} ")?;
    let mut line = begun.into_bytes();
    line.extend_from_slice(words.as_slice())?;
    line.push(b'\n')?;
    Ok(line)
}

/// The line of the offer of this number, from 0, in a menu.
pub(crate) fn offer_line(
    alloc: Global,
    checked: &Checked,
    net: &Net,
    number: u64,
    action: &Action,
) -> Result<Vec<u8>, AllocError>
    requires of_model { ∥ IsNet (checked_model checked.now) net.now ∥₁ }
    requires named { IsNamed net.now action.now }
    ensures { IfOk result (λ line. line.items ≡ menus.offer_line
        (checked_model checked.now) number action.now) }
{
    let label = label(alloc, checked, net, action)?;
    let mut line = format!(in alloc; "offer {number} ")?.into_bytes();
    line.extend_from_slice(label.as_slice())?;
    line.push(b'\n')?;
    Ok(line)
}
