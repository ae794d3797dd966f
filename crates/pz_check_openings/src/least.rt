// What is told of the rules of opening.

ghost use Rattle.std.specs.Prelude.{◌≡◌, IfOk};
ghost use Rattle.pz_classes.specs.pz_check_violations.Least.{LeastOf};
ghost use Rattle.pz_classes_openings.specs.OpeningRules.{BreaksC23, BreaksC24};
ghost use Rattle.pz_check_openings.specs.devices.Outlines as spec;
ghost use Rattle.pz_classes.specs.CheckedView.{checked_model};
ghost use Rattle.pz_check_openings.specs.Answers.{Tells};

use crate::declaring::declaring;
use crate::each_class::{large_in_any, round_in_any};
use crate::estimate::{Estimates, estimate, reached_of};
use crate::heavy::heavy_of;
use crate::outline::{Outline, outlines_of};
use crate::settled::are_settled;
use crate::suspects::suspects_of;
use pz_classes::Checked;
use pz_classes::pz_check_violations::Violation;
use std::alloc::{AllocError, Global};

/// The least call by which a method begins with itself in some class. The only error is want of
/// memory.
///
/// Only classes that declare a suspect are looked at: in any other the suspects call each other as in
/// its parent.
fn least_round_of(
    alloc: Global,
    checked: &Checked,
    outlines: &[Option<Outline>],
    found: &Estimates,
) -> Result<Option<Violation>, AllocError>
    requires { outlines.now ≡ spec.outlines (checked_model checked.now) }
    ensures { IfOk result (LeastOf (BreaksC23 (checked_model checked.now))) }
{
    let suspects = suspects_of(alloc, outlines, &found.names, found.ranks.as_slice())?;
    let marks = declaring(alloc, checked.model(), suspects.as_slice())?;
    round_in_any(alloc, checked, suspects.as_slice(), marks.as_slice())
}

/// The least method that is too large in some class with all that opens out of it. The only error is
/// want of memory.
///
/// Only classes are looked at that declare a method that may be too large by the bounds, or one that can
/// open out of such a method: in any other these methods open as in its parent.
fn least_size_of(
    alloc: Global,
    checked: &Checked,
    outlines: &[Option<Outline>],
    found: &Estimates,
) -> Result<Option<Violation>, AllocError>
    requires { outlines.now ≡ spec.outlines (checked_model checked.now) }
    ensures { IfOk result (LeastOf (BreaksC24 (checked_model checked.now))) }
{
    let reached = reached_of(alloc, outlines, found)?;
    let heavy = heavy_of(
        alloc,
        outlines,
        &found.names,
        found.bounds.as_slice(),
        reached.as_slice(),
    )?;
    let marks = declaring(alloc, checked.model(), heavy.as_slice())?;
    large_in_any(alloc, checked, heavy.as_slice(), marks.as_slice())
}

/// The least call by which a method begins with itself; where there is none, the least method that is
/// too large with all that opens out of it. The only error is want of memory.
///
/// Most models are settled for all classes at once, in time linear in the text. Only where that finds
/// something is each class looked at.
pub fn least_opening(alloc: Global, checked: &Checked) -> Result<Option<Violation>, AllocError>
    ensures { IfOk result (Tells (checked_model checked.now)) }
{
    let outlines = outlines_of(alloc, checked.model())?;
    let found = estimate(alloc, outlines.as_slice())?;
    if are_settled(outlines.as_slice(), &found.names, found.bounds.as_slice()) {
        return Ok(None);
    }
    let round = least_round_of(alloc, checked, outlines.as_slice(), &found)?;
    match round {
        Some(violation) => Ok(Some(violation)),
        None => least_size_of(alloc, checked, outlines.as_slice(), &found),
    }
}
