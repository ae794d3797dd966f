// What a node keeps, form by form, from what its children keep. The only error is that there is more to do
// than can be counted, or a term higher than can be counted.

ghost use Rattle.std.specs.Prelude.{◌≡◌, IfOk};
ghost use Rattle.pz_tree_nodes.specs.Keeping.{joined, raised};
ghost use Rattle.pz_tree_nodes.specs.devices.Leaves.{second_alone};
ghost use Rattle.pz_tree_regrowing.specs.devices.Keeping as keeping;
ghost use Rattle.pz_tree_regrowing.specs.devices.Keeping.{kept_behind};

use pz_rules::pz_offer::Summary;
use pz_tree_nodes::Kept;
use std::alloc::AllocError;

/// Of a sequence.
pub(crate) fn sequence_kept(part: &Kept) -> Result<Kept, AllocError>
    ensures { IfOk result (λ kept. kept ≡ raised part.now) }
{
    part.raised()
}

/// Of a frame.
pub(crate) fn frame_kept(body: &Kept) -> Result<Kept, AllocError>
    ensures { IfOk result (λ kept. kept ≡ raised body.now) }
{
    body.raised()
}

/// Of parts side by side, of which all this is kept.
pub(crate) fn parallel_kept(parts: &Kept) -> Result<Kept, AllocError>
    ensures { IfOk result (λ kept. kept ≡ raised parts.now) }
{
    parts.raised()
}

/// Of an abort.
pub(crate) fn abort_kept(first: &Kept, second: &Kept) -> Result<Kept, AllocError>
    ensures { IfOk result (λ kept. kept ≡ raised (joined first.now second.now)) }
{
    let both = first.join(second)?;
    both.raised()
}

/// Of an interrupt whose first part is behind by so many clock units.
pub(crate) fn idle_kept(behind: u128, first: &Kept, second: &Kept) -> Result<Kept, AllocError>
    ensures { IfOk result (λ kept. kept ≡ raised (joined (kept_behind behind first.now)
        second.now)) }
{
    let first = behind_kept(behind, first);
    let both = first.join(second)?;
    both.raised()
}

/// Of one whose second part acts: the first stands still.
pub(crate) fn handling_kept(first: &Kept, second: &Kept) -> Result<Kept, AllocError>
    ensures { IfOk result (λ kept. kept ≡ raised (second_alone first.now second.now)) }
{
    let alone = Kept {
        height: first.height.max(second.height),
        ..*second
    };
    alone.raised()
}

/// Of what stands behind a clock that is behind by so many clock units.
pub(crate) fn behind_kept(behind: u128, inner: &Kept) -> Kept
    ensures { result ≡ kept_behind behind inner.now }
{
    Kept {
        summary: moved(&inner.summary, behind),
        ..*inner
    }
}

/// All is due so much later. There is a moment for what is right: delays have less than 2^64 clock units
/// left. What has still to be asked may be anything.
fn moved(summary: &Summary, behind: u128) -> Summary
    ensures { result ≡ keeping.moved behind summary.now }
{
    let due = match summary.due {
        None => None,
        Some(due) => Some(due.saturating_add(behind)),
    };
    Summary { due, ..*summary }
}
