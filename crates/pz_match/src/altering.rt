// A process offers something else, or the same again.

ghost use Rattle.std.specs.Prelude.{◌≡◌, ◌<◌, ◌+◌, length, map, All, AllPairs, OnOk};
ghost use Rattle.pz_offer.specs.PlaceOrder.{PlaceBefore};
ghost use Rattle.pz_match.specs.Offers.{senders, receivers};
ghost use Rattle.pz_match.specs.Judging.{MayTake, Stays};
ghost use Rattle.pz_match.specs.devices.Kept.{kept};
ghost use Rattle.pz_match.specs.devices.Tallies.{Distinct};
ghost use Rattle.pz_match.specs.devices.Asking.{all_written};
ghost use Rattle.pz_match.specs.devices.Users.{Whole};
ghost use Rattle.pz_match.specs.devices.Updating.{Replaced, senders_of, receivers_of};

use crate::again::{is_again, tell_again};
use crate::groups::Groups;
use crate::judge::Judge;
use crate::kept::Offers;
use crate::planning::Plan;
use crate::rows::Spare;
use crate::sharing::{Way, shift};
use crate::updating::replace_in;
use crate::users::Users;
use pz_match_lists::{Numbers, Shares};
use pz_offer::{ReceiveOffer, SendOffer};
use std::alloc::AllocError;

/// A process offers other sends and receives, and it is noted who uses which wire, and what blocks
/// have. The only error is want of memory.
fn exchange<J: Judge>(
    all: &mut Vec<Offers>,
    groups: &mut Groups,
    users: &mut Users,
    shares: &mut Shares,
    places: &mut Numbers,
    plan: &mut Plan,
    spare: &mut Spare,
    process: u32,
    sends: Vec<SendOffer>,
    receives: Vec<ReceiveOffer>,
    judge: &mut J,
) -> Result<(), AllocError>
    requires within { process < length all.old.items }
    requires whole { Whole groups.old users.old shares.old (map kept all.old.items) }
    requires sends_ordered { AllPairs (λ s t. PlaceBefore s.place t.place) sends.items }
    requires receives_ordered { AllPairs (λ r q. PlaceBefore r.place q.place) receives.items }
    requires sends_asked { MayTake J.takes judge.old (senders process sends.items)
        (receivers_of (map kept all.old.items)) }
    requires receives_asked { MayTake J.takes judge.old (senders_of (map kept all.old.items))
        (receivers process receives.items) }
    ensures replaced { OnOk result (Replaced (J.verdict judge.old) process sends.items
        receives.items groups.old (map kept all.old.items) groups.new (map kept all.new.items)) }
    ensures whole { OnOk result (Whole groups.new users.new shares.new (map kept all.new.items)) }
    ensures stays { OnOk result (Stays J.takes J.verdict J.lent judge.old judge.new) }
    ensures asked { OnOk result (J.asked judge.new ≡ J.asked judge.old + all_written process
        (map kept all.new.items)) }
    ensures lent { J.lent judge.new ≡ J.lent judge.old }
    ensures within { OnOk result (All (λ x. x.wire < groups.new.wires) groups.new.groups) }
    ensures distinct { OnOk result (Distinct groups.new.groups) }
{
    users.note(process, sends.as_slice(), receives.as_slice())?;
    shift(shares, all.as_slice(), process, Way::Off)?;
    replace_in(
        all, groups, users, places, plan, spare, process, sends, receives, judge,
    )?;
    shift(shares, all.as_slice(), process, Way::On)?;
    Ok(())
}

/// A process offers other sends and receives. Where they are what it offers, but for places and
/// values, and no condition is about, they are told anew, and all else stays. The only error is want of
/// memory.
pub(crate) fn alter<J: Judge>(
    all: &mut Vec<Offers>,
    groups: &mut Groups,
    users: &mut Users,
    shares: &mut Shares,
    places: &mut Numbers,
    plan: &mut Plan,
    spare: &mut Spare,
    process: u32,
    sends: Vec<SendOffer>,
    receives: Vec<ReceiveOffer>,
    judge: &mut J,
) -> Result<(), AllocError>
    requires within { process < length all.old.items }
    requires whole { Whole groups.old users.old shares.old (map kept all.old.items) }
    requires sends_ordered { AllPairs (λ s t. PlaceBefore s.place t.place) sends.items }
    requires receives_ordered { AllPairs (λ r q. PlaceBefore r.place q.place) receives.items }
    requires sends_asked { MayTake J.takes judge.old (senders process sends.items)
        (receivers_of (map kept all.old.items)) }
    requires receives_asked { MayTake J.takes judge.old (senders_of (map kept all.old.items))
        (receivers process receives.items) }
    ensures replaced { OnOk result (Replaced (J.verdict judge.old) process sends.items
        receives.items groups.old (map kept all.old.items) groups.new (map kept all.new.items)) }
    ensures whole { OnOk result (Whole groups.new users.new shares.new (map kept all.new.items)) }
    ensures stays { OnOk result (Stays J.takes J.verdict J.lent judge.old judge.new) }
    ensures asked { OnOk result (J.asked judge.new ≡ J.asked judge.old + all_written process
        (map kept all.new.items)) }
    ensures lent { J.lent judge.new ≡ J.lent judge.old }
    ensures within_old { All (λ x. x.wire < groups.old.wires) groups.old.groups }
    ensures within { OnOk result (All (λ x. x.wire < groups.new.wires) groups.new.groups) }
    ensures distinct { OnOk result (Distinct groups.new.groups) }
{
    groups.are_distinct();
    let again = is_again(
        groups,
        all.as_slice(),
        process,
        sends.as_slice(),
        receives.as_slice(),
    );
    if again {
        tell_again(all.as_mut_slice(), process, sends, receives);
        return Ok(());
    }
    exchange(
        all, groups, users, shares, places, plan, spare, process, sends, receives, judge,
    )
}
