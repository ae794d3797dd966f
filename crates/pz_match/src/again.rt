// A process offers again what it offers, where no condition is about.

ghost use Rattle.std.specs.Prelude.{◌≡◌, ◌<◌, [], length, map, slice_get, slice_set, Some, IsTrue};
ghost use Rattle.pz_match.specs.devices.Kept.{Kept, kept};
ghost use Rattle.pz_match.specs.devices.Tallies.{tally_at};
ghost use Rattle.pz_match.specs.devices.Again.{Again, Beside, ReceiveAgain, SameReceive, SameSend, SendAgain, all_again, receive_again, send_again, told_again};

use crate::groups::Groups;
use crate::kept::{Offers, Receiving, Sending};
use pz_offer::{ReceiveOffer, SendOffer};

/// Whether a send has the marks of one that is kept.
pub(crate) fn is_same_send(send: &Sending, offer: &SendOffer) -> bool
    ensures { IsTrue result → SameSend send.now offer.now }
{
    offer.wire == Some(send.sender.wire)
        && offer.parcel.values().len() == send.sender.parcel.values().len()
        && offer.message.as_str() == send.sender.message.as_str()
}

/// Whether a receive has the marks of one that is kept.
pub(crate) fn is_same_receive(receive: &Receiving, offer: &ReceiveOffer) -> bool
    ensures { IsTrue result → SameReceive receive.now offer.now }
{
    offer.wire == Some(receive.receiver.wire)
        && offer.count == receive.receiver.count
        && offer.conditional == receive.receiver.conditional
        && offer.message.as_str() == receive.receiver.message.as_str()
}

/// Whether no condition has been asked about a send, nor could be by one that is kept.
fn is_calm(groups: &Groups, send: &Sending) -> bool
    ensures rows { IsTrue result → send.now.rows ≡ [] }
    ensures asking { IsTrue result → (tally_at groups.now.groups send.now.group).asking ≡ 0 }
{
    send.rows.as_slice().is_empty() && groups.tally(send.group).asking == 0
}

/// Whether a send is one that is kept, but for its place and values, and no condition is about.
fn is_send_again(groups: &Groups, send: &Sending, offer: &SendOffer) -> bool
    ensures { IsTrue result → SendAgain groups.now send.now offer.now }
{
    is_calm(groups, send) && is_same_send(send, offer)
}

/// Whether a receive is one that is kept, but for its place, and has no condition.
fn is_receive_again(receive: &Receiving, offer: &ReceiveOffer) -> bool
    ensures { IsTrue result → ReceiveAgain receive.now offer.now }
{
    !receive.receiver.conditional && is_same_receive(receive, offer)
}

/// Whether these sends are those that are kept.
fn are_sends_again(groups: &Groups, sends: &[Sending], offers: &[SendOffer]) -> bool
    ensures { IsTrue result → Beside (SendAgain groups.now) sends.now offers.now }
{
    if sends.len() != offers.len() {
        return false;
    }
    for at in 0..sends.len() {
        if !is_send_again(groups, &sends[at], &offers[at]) {
            return false;
        }
    }
    true
}

/// Whether these receives are those that are kept.
fn are_receives_again(receives: &[Receiving], offers: &[ReceiveOffer]) -> bool
    ensures { IsTrue result → Beside ReceiveAgain receives.now offers.now }
{
    if receives.len() != offers.len() {
        return false;
    }
    for at in 0..receives.len() {
        if !is_receive_again(&receives[at], &offers[at]) {
            return false;
        }
    }
    true
}

/// Whether a process offers again what it offers, but for places and values, and no condition is about.
pub(crate) fn is_again(
    groups: &Groups,
    all: &[Offers],
    process: u32,
    sends: &[SendOffer],
    receives: &[ReceiveOffer],
) -> bool
    requires { process < length all.now }
    ensures { IsTrue result → (e : Kept) → slice_get (map kept all.now) process ≡ Some e →
        Again groups.now e sends.now receives.now }
{
    let offers = &all[process as usize];
    are_receives_again(offers.receives.as_slice(), receives)
        && are_sends_again(groups, offers.sends.as_slice(), sends)
}

fn tell_send(send: &mut Sending, offer: SendOffer)
    ensures { send.new ≡ send_again send.old offer }
{
    send.sender.end.place = offer.place;
    send.sender.parcel = offer.parcel;
}

fn tell_receive(receive: &mut Receiving, offer: ReceiveOffer)
    ensures { receive.new ≡ receive_again receive.old offer }
{
    receive.receiver.end.place = offer.place;
}

/// The sends that are kept have the places and values of these.
fn tell_sends(sends: &mut [Sending], offers: Vec<SendOffer>)
    requires { length sends.old ≡ length offers.items }
    ensures { sends.new ≡ told_again send_again sends.old offers.items }
{
    let mut at = 0;
    for offer in offers {
        tell_send(&mut sends[at], offer);
        at += 1;
    }
}

/// The receives that are kept have the places of these.
fn tell_receives(receives: &mut [Receiving], offers: Vec<ReceiveOffer>)
    requires { length receives.old ≡ length offers.items }
    ensures { receives.new ≡ told_again receive_again receives.old offers.items }
{
    let mut at = 0;
    for offer in offers {
        tell_receive(&mut receives[at], offer);
        at += 1;
    }
}

/// A process offers again what it offers, at other places and with other values.
pub(crate) fn tell_again(
    all: &mut [Offers],
    process: u32,
    sends: Vec<SendOffer>,
    receives: Vec<ReceiveOffer>,
)
    requires within { process < length all.old }
    requires sends { (e : Kept) → slice_get (map kept all.old) process ≡ Some e →
        length e.sends ≡ length sends.items }
    requires receives { (e : Kept) → slice_get (map kept all.old) process ≡ Some e →
        length e.receives ≡ length receives.items }
    ensures { (e : Kept) → slice_get (map kept all.old) process ≡ Some e → map kept all.new ≡
        slice_set (map kept all.old) process (all_again e sends.items receives.items) }
{
    let offers = &mut all[process as usize];
    tell_sends(offers.sends.as_mut_slice(), sends);
    tell_receives(offers.receives.as_mut_slice(), receives);
}
