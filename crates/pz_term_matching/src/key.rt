ghost use Rattle.std.specs.Prelude.{◌≡◌, length};

use crate::{Receiver, Sender};

/// What a send and a receive that fit have in common.
#[derive(Clone, Copy, PartialEq, Eq, Hash)]
pub(crate) struct Key<'a> {
    wire: u32,
    message: &'a [u8],
    count: usize,
}

pub(crate) fn key_of_sender(sender: &Sender) -> Key<'_>
    ensures wire { result.wire ≡ sender.now.wire }
    ensures message { result.message.now ≡ sender.now.message }
    ensures count { result.count ≡ length sender.now.parcel.values }
{
    Key {
        wire: sender.wire,
        message: sender.message.as_str().as_bytes(),
        count: sender.parcel.values().len(),
    }
}

pub(crate) fn key_of_receiver(receiver: &Receiver) -> Key<'_>
    ensures wire { result.wire ≡ receiver.now.wire }
    ensures message { result.message.now ≡ receiver.now.message }
    ensures count { result.count ≡ receiver.now.count }
{
    Key {
        wire: receiver.wire,
        message: receiver.message.as_str().as_bytes(),
        count: receiver.count,
    }
}
