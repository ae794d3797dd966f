//! What a process offers, for the table.

ghost use Rattle.std.specs.Prelude.{◌≡◌, ◌∷◌, ◌<◌, [], false, length, AllPairs, IfOk, OnOk};
ghost use Rattle.pz_offer.specs.PlaceOrder.{PlaceBefore};

use crate::words::{Kind, Wish};
use pz_offer::pz_copy::{Parcel, pack};
use pz_offer::pz_state::State;
use pz_offer::pz_value::Value;
use pz_offer::{Place, ReceiveOffer, SendOffer};
use pz_syntax::Name;
use std::alloc::{AllocError, Global};

fn place_of(alloc: Global, number: usize) -> Result<Place, AllocError>
    ensures { IfOk result (λ place. place ≡ number ∷ []) }
{
    let mut place = Place::root(alloc);
    place.enter(number)?;
    Ok(place)
}

fn message_of(alloc: Global, wish: Wish) -> Result<Name, AllocError> {
    let text = if wish.second { "b" } else { "a" };
    Name::new(alloc, text)
}

/// So many times the same value.
fn values(alloc: Global, count: u32) -> Result<Parcel, AllocError> {
    let state = State::new(alloc, Vec::new(alloc));
    let mut values = Vec::new(alloc);
    for _ in 0..count {
        values.push(Value::Nil)?;
    }
    pack(alloc, &state, values.as_slice())
}

fn send(alloc: Global, number: usize, wish: Wish) -> Result<SendOffer, AllocError>
    ensures { IfOk result (λ s. s.place ≡ number ∷ []) }
{
    let place = place_of(alloc, number)?;
    let message = message_of(alloc, wish)?;
    let parcel = values(alloc, wish.values)?;
    Ok(SendOffer {
        wire: wish.wire,
        place,
        message,
        parcel,
    })
}

fn receive(alloc: Global, number: usize, wish: Wish) -> Result<ReceiveOffer, AllocError>
    ensures { IfOk result (λ r. r.place ≡ number ∷ []) }
{
    let place = place_of(alloc, number)?;
    let message = message_of(alloc, wish)?;
    Ok(ReceiveOffer {
        wire: wish.wire,
        place,
        message,
        count: wish.values as usize,
        conditional: wish.kind == Kind::Asking,
        uses_clock: false,
    })
}

pub fn sends(alloc: Global, wishes: &[Wish]) -> Result<Vec<SendOffer>, AllocError>
    ensures { IfOk result (λ ss. AllPairs (λ s t. PlaceBefore s.place t.place) ss.items) }
{
    let mut sends = Vec::new(alloc);
    for (number, wish) in wishes.iter().enumerate() {
        if wish.kind == Kind::Send {
            sends.push(send(alloc, number, *wish)?)?;
        }
    }
    Ok(sends)
}

pub fn receives(alloc: Global, wishes: &[Wish]) -> Result<Vec<ReceiveOffer>, AllocError>
    ensures { IfOk result (λ rs. AllPairs (λ r q. PlaceBefore r.place q.place) rs.items) }
{
    let mut receives = Vec::new(alloc);
    for (number, wish) in wishes.iter().enumerate() {
        if wish.kind != Kind::Send {
            receives.push(receive(alloc, number, *wish)?)?;
        }
    }
    Ok(receives)
}
