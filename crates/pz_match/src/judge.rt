ghost use Rattle.std.specs.Prelude.{◌≡◌, ◌+◌, ℕ, List, IfOk};
ghost use Rattle.pz_offer.specs.pz_copy.Parcels.{ParcelView};
ghost use Rattle.pz_offer.specs.declared.end.End.{End};
ghost use Rattle.pz_offer.specs.declared.ends.Verdict.{Verdict};

use pz_offer::pz_copy::Parcel;
use pz_offer::{End, Verdict};
use std::alloc::AllocError;

/// Who says whether a receive takes the values of a send.
pub trait Judge {
    /// Which questions it takes: of a send, by its end and its values, and a receive.
    ghost takes: { Self → End → ParcelView → End → Type 0 };

    /// What it says to them.
    ghost verdict: { Self → End → ParcelView → End → Verdict };

    /// How many questions it was asked.
    ghost asked: { Self → ℕ };

    /// What it has borrowed, by name.
    ghost lent: { Self → List ℕ };

    /// Whether the receive takes these values, which are those of the send. The only error is want of
    /// memory.
    fn judge(
        &mut self,
        sender: &End,
        parcel: &Parcel,
        receiver: &End,
    ) -> Result<Verdict, AllocError>
        requires { takes self.old sender.now parcel.now receiver.now }
        ensures verdict { IfOk result (λ v. v ≡ verdict self.old sender.now parcel.now
            receiver.now) }
        ensures takes { (s : End) (p : ParcelView) (r : End) → takes self.old s p r →
            takes self.new s p r }
        ensures verdicts { (s : End) (p : ParcelView) (r : End) →
            verdict self.new s p r ≡ verdict self.old s p r }
        ensures lent { lent self.new ≡ lent self.old }
        ensures asked { asked self.new ≡ asked self.old + 1 };
}
