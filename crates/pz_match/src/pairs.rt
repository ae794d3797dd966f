use crate::altering::alter;
use crate::groups::Groups;
use crate::judge::Judge;
use crate::kept::Offers;
use crate::offers::Sender;
use crate::planning::Plan;
use crate::rows::Spare;
use crate::seeking::{find_trouble, pair_on};
use crate::updating::silence;
use crate::users::Users;
use pz_match_lists::{Numbers, Shares};
use pz_offer::{End, ReceiveOffer, SendOffer, Trouble};
use std::alloc::{AllocError, Global};
use std::marker::Model;

/// The sends and receives that processes offer, and the pairs of them that fit, in the order of their
/// wires, sends and receives. Contracts see a `Table`.
pub struct Pairs {
    offers: Vec<Offers>,
    groups: Groups,
    users: Users,
    shares: Shares,
    /// The places of the processes whose sends an update asks about: room for the next one.
    places: Numbers,
    /// What stays at an update: room for the next one.
    plan: Plan,
    /// Rows of sends that are gone: room for those that come.
    spare: Spare,
    lost: bool,
}

// Written out, so that it is proved once, here, and not in each crate that drops one.
impl Drop for Pairs {
    fn drop(self) {
        let Pairs {
            offers,
            groups,
            users,
            shares,
            places,
            plan,
            spare,
            lost: _,
        } = self;
        std::mem::drop(offers);
        std::mem::drop(groups);
        std::mem::drop(users);
        std::mem::drop(shares);
        std::mem::drop(places);
        std::mem::drop(plan);
        std::mem::drop(spare);
    }
}

impl Model for Pairs {
    ghost use Rattle.std.specs.Prelude.{◌≡◌, false, map};
    ghost use Rattle.pz_match.specs.Table.{Table};
    ghost use Rattle.pz_match.specs.devices.Kept.{kept};
    ghost use Rattle.pz_match.specs.devices.Tables.{table_of};
    ghost use Rattle.pz_match.specs.devices.Users.{Whole};

    ghost Value = { Table };

    ghost view = { λ t. table_of (map kept t.offers.items) t.groups.wires t.lost };

    ghost invariant = { λ t. t.lost ≡ false →
        Whole t.groups t.users t.shares (map kept t.offers.items) };
}

impl Pairs {
    ghost use Rattle.std.specs.Prelude.{◌≡◌, ◌<◌, ◌≤◌, ◌+◌, [], true, false, not, length, replicate, filter, map, slice_get, slice_set, All, AllPairs, IfOk, OnOk, OnErr};
    ghost use Rattle.pz_offer.specs.declared.ends.Verdict.TheVariants.{Yes};
    ghost use Rattle.pz_match.specs.Offers.{senders, receivers};
    ghost use Rattle.pz_match.specs.Judging.{Stays, said};
    ghost use Rattle.pz_offer.specs.PlaceOrder.{PlaceBefore};
    ghost use Rattle.pz_match.specs.Pairs.{ArePairs, taken, offered, first_trouble, touches, questions};
    ghost use Rattle.pz_match.specs.Table.{all_senders, all_receivers};
    ghost use Rattle.pz_match.specs.Judging.{MayTake};

    /// The table of so many processes, which offer nothing yet. The only error is want of memory.
    pub fn new(alloc: Global, processes: u32) -> Result<Pairs, AllocError>
        ensures senders { IfOk result (λ t. t.senders ≡ replicate processes []) }
        ensures receivers { IfOk result (λ t. t.receivers ≡ replicate processes []) }
        ensures pairs { IfOk result (λ t. t.pairs ≡ []) }
        ensures there { IfOk result (λ t. t.lost ≡ false) }
    {
        let offers = silence(alloc, processes)?;
        Ok(Pairs {
            offers,
            groups: Groups::new(alloc),
            users: Users::new(alloc),
            shares: Shares::new(alloc),
            places: Numbers::new(alloc),
            plan: Plan::new(alloc),
            spare: Spare::new(alloc),
            lost: false,
        })
    }

    /// The process offers other sends and receives; those of the others stay. The judge is asked about
    /// each pair that fits, has a condition and has an end in this process, once, and about no other.
    /// The only error is want of memory, and then nothing is known of the table but that it is lost.
    pub fn update<J: Judge>(
        &mut self,
        process: u32,
        sends: Vec<SendOffer>,
        receives: Vec<ReceiveOffer>,
        judge: &mut J,
    ) -> Result<(), AllocError>
        requires process { process < length self.old.senders }
        requires there { self.old.lost ≡ false }
        requires sends_ordered { AllPairs (λ s t. PlaceBefore s.place t.place) sends.items }
        requires receives_ordered { AllPairs (λ r q. PlaceBefore r.place q.place) receives.items }
        requires sends_asked { MayTake J.takes judge.old (senders process sends.items)
            (all_receivers self.old) }
        requires receives_asked { MayTake J.takes judge.old (all_senders self.old)
            (receivers process receives.items) }
        ensures senders { OnOk result (self.new.senders ≡ slice_set self.old.senders process
            (senders process sends.items)) }
        ensures receivers { OnOk result (self.new.receivers ≡ slice_set self.old.receivers process
            (receivers process receives.items)) }
        ensures pairs { OnOk result (ArePairs (all_senders self.new)
            (all_receivers self.new) self.new.pairs) }
        ensures free { OnOk result (All (λ p. p.receiver.conditional ≡ false →
            p.verdict ≡ Yes) self.new.pairs) }
        ensures asked_now { OnOk result (All (λ p. touches process p ≡ true →
            p.verdict ≡ said (J.verdict judge.old) p.sender p.receiver) self.new.pairs) }
        ensures others { OnOk result (filter (λ p. not (touches process p)) self.new.pairs ≡ filter
            (λ p. not (touches process p)) self.old.pairs) }
        ensures questions { OnOk result (J.asked judge.new ≡ J.asked judge.old + length
            (questions process self.new.pairs)) }
        ensures stays { OnOk result (Stays J.takes J.verdict J.lent judge.old judge.new) }
        ensures lent { J.lent judge.new ≡ J.lent judge.old }
        ensures there { OnOk result (self.new.lost ≡ false) }
        ensures lost { OnErr result (self.new.lost ≡ true) }
    {
        self.lost = true;
        alter(
            &mut self.offers,
            &mut self.groups,
            &mut self.users,
            &mut self.shares,
            &mut self.places,
            &mut self.plan,
            &mut self.spare,
            process,
            sends,
            receives,
            judge,
        )?;
        self.lost = false;
        Ok(())
    }

    /// How many pairs are taken: those without a condition, and those whose condition is true. Takes a
    /// step.
    pub fn count(&self) -> u64
        requires { self.now.lost ≡ false }
        ensures { result ≡ length (taken self.now.pairs) }
    {
        self.groups.total()
    }

    /// A copy of the send of the taken pair with this number, from 0, and the end of its receive; none
    /// where there are no more. The only error is want of memory.
    pub fn kth(&self, k: u64) -> Result<Option<(Sender, End)>, AllocError>
        requires { self.now.lost ≡ false }
        ensures { IfOk result (λ pair. pair ≡ slice_get (map offered (taken self.now.pairs)) k) }
    {
        match self.groups.wire_of(k) {
            None => Ok(None),
            Some((wire, rest)) => {
                let senders = self.users.senders.list(wire);
                let receivers = self.users.receivers.list(wire);
                let blocks = self.users.blocks.list(wire);
                let offers = self.offers.as_slice();
                pair_on(
                    &self.groups,
                    offers,
                    &self.shares,
                    senders,
                    receivers,
                    blocks,
                    wire,
                    rest,
                )
            }
        }
    }

    /// The trouble of the first pair whose condition has one. Where there is none, takes a step.
    pub fn trouble(&self) -> Option<Trouble>
        requires { self.now.lost ≡ false }
        ensures { result ≡ first_trouble self.now.pairs }
    {
        find_trouble(
            &self.groups,
            self.offers.as_slice(),
            &self.shares,
            &self.users,
        )
    }
}
