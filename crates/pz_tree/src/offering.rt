// What a tree offers to others.

ghost use Rattle.std.specs.Prelude.{◌≡◌, ◌<◌, ℕ, IfOk};
ghost use Rattle.pz_rules.specs.pz_syntax.Classes.{ModelTree};
ghost use Rattle.pz_bind.specs.pz_classes.CheckedView.{checked_model};
ghost use Rattle.pz_bind.specs.NetView.{HasProcess};
ghost use Rattle.pz_bind.specs.devices.Nets.{IsNet};
ghost use Rattle.pz_term_processes.specs.pz_eval.Known.{AreKnown};
ghost use Rattle.pz_nodes.specs.Arena.{find};
ghost use Rattle.pz_term_processes.specs.pz_part_queries.Standpoints.{Knows, seen_from};
ghost use Rattle.pz_rules.specs.Fitting.{TermFits};
ghost use Rattle.pz_tree_offering.specs.Offers.{SendsRule, ReceivesRule};
ghost use Rattle.pz_tree.specs.Asking.{AreSendOffers, AreReceiveOffers};
ghost use Rattle.pz_tree.specs.Trees.{at_in, term_in, IsFresh};
ghost use Rattle.pz_tree.specs.devices.Wires.{WireRule, IsSentOver, AreSentOver, IsReceivedOver, AreReceivedOver};

use crate::tree::Tree;
use pz_bind::Net;
use pz_bind::pz_classes::Checked;
use pz_nodes::{Nodes, Steps};
use pz_rules::pz_offer::{ReceiveOffer, SendOffer};
use pz_rules::pz_state::State;
use pz_term_processes::pz_part_actions::pz_part_queries::Standpoint;
use pz_tree_acting::pz_tree_regrowing::pz_tree_nodes::{Node, Spot};
use pz_tree_offering::{ActiveReceive, ActiveSend, active_receives, active_sends};
use std::alloc::{AllocError, Global};
use std::marker::Brand;
use std::sync::ledger::{Blank, Ledger};

fn sends_in<L: Ledger>(
    alloc: Global,
    here: &Standpoint<'_>,
    state: &mut State,
    nodes: &Nodes<Node>,
    root: Spot,
    ledger: Blank,
) -> Result<Vec<ActiveSend>, AllocError>
    requires known { AreKnown here.now.classes.now }
    requires name { ledger.name ≡ L.name }
    requires parts { ledger.parts ≡ L.parts }
    requires some { 0 < L.parts }
    ensures sends { (m : ModelTree) (class : ℕ) → Knows m here.now →
        IfOk result (λ sends. SendsRule (seen_from m here.now class state.old.held)
        (find nodes.now) root.key root.frame.0 root.clock here.now.limits.height sends.items) }
    ensures state { state.new ≡ state.old }
{
    let mut steps = Steps::<L>::new(ledger);
    active_sends(alloc, here, state, nodes, root, &mut steps)
}

fn receives_in<L: Ledger>(
    alloc: Global,
    nodes: &Nodes<Node>,
    root: Spot,
    levels: u32,
    ledger: Blank,
) -> Result<Vec<ActiveReceive>, AllocError>
    requires name { ledger.name ≡ L.name }
    requires parts { ledger.parts ≡ L.parts }
    requires some { 0 < L.parts }
    ensures { IfOk result (λ receives. ReceivesRule (find nodes.now) root.key root.frame.0
        root.clock levels receives.items) }
{
    let mut steps = Steps::<L>::new(ledger);
    active_receives(alloc, nodes, root, levels, &mut steps)
}

// The wire of a port of a process, by the port's number in the class of the process.
fn wire_of(net: &Net, process: u32, port: u32) -> Option<u32>
    requires { HasProcess net.now process }
    ensures { WireRule net.now process port result }
{
    net.wire(process, port)
}

// A send over the wire of its port.
fn sent_over(net: &Net, process: u32, send: ActiveSend) -> SendOffer
    requires { HasProcess net.now process }
    ensures { IsSentOver net.now process result send }
{
    let wire = wire_of(net, process, send.port);
    let ActiveSend {
        place,
        port: _,
        message,
        parcel,
    } = send;
    SendOffer {
        wire,
        place,
        message,
        parcel,
    }
}

fn all_sent_over(
    alloc: Global,
    net: &Net,
    process: u32,
    sends: Vec<ActiveSend>,
) -> Result<Vec<SendOffer>, AllocError>
    requires { HasProcess net.now process }
    ensures { IfOk result (λ offers. AreSentOver net.now process offers.items sends.items) }
{
    let mut offers = Vec::with_capacity(alloc, sends.len())?;
    for send in sends {
        offers.push(sent_over(net, process, send))?;
    }
    Ok(offers)
}

// A receive over the wire of its port.
fn received_over(net: &Net, process: u32, receive: ActiveReceive) -> ReceiveOffer
    requires { HasProcess net.now process }
    ensures { IsReceivedOver net.now process result receive }
{
    let wire = wire_of(net, process, receive.port);
    let ActiveReceive {
        place,
        port: _,
        message,
        count,
        conditional,
        uses_clock,
    } = receive;
    ReceiveOffer {
        wire,
        place,
        message,
        count,
        conditional,
        uses_clock,
    }
}

fn all_received_over(
    alloc: Global,
    net: &Net,
    process: u32,
    receives: Vec<ActiveReceive>,
) -> Result<Vec<ReceiveOffer>, AllocError>
    requires { HasProcess net.now process }
    ensures { IfOk result (λ offers. AreReceivedOver net.now process offers.items receives.items) }
{
    let mut offers = Vec::with_capacity(alloc, receives.len())?;
    for receive in receives {
        offers.push(received_over(net, process, receive))?;
    }
    Ok(offers)
}

impl Tree {
    /// The active sends, by place, each with the wire that its port reaches in the net of the model, and the
    /// parcel that it would hand over now. Those whose arguments have a trouble are left out. The tree is as
    /// before, always. The only error is want of memory.
    pub fn sends(&mut self, checked: &Checked, net: &Net) -> Result<Vec<SendOffer>, AllocError>
        requires fresh { ∥ IsFresh (checked_model checked.now) self.old ∥₁ }
        requires of_model { ∥ IsNet (checked_model checked.now) net.now ∥₁ }
        ensures offers { IsFresh (checked_model checked.now) self.old →
            IsNet (checked_model checked.now) net.now →
            TermFits (checked_model checked.now) self.old.class.0 0 (term_in self.old) →
            IfOk result (λ offers. AreSendOffers (at_in (checked_model checked.now) self.old)
            (term_in self.old) offers.items) }
        ensures unchanged { self.new ≡ self.old }
    {
        pz_rules::laws::walks_list_what_is_active();
        pz_rules::laws::active_parts_fit();
        let here = self.standpoint(checked);
        let root = self.spot();
        let sends = sends_in::<Brand>(
            self.alloc,
            &here,
            &mut self.state,
            &self.nodes,
            root,
            Blank::new(1),
        )?;
        all_sent_over(self.alloc, net, self.process, sends)
    }

    /// The active receives, by place, each with the wire that its port reaches in the net of the model.
    /// Nothing is evaluated. The only error is want of memory.
    pub fn receives(&self, checked: &Checked, net: &Net) -> Result<Vec<ReceiveOffer>, AllocError>
        requires fresh { ∥ IsFresh (checked_model checked.now) self.now ∥₁ }
        requires of_model { ∥ IsNet (checked_model checked.now) net.now ∥₁ }
        ensures offers { IsFresh (checked_model checked.now) self.now →
            IsNet (checked_model checked.now) net.now →
            TermFits (checked_model checked.now) self.now.class.0 0 (term_in self.now) →
            IfOk result (λ offers. AreReceiveOffers (at_in (checked_model checked.now) self.now)
            (term_in self.now) offers.items) }
    {
        pz_rules::laws::walks_list_what_is_active();
        pz_rules::laws::active_parts_fit();
        let _model = checked.model();
        let root = self.spot();
        let receives = receives_in::<Brand>(
            self.alloc,
            &self.nodes,
            root,
            self.limits.height,
            Blank::new(1),
        )?;
        all_received_over(self.alloc, net, self.process, receives)
    }
}
