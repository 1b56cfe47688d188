// The sends of an append.
ghost use Rattle.std.specs.Prelude.{◌≡◌, ℕ, List, ◌++◌, ◌∷◌, [], OnOk, OnErr, false};
ghost use Rattle.ld_table.specs.Words.{is_in, without};
ghost use Rattle.ld_ids.specs.Set.{members};
ghost use Rattle.ld_msg.specs.declared.msg.Who.TheVariants.{Sequencer as of_sequencer};
ghost use Rattle.ld_msg.specs.Network.{posted};
ghost use Rattle.ld_msg.specs.Sequencer.{append_stores};
ghost use Rattle.ld_recovery.specs.Sending.{BeginsWith};

use ld_appender::{Pending, Progress};
use ld_copyset::{NodeList, choose_for};
use ld_ids::{NoMemory, NodeId, NodeSet, Spec};
use ld_lsn::Lsn;
use ld_msg::Outbox;
use ld_recovery::Sender;
use std::alloc::Global;

/// A round of sending appends that aren't acknowledged, with the last known good offset and the nodes that are lost for their
/// epoch.
#[derive(Clone, Copy)]
pub(crate) struct Round {
    pub(crate) spec: Spec,
    pub(crate) epoch: u32,
    pub(crate) lng: u32,
    pub(crate) excluded: NodeSet,
}

impl Round {
    /// Sends what waits, where it isn't acknowledged, to those nodes of its wave's choice that haven't stored it. Without
    /// memory some may have been sent.
    #[tactic(auto, using(crate::proofs::Rounds::round_rules))]
    pub(crate) fn send(
        &self,
        alloc: Global,
        number: Lsn,
        pending: &Pending,
        out: &mut Outbox,
    ) -> Result<(), NoMemory>
        requires { pending.now.factor ≡ self.now.spec.r }
        ensures sent { OnOk result ((lost : List ℕ) → ((node : ℕ) → is_in node (members self.now.excluded) ≡ is_in node lost) → out.new ≡ out.old ++ posted (of_sequencer self.now.epoch) self.now.spec.log (append_stores self.now.spec lost self.now.lng ((number, pending.now.append) ∷ []))) }
        ensures begins { OnErr result (BeginsWith out.old out.new) }
    {
        if pending.progress() == Progress::Done {
            return Ok(());
        }
        let nodes = choose_for(&self.spec, number, pending.wave(), &self.excluded);
        let sender = Sender {
            log: self.spec.log,
            epoch: self.epoch,
        };
        sender.send_record(
            alloc,
            number,
            self.lng,
            pending.payload(),
            &unstored(&nodes, pending),
            out,
        )
    }
}

/// Those of the nodes that haven't stored it, in their order.
pub fn unstored(nodes: &NodeList, pending: &Pending) -> NodeList
    ensures { result ≡ without pending.now.append.stored nodes.now }
{
    let mut left = NodeList::empty();
    'nodes: for place in 0..nodes.len() {
        if let Some(node) = nodes.nth(place) {
            add_unstored(&mut left, node, pending);
        }
    }
    left
}

/// Adds the node, where it hasn't stored it.
fn add_unstored(left: &mut NodeList, node: NodeId, pending: &Pending)
    requires { is_in node pending.now.append.stored ≡ false → is_in node left.old ≡ false }
    ensures { left.new ≡ left.old ++ without pending.now.append.stored (node ∷ []) }
{
    if !pending.has(node) {
        left.push(node);
    }
}
