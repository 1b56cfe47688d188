// Nodes in memory.
ghost use Rattle.ld_config.specs.Bounds.{IsInBounds};

use crate::answers::Answers;
use crate::handing::{count_one, hand, runs};
use ld_config::Config;
use ld_dial::{Fault, Nodes};
use ld_host::Hosts;
use ld_ids::NodeId;
use ld_io::Failed;
use ld_msg::Msg;
use std::alloc::Global;

/// Nodes in memory, of which one at a time is present: only a node that is up can be dialed. The present node makes
/// something of a message as soon as it is sent, and its answers wait until they are taken.
///
/// Once a node lacked memory they are silent: nothing more is told of what stands there.
#[derive(Drop)]
pub struct NodeLinks {
    config: Config,
    hosts: Hosts,
    present: Option<NodeId>,
    answers: Answers,
    silent: bool,
    faults: u64,
    endings: u64,
}

impl NodeLinks {
    ghost use Rattle.std.specs.Prelude.{◌≡◌, [], ℕ, List, false, None};
    ghost use Rattle.ld_config.specs.declared.config.Config.{Config as Settings};
    ghost use Rattle.ld_machine.specs.Disk.{Node};
    ghost use Rattle.ld_host.specs.Standing.{AreHosts};
    ghost use Rattle.ld_dial.specs.Far.{Far};
    ghost use Rattle.ld_driver.specs.Links.{StandAs};

    /// The nodes that these hosts are. None is present, and no call has failed yet.
    pub fn new(alloc: Global, config: Config, hosts: Hosts) -> NodeLinks
        ensures tells { (nodes : List (ℕ × Node)) → IsInBounds config → AreHosts config hosts nodes → StandAs result config (record { nodes = nodes; present = None; answers = [] }) }
        ensures faults { result.faults ≡ 0 }
        ensures endings { result.endings ≡ 0 }
        ensures silent { result.silent ≡ false }
    {
        NodeLinks {
            config,
            hosts,
            present: None,
            answers: Answers::new(alloc),
            silent: false,
            faults: 0,
            endings: 0,
        }
    }

    /// The hosts. What the present node has still to say is dropped.
    pub fn into_hosts(self) -> Hosts
        ensures { (c : Settings) (far : Far) → StandAs self c far → AreHosts c result far.nodes }
    {
        self.hosts
    }
}

impl Nodes for NodeLinks {
    ghost use Rattle.std.specs.Prelude.{◌≡◌, ◌≢◌, [], ℕ, List, Option, Err, None, Some, true, IfOk, IfSome, OnOk, OnErr, is_ok};
    ghost use Rattle.ld_io.specs.Causes.{HasCause};
    ghost use Rattle.ld_io.specs.Memory.{one_more};
    ghost use Rattle.ld_msg.specs.Bounds.{IsMessage};
    ghost use Rattle.ld_config.specs.declared.config.Config.{Config as Settings};
    ghost use Rattle.ld_machine.specs.Disk.{Node};
    ghost use Rattle.ld_host.specs.Standing.{AreHosts};
    ghost use Rattle.ld_wire.specs.declared.fault.WireFault.{WireFault as FrameFault};
    ghost use Rattle.ld_dial.specs.Far.{Far, Dials, Sends, Receives, CountsFault, CountsEnding, KeepsFrame, is_up_in};
    ghost use Rattle.ld_driver.specs.Links.{StandAs, SendsIn, Takes};

    ghost tells = { λ links c far. StandAs links c far };

    ghost silent = { λ links. links.silent };

    ghost faults = { λ links. links.faults };

    ghost endings = { λ links. links.endings };

    ghost off = { λ links. None };

    /// Fails exactly where the node isn't up.
    fn dial(&mut self, node: NodeId) -> Result<(), Failed>
        ensures cause { HasCause self.old.faults self.new.faults result }
        ensures dialed { (c : Settings) (far : Far) → StandAs self.old c far → Dials far node (StandAs self.new c) result }
        ensures silent { self.new.silent ≡ self.old.silent }
        ensures endings { self.new.endings ≡ self.old.endings }
        ensures up { (c : Settings) (nodes : List (ℕ × Node)) → AreHosts c self.old.hosts nodes → is_ok result ≡ is_up_in nodes node }
        ensures ok { OnOk result (self.new ≡ record self.old { present = Some node; answers = [] }) }
        ensures err { OnErr result (self.new ≡ record self.old { present = None; answers = []; faults = one_more self.old.faults }) }
    {
        self.answers.clear();
        if runs(&self.hosts, node) {
            self.present = Some(node);
            return Ok(());
        }
        self.present = None;
        count_one(&mut self.faults);
        Err(Failed)
    }

    /// It is refused with `Link` where no node is present, where that isn't up any more, and where it lacks memory.
    fn send(&mut self, alloc: Global, message: &Msg) -> Result<(), Fault>
        requires { IsMessage message.now }
        ensures counts { CountsFault self.old.faults self.new.faults result }
        ensures sent { (c : Settings) (far : Far) → StandAs self.old c far → Sends c far message.now self.new.silent (StandAs self.new c) result }
        ensures silent { self.old.silent ≡ true → self.new.silent ≡ true }
        ensures endings { self.new.endings ≡ self.old.endings }
        ensures unheard { (fault : FrameFault) → result ≢ Err (Fault.BadFrame fault) }
        ensures present { SendsIn self.old self.new self.old.present result }
    {
        let Some(node) = self.present else {
            count_one(&mut self.faults);
            return Err(Fault::Link);
        };
        if !runs(&self.hosts, node) {
            count_one(&mut self.faults);
            return Err(Fault::Link);
        }
        let Err(_) = hand(
            alloc,
            &self.config,
            &mut self.hosts,
            &mut self.answers,
            node,
            message,
        ) else {
            return Ok(());
        };
        self.silent = true;
        count_one(&mut self.faults);
        Err(Fault::Link)
    }

    /// Never fails. A node has ended where it answers no more.
    fn receive(&mut self, _alloc: Global) -> Result<Option<Msg>, Fault>
        ensures message { IfOk result (λ next. IfSome next IsMessage) }
        ensures counts { CountsFault self.old.faults self.new.faults result }
        ensures received { (c : Settings) (far : Far) → StandAs self.old c far → Receives far (StandAs self.new c) result }
        ensures silent { self.new.silent ≡ self.old.silent }
        ensures ended { CountsEnding self.old.endings self.new.endings result }
        ensures off { KeepsFrame None None result }
        ensures next { Takes self.old self.new result }
    {
        let Some(answer) = self.answers.take_first() else {
            count_one(&mut self.endings);
            return Ok(None);
        };
        Ok(Some(answer))
    }

    /// Nobody waits for a node in memory.
    fn rest(&mut self, _milliseconds: u32)
        ensures same { self.new ≡ self.old }
    {}

    /// How often a call has failed, up to the greatest 64-bit number.
    fn failures(&self) -> u64 {
        self.faults
    }

    fn endings(&self) -> u64 {
        self.endings
    }
}
