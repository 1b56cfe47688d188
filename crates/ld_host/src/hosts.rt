// The hosts of a cluster by number.
ghost use Rattle.std.specs.Prelude.{◌≡◌, ◌≢◌, ◌≤◌, [], List, ℕ, true, IfOk, OnOk, option_copied};
ghost use Rattle.ld_table.specs.Table.{find, put, Ordered};
ghost use Rattle.ld_ids.specs.Set.{members};
ghost use Rattle.ld_msg.specs.Bounds.{IsMessage};
ghost use Rattle.ld_msg.specs.declared.msg.Who.TheVariants as whos;
ghost use Rattle.ld_config.specs.declared.config.Config.{Config as Settings};
ghost use Rattle.ld_machine.specs.Config.{has_log};
ghost use Rattle.ld_machine.specs.Disk.{Node, Blank, Up, new_node, load, load_end};
ghost use Rattle.ld_machine.specs.State.{new_nodes};
ghost use Rattle.ld_machine.specs.Step.{with_fault, stopped};
ghost use Rattle.ld_host.specs.Stands.{Stands, shown_status};
ghost use Rattle.ld_msg.specs.Register.{Register as Contents};
ghost use Rattle.ld_node_bounds.specs.Messages.{AreMessages};
ghost use Rattle.ld_node.specs.Looks.{AreClosed, op_of};
ghost use Rattle.ld_host.specs.Done.{shown_kept, message_done, HasFormatted, kept_nodes, tick_of, tick_done, tick_answer, replaced, after_replace};
ghost use Rattle.ld_host.specs.Standing.{AreHosts, IsTaken, node_in};

use crate::host::Host;
use crate::kept::{Formatted, Kept, Status};
use ld_config::Config;
use ld_ids::{LogId, NoMemory, NodeId};
use ld_msg::{Msg, Outbox};
use ld_node::Ticked;
use ld_register::{Register, RegisterFault};
use ld_schedule::Picture;
use std::alloc::Global;
use std::collections::BTreeMap;

/// Hosts by number. A host that isn't there is a new one. After a call that had no memory they are of no use.
#[derive(Drop)]
pub struct Hosts {
    map: BTreeMap<u8, Host>,
}

/// The host under a number.
#[tactic(auto, unfolding(ld_table::specs::Table::find))]
fn host_of(map: &BTreeMap<u8, Host>, number: u8) -> Option<&Host>
    ensures { option_copied result ≡ find number map.now.entries }
{
    map.get(&number)
}

impl Hosts {
    /// The hosts of all nodes of the configuration, on new disks.
    pub fn new(alloc: Global, config: &Config) -> Result<Hosts, NoMemory>
        ensures { IfOk result (λ hosts. AreHosts config.now hosts (new_nodes (members config.now.nodes))) }
    {
        let mut map = BTreeMap::new(alloc);
        let mut place = 0;
        'nodes: while let Some(node) = config.nodes.nth(place) {
            map.insert(node.number(), Host::new(alloc, node)?)?;
            place += 1;
        }
        Ok(Hosts { map })
    }

    /// How the host is.
    pub fn status(&self, node: NodeId) -> Status
        ensures { (c : Settings) (nodes : List (ℕ × Node)) → AreHosts c self.now nodes → shown_status result ≡ (node_in nodes node).status }
    {
        match host_of(&self.map, node.number()) {
            Some(host) => host.status(),
            None => Status::Blank,
        }
    }

    /// Takes a host out.
    #[tactic(auto, unfolding(ld_table::specs::Table::find))]
    fn take(&mut self, alloc: Global, node: NodeId) -> Result<Host, NoMemory>
        ensures host { (c : Settings) (nodes : List (ℕ × Node)) → AreHosts c self.old nodes → IfOk result (λ host. Stands c node host (node_in nodes node)) }
        ensures taken { (c : Settings) (nodes : List (ℕ × Node)) → AreHosts c self.old nodes → OnOk result (IsTaken c node nodes self.new) }
        ensures ordered { Ordered self.old.map.entries }
    {
        let _ = self.map.len();
        match self.map.remove(&node.number()) {
            Some(found) => Ok(found),
            None => Host::new(alloc, node),
        }
    }

    /// Puts a host in.
    #[tactic(auto, unfolding(ld_table::specs::Table::put))]
    fn put(&mut self, node: NodeId, host: Host) -> Result<(), NoMemory>
        ensures { (c : Settings) (nodes : List (ℕ × Node)) (x : Node) → IsTaken c node nodes self.old → Stands c node host x → OnOk result (AreHosts c self.new (put node x nodes)) }
    {
        self.map.insert(node.number(), host)?;
        Ok(())
    }

    /// Puts a new disk in, on which no node runs.
    pub fn wipe(&mut self, alloc: Global, node: NodeId) -> Result<(), NoMemory>
        ensures { (c : Settings) (nodes : List (ℕ × Node)) → AreHosts c self.old nodes → OnOk result (AreHosts c self.new (put node new_node nodes)) }
    {
        let mut host = self.take(alloc, node)?;
        host.wipe();
        self.put(node, host)
    }

    /// Stops the node. What it keeps in memory alone is lost.
    pub fn stop(&mut self, alloc: Global, node: NodeId) -> Result<(), NoMemory>
        ensures { (c : Settings) (nodes : List (ℕ × Node)) → AreHosts c self.old nodes → OnOk result (AreHosts c self.new (put node (stopped (node_in nodes node)) nodes)) }
    {
        let mut host = self.take(alloc, node)?;
        host.stop();
        self.put(node, host)
    }

    /// The writing call of this count from now on fails, or the node crashes in it with a picture: 1 is the next call.
    /// This replaces what was armed before.
    pub fn arm(
        &mut self,
        alloc: Global,
        node: NodeId,
        left: u64,
        crash: Option<Picture>,
    ) -> Result<(), NoMemory>
        requires { 1 ≤ left }
        ensures { (c : Settings) (nodes : List (ℕ × Node)) → AreHosts c self.old nodes
            → OnOk result (AreHosts c self.new (put node (with_fault (node_in nodes node) (record { left = left; crash = crash })) nodes)) }
    {
        let mut host = self.take(alloc, node)?;
        host.arm(left, crash);
        self.put(node, host)
    }

    /// Loads the node from its disk, in one writing call, with the nodes and the logs of the configuration.
    pub fn load(&mut self, alloc: Global, node: NodeId, config: &Config) -> Result<Kept, NoMemory>
        ensures { (nodes : List (ℕ × Node)) → AreHosts config.now self.old nodes
            → IfOk result (λ kept. AreHosts config.now self.new (put node (load (node_in nodes node)) nodes) × (shown_kept kept ≡ load_end (node_in nodes node))) }
    {
        let mut host = self.take(alloc, node)?;
        let kept = host.load(alloc, config)?;
        self.put(node, host)?;
        Ok(kept)
    }

    /// What the node makes of a message, where it is up: the op that it keeps, and then what it answers, which a frame
    /// can carry. Where it isn't up, nothing happens.
    pub fn on_msg(
        &mut self,
        alloc: Global,
        node: NodeId,
        msg: &Msg,
    ) -> Result<(Kept, Outbox), NoMemory>
        requires { IsMessage msg.now }
        ensures messages { IfOk result (λ done. AreMessages done.1) }
        ensures idle { (c : Settings) (nodes : List (ℕ × Node)) → AreHosts c self.old nodes → (node_in nodes node).status ≢ Up
            → IfOk result (λ done. AreHosts c self.new (put node (node_in nodes node) nodes) × (done.0 ≡ Kept.Written) × (done.1 ≡ [])) }
        ensures up { (c : Settings) (nodes : List (ℕ × Node)) → AreHosts c self.old nodes → (node_in nodes node).status ≡ Up → msg.now.to ≡ whos.Node node → has_log c msg.now.log ≡ true
            → IfOk result (λ done. AreHosts c self.new (put node (message_done node (node_in nodes node) msg.now).node nodes)
            × (shown_kept done.0 ≡ (message_done node (node_in nodes node) msg.now).end) × (done.1 ≡ (message_done node (node_in nodes node) msg.now).sends)) }
    {
        let mut host = self.take(alloc, node)?;
        let (kept, sends) = host.on_msg(alloc, msg)?;
        self.put(node, host)?;
        Ok((kept, sends))
    }

    /// Formats the store of a blank node: it is loaded, a generation is drawn for it, and the format is kept. Where it
    /// isn't blank, nothing happens.
    pub fn format<G: Register>(
        &mut self,
        alloc: Global,
        node: NodeId,
        config: &Config,
        reg: &mut G,
    ) -> Result<Formatted, NoMemory>
        ensures idle { (c : Settings) (nodes : List (ℕ × Node)) → AreHosts c self.old nodes → (node_in nodes node).status ≢ Blank
            → IfOk result (λ formatted. AreHosts c self.new (put node (node_in nodes node) nodes) × (reg.new ≡ reg.old) × (formatted ≡ Formatted.NotLoaded Kept.Written)) }
        ensures blank { (nodes : List (ℕ × Node)) (r : Contents) → AreHosts config.now self.old nodes → (node_in nodes node).status ≡ Blank → G.tells reg.old r
            → IfOk result (λ formatted. HasFormatted (λ y. AreHosts config.now self.new (put node y nodes)) (G.tells reg.new) (node_in nodes node) node r formatted) }
    {
        let mut host = self.take(alloc, node)?;
        let formatted = host.format(alloc, config, reg)?;
        self.put(node, host)?;
        Ok(formatted)
    }

    /// The node looks at the register for a log, where it is up, and does what that makes it do. Where it isn't up,
    /// nothing happens.
    pub fn tick<G: Register>(
        &mut self,
        alloc: Global,
        node: NodeId,
        log: LogId,
        reg: &mut G,
    ) -> Result<(Kept, Ticked), NoMemory>
        ensures idle { (c : Settings) (nodes : List (ℕ × Node)) → AreHosts c self.old nodes → (node_in nodes node).status ≢ Up
            → IfOk result (λ done. AreHosts c self.new (put node (node_in nodes node) nodes) × (reg.new ≡ reg.old) × (done.0 ≡ Kept.Written) × (done.1 ≡ Ticked.Nothing)) }
        ensures up { (c : Settings) (nodes : List (ℕ × Node)) (r : Contents) → AreHosts c self.old nodes → (node_in nodes node).status ≡ Up → has_log c log ≡ true → AreClosed r log → G.tells reg.old r
            → IfOk result (λ done. AreHosts c self.new (kept_nodes node (op_of log (tick_of (node_in nodes node) log r)) nodes) × G.tells reg.new r
            × (shown_kept done.0 ≡ (tick_done c node (node_in nodes node) log r).end) × (done.1 ≡ tick_answer c node (node_in nodes node) log r)) }
    {
        let mut host = self.take(alloc, node)?;
        let (kept, ticked) = host.tick(alloc, log, reg)?;
        self.put(node, host)?;
        Ok((kept, ticked))
    }

    /// The node takes another one's place in the closed epochs of a log, where it is up and may, and says in how many. The
    /// inner error is why the register refused. Where it isn't up or may not, they are none, and the register isn't asked.
    pub fn replace<G: Register>(
        &self,
        alloc: Global,
        node: NodeId,
        log: LogId,
        other: NodeId,
        reg: &mut G,
    ) -> Result<Result<u32, RegisterFault>, NoMemory>
        ensures { (c : Settings) (nodes : List (ℕ × Node)) (r : Contents) → AreHosts c self.now nodes → G.tells reg.old r
            → IfOk result (λ done. (done ≡ replaced c node (node_in nodes node) other log r) × G.tells reg.new (after_replace c node (node_in nodes node) other log r)) }
    {
        match host_of(&self.map, node.number()) {
            Some(host) => {
                let done = host.replace(alloc, log, other, reg)?;
                Ok(done)
            }
            None => Ok(Ok(0)),
        }
    }
}
