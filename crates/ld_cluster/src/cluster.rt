// The cluster.
ghost use Rattle.std.specs.Prelude.{◌≡◌, [], is_some, IfOk, OnOk, OnErr};
ghost use Rattle.ld_config.specs.Bounds.{IsInBounds};
ghost use Rattle.ld_disk.specs.Memory.{disk_plain};
ghost use Rattle.ld_disk.specs.Plain.{new_disk};
ghost use Rattle.ld_schedule.specs.declared.event.Event.TheVariants.{Calm};
ghost use Rattle.ld_msg.specs.Network.{oldest_new};
ghost use Rattle.ld_machine.specs.Run.{step};
ghost use Rattle.ld_cluster.specs.Served.{HasServed};
ghost use Rattle.ld_cluster.specs.Standing.{config_of, past_of, state_of, IsReached};
ghost use Rattle.ld_cluster.specs.Steps.{IsStep, IsStepInPart, Counts, delivers_oldest, delivery, steps_of};

use crate::past::Step;
use crate::specs::Specs;
use ld_clients::{Readers, Sequencers};
use ld_config::Config;
use ld_disk::MemDisk;
use ld_host::Hosts;
use ld_ids::NoMemory;
use ld_net::Net;
use ld_register::FaultyRegister;
use ld_schedule::Event;
use ld_transcript::Lines;
use std::alloc::Global;

/// A cluster that takes a schedule's events one after the other, and the steps that it took.
///
/// Each node is a store on a disk in memory of its own, and so is the register; both fail and crash where events tell
/// them to.
#[derive(Drop)]
pub struct Cluster {
    pub(crate) config: Config,
    pub(crate) past: Vec<Step>,
    pub(crate) hosts: Hosts,
    pub(crate) register: FaultyRegister<MemDisk>,
    pub(crate) network: Net,
    pub(crate) sequencers: Sequencers,
    pub(crate) readers: Readers,
    pub(crate) specs: Specs,
}

impl Cluster {
    /// A new cluster of this configuration: all nodes are blank, on new disks.
    pub fn new(alloc: Global, config: Config) -> Result<Cluster, NoMemory>
        requires { IsInBounds config }
        ensures config { IfOk result (λ cluster. config_of cluster ≡ config) }
        ensures past { IfOk result (λ cluster. past_of cluster ≡ []) }
        ensures reached { IfOk result (λ cluster. IsReached cluster) }
    {
        let hosts = Hosts::new(alloc, &config)?;
        let disk = new_disk(alloc)?;
        Ok(Cluster {
            config,
            past: Vec::new(alloc),
            hosts,
            register: FaultyRegister::new(alloc, disk),
            network: Net::new(alloc),
            sequencers: Sequencers::new(alloc),
            readers: Readers::new(alloc),
            specs: Specs::new(alloc),
        })
    }

    /// Takes the event as one step of the machine, or, for a `flow` or a `calm`, as one step for each delivery or for each
    /// step of the calm, and adds the lines. A calm ends, within its bound; and where all is well before it and it meets no
    /// limit, each log is served after it. After an `Err` the cluster may have done a part, of which it has added the first
    /// lines, and is of no use.
    pub fn step(&mut self, alloc: Global, event: &Event, lines: &mut Lines) -> Result<(), NoMemory>
        requires reached { IsReached self.old }
        requires counts { Counts event.now }
        ensures whole { OnOk result (IsStep self.old self.new lines.old lines.new (step (config_of self.old) (state_of self.old) event.now) (steps_of (config_of self.old) (state_of self.old) event.now)) }
        ensures calms { OnOk result (event.now ≡ Calm → HasServed self.old self.new) }
        ensures part { OnErr result (IsStepInPart self.old self.new lines.old lines.new (step (config_of self.old) (state_of self.old) event.now) (steps_of (config_of self.old) (state_of self.old) event.now)) }
    {
        if let Event::Flow { most } = event {
            self.flow_most(alloc, *most, lines)?;
            return Ok(());
        }
        if let Event::Calm = event {
            self.calm(alloc, lines)?;
            return Ok(());
        }
        self.take(alloc, event, lines)?;
        Ok(())
    }

    /// Delivers the oldest new message, and adds the lines of that step. Answers false exactly where no message is new:
    /// nothing changes then. After an `Err` the cluster may have done a part, of which it has added the first lines, and
    /// is of no use.
    pub fn flow(&mut self, alloc: Global, lines: &mut Lines) -> Result<bool, NoMemory>
        requires reached { IsReached self.old }
        ensures more { IfOk result (λ more. more ≡ is_some (oldest_new (state_of self.old).network)) }
        ensures step { OnOk result (IsStep self.old self.new lines.old lines.new (delivers_oldest (config_of self.old) (state_of self.old)) (delivery (oldest_new (state_of self.old).network))) }
        ensures part { OnErr result (IsStepInPart self.old self.new lines.old lines.new (delivers_oldest (config_of self.old) (state_of self.old)) (delivery (oldest_new (state_of self.old).network))) }
    {
        let Some(message) = self.network.oldest_new() else {
            return Ok(false);
        };
        let event = Event::Deliver { message };
        self.take(alloc, &event, lines)?;
        Ok(true)
    }
}

/// A new disk for the register.
fn new_disk(alloc: Global) -> Result<MemDisk, NoMemory>
    ensures { IfOk result (λ disk. disk_plain disk ≡ new_disk) }
{
    match MemDisk::new(alloc) {
        Ok(disk) => Ok(disk),
        Err(_) => Err(NoMemory),
    }
}
