//! Nodes that are dialed: one is present after the other, takes messages and answers them.
#![tactic(auto)]

ghost use Rattle.std.specs.Prelude.{◌≡◌, ◌≢◌, ℕ, Bool, Option, None, Err, true, IfOk, IfSome};
ghost use Rattle.ld_io.specs.Causes.{HasCause};
ghost use Rattle.ld_config.specs.declared.config.Config.{Config};
ghost use Rattle.ld_msg.specs.Bounds.{IsMessage};
ghost use Rattle.ld_wire.specs.declared.fault.WireFault.{WireFault as FrameFault};
ghost use Rattle.ld_dial.specs.Far.{Far, Dials, Sends, Receives, CountsFault, CountsEnding, KeepsFrame};

mod fault;
mod framed;

pub use fault::Fault;
pub use framed::Framed;
use ld_ids::NodeId;
use ld_io::Failed;
use ld_msg::Msg;
use std::alloc::Global;

/// Nodes, of which one at a time is present. Before the first `dial` none is.
pub trait Nodes {
    /// What stands at the nodes, as the written machine has it under a configuration, where this tells it.
    ghost tells: { Self → Config → Far → Type 0 };

    /// It tells no more what stands there: a node that stands in memory has lacked some.
    ghost silent: { Self → Bool };

    /// How often a call has failed, up to the greatest 64-bit number.
    ghost faults: { Self → ℕ };

    /// How often a node was found to have ended, up to the greatest 64-bit number.
    ghost endings: { Self → ℕ };

    /// Why the present node's bytes begin no frame, once they were found to begin none.
    ghost off: { Self → Option FrameFault };

    /// Makes the node the present one; what the one before has still to say is dropped. It fails where the node can't be
    /// reached, and then none is present.
    fn dial(&mut self, node: NodeId) -> Result<(), Failed>
        ensures cause { HasCause (faults self.old) (faults self.new) result }
        ensures dialed { (c : Config) (far : Far) → tells self.old c far → Dials far node (tells self.new c) result }
        ensures silent { silent self.new ≡ silent self.old }
        ensures endings { endings self.new ≡ endings self.old }
        ensures off { off self.new ≡ None };

    /// Sends a message to the present node, whole. It is refused with `Link` where a call failed, and when out of memory: then
    /// the node has not got it whole.
    fn send(&mut self, alloc: Global, message: &Msg) -> Result<(), Fault>
        requires { IsMessage message.now }
        ensures counts { CountsFault (faults self.old) (faults self.new) result }
        ensures sent { (c : Config) (far : Far) → tells self.old c far → Sends c far message.now (silent self.new) (tells self.new c) result }
        ensures silent { silent self.old ≡ true → silent self.new ≡ true }
        ensures endings { endings self.new ≡ endings self.old }
        ensures off { off self.new ≡ off self.old }
        ensures unheard { (fault : FrameFault) → result ≢ Err (Fault.BadFrame fault) };

    /// Takes the next answer of the present node. There is none where the node has ended, whatever part of a frame it sent
    /// last. It is refused with `Link` where a call failed, with `BadFrame` where what it sent begins no frame, and when out of memory.
    fn receive(&mut self, alloc: Global) -> Result<Option<Msg>, Fault>
        ensures message { IfOk result (λ next. IfSome next IsMessage) }
        ensures counts { CountsFault (faults self.old) (faults self.new) result }
        ensures received { (c : Config) (far : Far) → tells self.old c far → Receives far (tells self.new c) result }
        ensures silent { silent self.new ≡ silent self.old }
        ensures ended { CountsEnding (endings self.old) (endings self.new) result }
        ensures off { KeepsFrame (off self.old) (off self.new) result };

    /// Waits for so many milliseconds, none for 0, and keeps no connection meanwhile: before the next `send` or `receive` a
    /// node has to be dialed. What stands at the nodes stays.
    fn rest(&mut self, milliseconds: u32)
        ensures rested { (c : Config) (far : Far) → tells self.old c far → tells self.new c far }
        ensures silent { silent self.new ≡ silent self.old }
        ensures faults { faults self.new ≡ faults self.old }
        ensures endings { endings self.new ≡ endings self.old }
        ensures off { off self.new ≡ off self.old };

    /// How often a call has failed, up to the greatest 64-bit number.
    fn failures(&self) -> u64
        ensures { result ≡ faults self.now };

    /// How often a node was found to have ended, up to the greatest 64-bit number.
    fn endings(&self) -> u64
        ensures { result ≡ endings self.now };
}
