// An actor that is driven.
ghost use Rattle.std.specs.Prelude.{ℕ, ◌≡◌, List, Bool, false, None, IsTrue, IfOk, IfSome};
ghost use Rattle.ld_config.specs.declared.config.Config.{Config};
ghost use Rattle.ld_config.specs.Bounds.{IsInBounds};
ghost use Rattle.ld_msg.specs.declared.msg.Msg.{Msg as Message};
ghost use Rattle.ld_msg.specs.Bounds.{IsMessage};
ghost use Rattle.ld_node_bounds.specs.Messages.{AreMessages};
ghost use Rattle.ld_msg.specs.Network.{Network};
ghost use Rattle.ld_machine.specs.Disk.{Node as Place};
ghost use Rattle.ld_machine.specs.State.{State};
ghost use Rattle.ld_machine.specs.Step.{comes_to};
ghost use Rattle.ld_bounds.specs.Sound.{IsSound};
ghost use Rattle.ld_transcript.specs.declared.line.Line.{Line as Said};
ghost use Rattle.ld_rounds.specs.Ends.{IsSaid, tells_by};
ghost use Rattle.ld_rounds.specs.Acts.{IsActed, Own};
ghost use Rattle.ld_rounds.specs.Reminding.{reminded};

use crate::Ended;
use ld_ids::NoMemory;
use ld_msg::{Msg, Outbox};
use ld_transcript::Line;
use std::alloc::Global;

/// What an actor writes and sends, and how its drive ends by that, where it does.
#[derive(Drop)]
pub struct Heard {
    /// Its lines of the transcript, in their order. None of them is a message's.
    pub lines: Vec<Line>,
    /// Its messages, in the order of sending.
    pub sends: Outbox,
    /// How the drive ends.
    pub end: Option<Ended>,
}

/// A sequencer or a reader, with its register, that is driven against nodes. Where it can't go on for a cause that no line
/// says, it keeps the cause and answers as when out of memory.
pub trait Actor {
    /// It represents its part of a state of the written machine.
    ghost stands: { Self → Config → State → Type 0 };

    /// Who it is, and what it takes: no call changes that.
    ghost own: { Self → Own };

    /// The second one is what calls have made of the first.
    ghost since: { Self → Self → Type 0 };

    /// What it may take: messages to one of its kind.
    ghost hears: { Self → Message → Type 0 };

    /// The lines that end its drive.
    ghost finals: { Said → Bool };

    /// Whether the message is for it, by the addressee and the log.
    fn is_for(&self, message: &Msg) -> bool
        ensures heard { IsTrue result → hears self.now message.now }
        ensures taken { (c : Config) (s : State) → stands self.now c s → result ≡ (own self.now).takes s message.now };

    /// Takes a message of a node that is for it. It ends where it says so in a line, and where a line ends its drive. After
    /// running out of memory it is of no use.
    fn hear(&mut self, alloc: Global, message: &Msg) -> Result<Heard, NoMemory>
        requires message { IsMessage message.now }
        requires hears { hears self.old message.now }
        ensures messages { IfOk result (λ heard. AreMessages heard.sends) }
        ensures acted { IfOk result (λ heard. (c : Config) (s : State) → IsInBounds c → IsSound c s → stands self.old c s
            → IsActed (stands self.new c) s heard.lines.items heard.sends (comes_to c s message.now message.now.to)) }
        ensures said { IfOk result (λ heard. IfSome heard.end (IsSaid heard.lines.items)) }
        ensures ends { IfOk result (λ heard. heard.end ≡ None → tells_by finals heard.lines.items ≡ false) }
        ensures itself { own self.new ≡ own self.old }
        ensures since { since self.old self.new };

    /// What the sender of a message is told of an epoch, by what a look at the register shows: where the message told the
    /// actor to wait for a number of a closed epoch, and this one is closed too, its `Clean`, from the sequencer that closed
    /// it. One that tells nodes of no log's closed epochs has none. After running out of memory it is of no use.
    fn reminder(
        &mut self,
        alloc: Global,
        message: &Msg,
        epoch: u32,
    ) -> Result<Option<Msg>, NoMemory>
        requires { IsMessage message.now }
        ensures message { IfOk result (λ reminder. IfSome reminder IsMessage) }
        ensures told { IfOk result (λ reminder. (c : Config) (s : State) → stands self.old c s
            → (reminder ≡ reminded (own self.old).ticks s.register epoch message.now) × stands self.new c s) }
        ensures itself { own self.new ≡ own self.old }
        ensures since { since self.old self.new };

    /// One that no call was made to is such a one.
    ghost since_here: { (actor : Self) → since actor actor };

    /// Calls come one after the other.
    ghost since_on: { (a b c : Self) → since a b → since b c → since a c };

    /// That part is told by neither the nodes nor the messages.
    ghost stands_apart: { (actor : Self) (c : Config) (s : State) (nodes : List (ℕ × Place)) (network : Network) → stands actor c s → stands actor c (record s { nodes = nodes; network = network }) };
}
