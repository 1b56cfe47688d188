// Nodes that a link reaches.
ghost use Rattle.std.specs.Prelude.{◌≡◌, ◌≢◌, [], List, ℕ, Option, None, Some, Err, IfOk, IfSome};
ghost use Rattle.ld_io.specs.Causes.{HasCause};
ghost use Rattle.ld_link.specs.Calls.{after_dial};
ghost use Rattle.ld_link.specs.Peers.{Reaches};
ghost use Rattle.ld_msg.specs.Bounds.{IsMessage};
ghost use Rattle.ld_msg.specs.declared.msg.Msg.{Msg as Message};
ghost use Rattle.ld_framed.specs.Reading as frames;
ghost use Rattle.ld_dial.specs.Far.{CountsFault, CountsEnding, KeepsFrame};
ghost use Rattle.ld_dial.specs.Framed.{SaysFrame, IsUnheard, HearsAnswer};
ghost use Rattle.ld_dial.specs.declared.fault.Fault.TheVariants.{BadFrame};

use crate::{Fault, Nodes};
use ld_framed::{Unread, next_frame, write_all};
use ld_ids::NodeId;
use ld_io::Failed;
use ld_link::Dial;
use ld_msg::Msg;
use ld_wire::{Decoder, WireFault, encode};
use std::alloc::Global;
use std::marker::Model;

/// The nodes that a link reaches: a message is a frame, and so is an answer. What stands at them isn't told.
///
/// Once a node sent what begins no frame, that is the answer until the next dial. After a `send` that was refused with
/// `Link`, or a `receive` that was refused when out of memory, the node may have got, or sent, what is lost: then it has to
/// be dialed again.
#[derive(Drop)]
pub struct Framed<L: Dial> {
    alloc: Global,
    link: L,
    decoder: Decoder,
    refused: Option<WireFault>,
    endings: u64,
}

impl<L: Dial> Model for Framed<L> {
    ghost use Rattle.std.specs.Prelude.{◌≡◌};
    ghost use Rattle.ld_dial.specs.Framed.{Line};

    ghost Value = { Line L };

    ghost view = { λ f. record { link = f.link; held = f.decoder; endings = f.endings } };

    ghost invariant = { λ f. f.decoder.fault ≡ f.refused };
}

impl<L: Dial> Framed<L> {
    /// The nodes that this link reaches. Of what its present peer sends nothing is held. This takes no memory.
    pub fn new(alloc: Global, link: L) -> Framed<L>
        ensures { result ≡ record { link = link; held = record { bytes = []; fault = None }; endings = 0 } }
    {
        Framed {
            alloc,
            link,
            decoder: Decoder::new(alloc),
            refused: None,
            endings: 0,
        }
    }

    /// The link.
    pub fn into_link(self) -> L
        ensures { result ≡ self.link }
    {
        self.link
    }
}

/// Why an answer wasn't taken.
fn fault_of(unread: Unread) -> Fault
    ensures told { (held : List ℕ) → frames.IsUnread held unread → IsUnheard held result }
    ensures counts { (before : ℕ) (now : ℕ) → frames.CountsUnread before now unread → CountsFault {T = Option Message} before now (Err result) }
    ensures off { KeepsFrame None (frames.fault_of unread) (Err result) }
{
    match unread {
        Unread::NoMemory => Fault::NoMemory,
        Unread::Link => Fault::Link,
        Unread::BadFrame(fault) => Fault::BadFrame(fault),
    }
}

/// The fault that is answered from now on.
fn refused_by(unread: Unread) -> Option<WireFault>
    ensures { result ≡ frames.fault_of unread }
{
    match unread {
        Unread::BadFrame(fault) => Some(fault),
        _ => None,
    }
}

impl<L: Dial> Nodes for Framed<L> {
    ghost use Rattle.std.specs.Prelude.{false};

    ghost tells = { λ _ _ _. ⊥ };

    ghost silent = { λ _. false };

    ghost faults = { λ f. L.faults f.link };

    ghost endings = { λ f. f.endings };

    ghost off = { λ f. f.held.fault };

    /// Drops what is held of the node before, and dials the node of this number.
    fn dial(&mut self, node: NodeId) -> Result<(), Failed>
        ensures cause { HasCause (L.faults self.old.link) (L.faults self.new.link) result }
        ensures reached { IfSome (L.peers self.old.link) (λ old. Reaches old (L.peers self.new.link) result) }
        ensures did { L.did self.new.link ≡ after_dial result node (L.did self.old.link) }
        ensures dropped { self.new.held ≡ record { bytes = []; fault = None } }
        ensures endings { self.new.endings ≡ self.old.endings }
        ensures off { self.new.held.fault ≡ None }
    {
        self.decoder = Decoder::new(self.alloc);
        self.refused = None;
        self.link.dial(node.number())
    }

    /// Writes the message's frame, and nothing else.
    fn send(&mut self, alloc: Global, message: &Msg) -> Result<(), Fault>
        requires { IsMessage message.now }
        ensures counts { CountsFault (L.faults self.old.link) (L.faults self.new.link) result }
        ensures written { IfSome (L.peers self.old.link) (λ old. SaysFrame old (L.peers self.new.link) message.now result) }
        ensures held { self.new.held ≡ self.old.held }
        ensures endings { self.new.endings ≡ self.old.endings }
        ensures off { self.new.held.fault ≡ self.old.held.fault }
        ensures unheard { (fault : WireFault) → result ≢ Err (BadFrame fault) }
    {
        let frame = encode(alloc, message)?;
        match write_all(&mut self.link, frame.bytes()) {
            Ok(()) => Ok(()),
            Err(_) => Err(Fault::Link),
        }
    }

    /// Takes the next frame of the node.
    fn receive(&mut self, alloc: Global) -> Result<Option<Msg>, Fault>
        ensures message { IfOk result (λ next. IfSome next IsMessage) }
        ensures counts { CountsFault (L.faults self.old.link) (L.faults self.new.link) result }
        ensures ended { CountsEnding self.old.endings self.new.endings result }
        ensures off { KeepsFrame self.old.held.fault self.new.held.fault result }
        ensures heard { self.old.held.fault ≡ None → IfSome (L.peers self.old.link) (λ old. HearsAnswer old (L.peers self.new.link) self.old.held.bytes self.new.held result) }
        ensures stays { (fault : WireFault) → self.old.held.fault ≡ Some fault → (result ≡ Err (BadFrame fault)) × (self.new ≡ self.old) }
    {
        if let Some(fault) = self.refused {
            return Err(Fault::BadFrame(fault));
        }
        let mut buf = [0u8; 4096];
        match next_frame(alloc, &mut self.decoder, &mut self.link, &mut buf) {
            Ok(Some(message)) => Ok(Some(message)),
            Ok(None) => {
                self.endings = self.endings.saturating_add(1);
                Ok(None)
            }
            Err(unread) => {
                self.refused = refused_by(unread);
                Err(fault_of(unread))
            }
        }
    }

    fn rest(&mut self, milliseconds: u32)
        ensures faults { L.faults self.new.link ≡ L.faults self.old.link }
        ensures peers { L.peers self.new.link ≡ L.peers self.old.link }
        ensures did { L.did self.new.link ≡ L.did self.old.link }
        ensures held { self.new.held ≡ self.old.held }
        ensures endings { self.new.endings ≡ self.old.endings }
    {
        self.link.rest(milliseconds)
    }

    fn failures(&self) -> u64 {
        self.link.failures()
    }

    fn endings(&self) -> u64 {
        self.endings
    }
}
