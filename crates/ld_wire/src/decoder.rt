// Messages out of bytes that come in pieces.
ghost use Rattle.std.specs.Prelude.{◌≡◌, ◌≤◌, ◌<◌, ◌++◌, [], length, drop, Option, None, Some, Ok, Err, OnOk, OnErr, IfOk, IfErr, IfSome, IfNone};
ghost use Rattle.ld_msg.specs.Bounds.{IsMessage};
ghost use Rattle.ld_wire.specs.Frames.{frame_of};
ghost use Rattle.ld_wire.specs.Judging.{Complete, Waits};
ghost use Rattle.ld_wire.specs.Faults.{IsRefused};
ghost use Rattle.ld_wire.specs.Held.{Held, answered, kept};
ghost use Rattle.ld_wire.specs.declared.fault.WireFault.{WireFault};

use crate::WireFault;
use crate::head::read_frame;
use ld_ids::NoMemory;
use ld_msg::Msg;
use std::alloc::Global;
use std::marker::Model;

/// Takes messages out of the bytes of a stream, in whatever pieces they come.
///
/// It holds the bytes that were fed and not taken. Once they were found to begin with what is no frame, it answers
/// that fault for good.
#[derive(Drop)]
pub struct Decoder {
    alloc: Global,
    buffer: Vec<u8>,
    /// How many bytes of the buffer are taken.
    at: usize,
    fault: Option<WireFault>,
}

impl Model for Decoder {
    ghost use Rattle.std.specs.Prelude.{◌≤◌, length, drop};
    ghost use Rattle.ld_wire.specs.Held.{Held};

    ghost Value = { Held };

    ghost view = { λ decoder. record { bytes = drop decoder.at decoder.buffer.items; fault = decoder.fault } };

    ghost invariant = { λ decoder. decoder.at ≤ length decoder.buffer.items };
}

impl Decoder {
    /// A decoder that was fed nothing. This takes no memory.
    pub fn new(alloc: Global) -> Decoder
        ensures { result ≡ record { bytes = []; fault = None } }
    {
        Decoder {
            alloc,
            buffer: Vec::new(alloc),
            at: 0,
            fault: None,
        }
    }

    /// Feeds a piece, behind the bytes that are held. Without memory nothing changes.
    pub fn feed(&mut self, piece: &[u8]) -> Result<(), NoMemory>
        ensures ok { OnOk result (self.new ≡ record { bytes = self.old.bytes ++ piece.now; fault = self.old.fault }) }
        ensures err { OnErr result (self.new ≡ self.old) }
    {
        if self.at > self.buffer.len() / 2 {
            self.buffer = joined(self.alloc, &self.buffer[self.at..], piece)?;
            self.at = 0;
            return Ok(());
        }
        self.buffer.extend_from_slice(piece)?;
        Ok(())
    }

    /// Takes the message of the frame that the bytes begin with, and removes the frame.
    ///
    /// None comes exactly where there is no fault yet and the bytes are empty or less than one frame, which has at most
    /// 8,388,612 bytes with its length; nothing changes then. A fault comes exactly where the bytes begin with what is no frame: a length above 8,388,608 as soon as
    /// the length is there, a length of 0 too, a kind of no message as soon as the kind is there, and a wrong field
    /// once the whole frame is there. The bytes stay, and from then on each call answers that fault. Want of memory
    /// changes nothing.
    pub fn take(&mut self, alloc: Global) -> Result<Option<Msg>, WireFault>
        ensures none { IfOk result (λ o. IfNone o ((answered self.old ≡ Waits) × (self.new ≡ self.old))) }
        ensures short { IfOk result (λ o. IfNone o (length self.new.bytes < 8388612)) }
        ensures some { IfOk result (λ o. IfSome o (λ m. (answered self.old ≡ Complete m self.new.bytes) × (self.new.fault ≡ None))) }
        ensures fault { IfErr result (λ f. IsRefused (answered self.old) f × (self.new ≡ kept self.old f)) }
        ensures message { IfOk result (λ o. IfSome o IsMessage) }
        ensures frame { IfOk result (λ o. IfSome o (λ m. self.old.bytes ≡ frame_of m ++ self.new.bytes)) }
        ensures stays { (f : WireFault) → self.old.fault ≡ Some f → (result ≡ Err f) × (self.new ≡ self.old) }
    {
        if let Some(fault) = self.fault {
            return Err(fault);
        }
        match read_frame(alloc, &self.buffer[self.at..]) {
            Ok(None) => Ok(None),
            Ok(Some((message, size))) => {
                self.at += size;
                Ok(Some(message))
            }
            Err(fault) => {
                self.fault = found(fault);
                Err(fault)
            }
        }
    }
}

/// What is to be answered from now on.
fn found(fault: WireFault) -> Option<WireFault>
    ensures none { fault ≡ WireFault.NoMemory → result ≡ None }
    ensures some { (fault ≡ WireFault.NoMemory → ⊥) → result ≡ Some fault }
{
    match fault {
        WireFault::NoMemory => None,
        fault => Some(fault),
    }
}

/// The bytes of a piece behind those that are left.
fn joined(alloc: Global, left: &[u8], piece: &[u8]) -> Result<Vec<u8>, NoMemory>
    ensures { IfOk result (λ bytes. bytes.items ≡ left.now ++ piece.now) }
{
    let mut bytes = Vec::with_capacity(alloc, left.len().saturating_add(piece.len()))?;
    bytes.extend_from_slice(left)?;
    bytes.extend_from_slice(piece)?;
    Ok(bytes)
}
