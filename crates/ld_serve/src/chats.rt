// What is held of the peers of a crowd, and the line of those of whom a whole frame may be.
ghost use Rattle.std.specs.Prelude.{◌≡◌, ℕ, None, Some, OnOk, IfSome, MatchOption, is_none, true};
ghost use Rattle.ld_crowd.specs.Serving.{put};

use ld_ids::NoMemory;
use ld_wire::Decoder;
use std::alloc::Global;
use std::collections::{BTreeMap, VecDeque};

/// What is held of a peer, and whether it is in the line.
#[derive(Drop)]
pub(crate) struct Chat {
    decoder: Decoder,
    is_in_line: bool,
    ghost fine: { is_none decoder.fault ≡ true },
}

/// How often the crowd is asked in a row for somebody who has something, before the next peer is served.
const LOOKS: u64 = 128;

/// The peers that are there, by number, and the line of those of whom a whole frame may be held. Before them come those of
/// whom less than one was held, and who may have something to read.
#[derive(Drop)]
pub(crate) struct Chats {
    chats: BTreeMap<u64, Chat>,
    line: VecDeque<u64>,
    dry: VecDeque<u64>,
    looks: u64,
}

impl Chats {
    ghost use Rattle.ld_serve.specs.Chats.{held_in};

    /// Nobody is there.
    pub(crate) fn new(alloc: Global) -> Chats
        ensures { (q : ℕ) → held_in result.chats q ≡ None }
    {
        Chats {
            chats: BTreeMap::new(alloc),
            line: VecDeque::new(alloc),
            dry: VecDeque::new(alloc),
            looks: 0,
        }
    }

    /// Whether nobody is in the line.
    pub(crate) fn is_dry(&self) -> bool {
        self.line.is_empty()
    }

    /// Whether nobody is in the line, nor before it.
    pub(crate) fn is_idle(&self) -> bool {
        self.line.is_empty() && self.dry.is_empty()
    }

    /// Whether the crowd is to be asked again before the next peer is served, where it named somebody.
    pub(crate) fn looks_on(&mut self, is_named: bool) -> bool
        ensures same { self.new.chats ≡ self.old.chats }
    {
        if is_named && self.looks < LOOKS {
            self.looks += 1;
            return true;
        }
        self.looks = 0;
        false
    }

    /// This much is held of a peer, who comes behind the others in the line where that is asked for.
    pub(crate) fn keep(
        &mut self,
        peer: u64,
        decoder: Decoder,
        is_in_line: bool,
    ) -> Result<(), NoMemory>
        requires fine { decoder.fault ≡ None }
        ensures kept { OnOk result ((q : ℕ) → held_in self.new.chats q ≡ put peer (Some decoder.bytes) (held_in self.old.chats) q) }
    {
        if is_in_line {
            self.line.push_back(peer)?;
        }
        let chat = Chat {
            decoder,
            is_in_line,
        };
        self.chats.insert(peer, chat)?;
        Ok(())
    }

    /// This much is held of a peer, which is less than a frame, and it is to be read.
    pub(crate) fn keep_dry(&mut self, peer: u64, decoder: Decoder) -> Result<(), NoMemory>
        requires fine { decoder.fault ≡ None }
        ensures kept { OnOk result ((q : ℕ) → held_in self.new.chats q ≡ put peer (Some decoder.bytes) (held_in self.old.chats) q) }
    {
        self.dry.push_back(peer)?;
        let chat = Chat {
            decoder,
            is_in_line: true,
        };
        self.chats.insert(peer, chat)?;
        Ok(())
    }

    /// A peer comes into the line, where it is there and isn't in it.
    pub(crate) fn queue(&mut self, peer: u64) -> Result<(), NoMemory>
        ensures same { OnOk result ((q : ℕ) → held_in self.new.chats q ≡ held_in self.old.chats q) }
    {
        let Some(chat) = self.chats.remove(&peer) else {
            return Ok(());
        };
        if chat.is_in_line {
            self.chats.insert(peer, chat)?;
            return Ok(());
        }
        self.keep(peer, chat.decoder, true)
    }

    /// A peer isn't there any more.
    pub(crate) fn remove(&mut self, peer: u64)
        ensures gone { (q : ℕ) → held_in self.new.chats q ≡ put peer None (held_in self.old.chats) q }
    {
        let _ = self.chats.remove(&peer);
    }

    /// The first one of those who are to be read, or else in the line, leaves it, with what is held of it, which is here no
    /// more. None where there is none, or that one isn't there any more.
    pub(crate) fn next(&mut self) -> Option<(u64, Decoder)>
        ensures next { MatchOption result ((q : ℕ) → held_in self.new.chats q ≡ held_in self.old.chats q) (λ p. (q : ℕ) → held_in self.old.chats q ≡ put p.0 (Some p.1.bytes) (held_in self.new.chats) q) }
        ensures gone { IfSome result (λ p. held_in self.new.chats p.0 ≡ None) }
        ensures fine { IfSome result (λ p. p.1.fault ≡ None) }
    {
        let Some(peer) = self.dry.pop_front() else {
            return self.next_in_line();
        };
        match self.chats.remove(&peer) {
            Some(chat) => Some((peer, chat.decoder)),
            None => None,
        }
    }

    /// The first one in the line leaves it, with what is held of it, which is here no more. None where nobody is in the
    /// line, or the first one isn't there any more.
    pub(crate) fn next_in_line(&mut self) -> Option<(u64, Decoder)>
        ensures next { MatchOption result ((q : ℕ) → held_in self.new.chats q ≡ held_in self.old.chats q) (λ p. (q : ℕ) → held_in self.old.chats q ≡ put p.0 (Some p.1.bytes) (held_in self.new.chats) q) }
        ensures gone { IfSome result (λ p. held_in self.new.chats p.0 ≡ None) }
        ensures fine { IfSome result (λ p. p.1.fault ≡ None) }
    {
        let peer = self.line.pop_front()?;
        match self.chats.remove(&peer) {
            Some(chat) => Some((peer, chat.decoder)),
            None => None,
        }
    }
}
