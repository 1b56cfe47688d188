// An append that waits.
ghost use Rattle.std.specs.Prelude.{◌≡◌, ℕ, ◌<◌, ◌≤◌, ◌^◌, true, false, if◌then◌else◌};
ghost use Rattle.ld_table.specs.Words.{is_in};
ghost use Rattle.ld_appender.specs.Waiting.{starts, with_stored, with_next_wave, is_enough};
ghost use Rattle.ld_appender.specs.declared.pending.Progress.{Progress};
ghost use Rattle.ld_appender.specs.declared.pending.Progress.TheVariants.{Done, More};

use ld_copyset::NodeList;
use ld_ids::{NodeId, Payload};
use ld_lsn::Lsn;
use std::marker::Model;

/// Whether an append is stored on enough nodes.
#[derive(Clone, Copy)]
pub enum Progress {
    /// It is.
    Done,
    /// It wants more nodes.
    More,
}

/// An append, the wave that it was sent in last, and the nodes that stored it, in the order of their answers.
#[derive(Drop)]
pub struct Pending {
    lsn: Lsn,
    payload: Payload,
    r: u8,
    wave: u32,
    stored: NodeList,
}

impl Model for Pending {
    ghost use Rattle.std.specs.Prelude.{ℕ};
    ghost use Rattle.ld_appender.specs.Waiting.{Waiting};

    ghost Value = { Waiting };

    ghost view = { λ p. record { number = p.lsn; factor = p.r; append = record { payload = p.payload; wave = p.wave; stored = p.stored } } };
}

impl Pending {
    /// An append that no node has stored, in its wave 0. It is to be stored on `r` nodes.
    pub fn new(lsn: Lsn, payload: Payload, r: u8) -> Pending
        ensures { result ≡ starts lsn payload r }
    {
        Pending {
            lsn,
            payload,
            r,
            wave: 0,
            stored: NodeList::empty(),
        }
    }

    /// Its number.
    pub fn lsn(&self) -> Lsn
        ensures { result ≡ self.now.number }
    {
        self.lsn
    }

    /// What it carries.
    pub fn payload(&self) -> &Payload
        ensures { result.now ≡ self.now.append.payload }
    {
        &self.payload
    }

    /// The node answered that it stored it; each node counts once, over all waves. It is done exactly where `r` distinct
    /// nodes have.
    pub fn stored(&mut self, node: NodeId) -> Progress
        ensures counted { self.new ≡ with_stored self.old node }
        ensures progress { result ≡ (if is_enough (with_stored self.old node) then Done else More) }
    {
        self.stored.add(node);
        self.progress()
    }

    /// Whether enough nodes have stored it.
    pub fn progress(&self) -> Progress
        ensures { result ≡ (if is_enough self.now then Done else More) }
    {
        if self.stored.len() >= usize::from(self.r) {
            Progress::Done
        } else {
            Progress::More
        }
    }

    /// Whether the node stored it.
    pub fn has(&self, node: NodeId) -> bool
        ensures { result ≡ is_in node self.now.append.stored }
    {
        self.stored.has(node)
    }

    /// The wave that it was sent in last.
    pub fn wave(&self) -> u32
        ensures { result ≡ self.now.append.wave }
    {
        self.wave
    }

    /// The next wave; the last one, 2^32-1, stays.
    pub fn raise(&mut self)
        ensures { self.new ≡ with_next_wave self.old }
    {
        self.wave = self.wave.saturating_add(1);
    }
}
