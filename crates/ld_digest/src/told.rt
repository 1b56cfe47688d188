// What one node has told.
ghost use Rattle.std.specs.Prelude.{◌≡◌, ◌<◌, ◌-◌, ◌^◌, nat_le, IfOk, OnOk, OnErr};
ghost use Rattle.ld_lsn.specs.Number.{numbered, last_esn};
ghost use Rattle.ld_msg.specs.Digest.{told_nothing, told_page, takes_page, asked_anew, told_lost};
ghost use Rattle.ld_digest.specs.Added.{page_added, IsAnswer};

use crate::{Added, Page};
use ld_ids::{NoMemory, NodeId};
use ld_lsn::Lsn;
use ld_msg::Entry;
use std::alloc::Global;
use std::marker::Model;

// The greatest offset of an epoch.
const LAST_ESN: u32 = u32::MAX;

/// Whether a page up to this number reaches the end of the epoch.
pub(crate) fn reaches_end(epoch: u32, upto: Lsn) -> bool
    ensures { result ≡ nat_le (numbered epoch last_esn) upto }
{
    Lsn::new(epoch, LAST_ESN) <= upto
}

/// What one node has told: the number that it was asked from last, the entries, the trim and the
/// last known good offset of its pages, whether they reach the epoch's end, and whether it then said that it is lost.
#[derive(Drop)]
pub struct Told {
    node: NodeId,
    asked: Lsn,
    entries: Vec<Entry>,
    trim: Lsn,
    lng: u32,
    whole: bool,
    lost: bool,
}

impl Model for Told {
    ghost use Rattle.ld_msg.specs.Digest.{Told};

    ghost Value = { Told };

    ghost view = { λ a. record {
      node = a.node;
      asked = a.asked;
      entries = a.entries.items;
      trim = a.trim;
      lng = a.lng;
      whole = a.whole;
      lost = a.lost;
    } };
}

impl Told {
    /// A node that has told nothing of the epoch.
    pub fn nothing(alloc: Global, epoch: u32, node: NodeId) -> Told
        ensures { result ≡ told_nothing epoch node }
    {
        Told {
            node,
            asked: Lsn::new(epoch, 1),
            entries: Vec::new(alloc),
            trim: Lsn::from_u64(0),
            lng: 0,
            whole: false,
            lost: false,
        }
    }

    /// The node.
    pub fn node(&self) -> NodeId
        ensures { result ≡ self.now.node }
    {
        self.node
    }

    /// The number that it was asked from last.
    pub fn asked(&self) -> Lsn
        ensures { result ≡ self.now.asked }
    {
        self.asked
    }

    /// The entries of its pages.
    pub fn entries(&self) -> &[Entry]
        ensures { result.now ≡ self.now.entries }
    {
        &self.entries
    }

    /// The greatest trim of its pages.
    pub fn trim(&self) -> Lsn
        ensures { result ≡ self.now.trim }
    {
        self.trim
    }

    /// The greatest last known good offset of its pages.
    pub fn lng(&self) -> u32
        ensures { result ≡ self.now.lng }
    {
        self.lng
    }

    /// Whether its pages reach the epoch's end.
    pub fn is_whole(&self) -> bool
        ensures { result ≡ self.now.whole }
    {
        self.whole
    }

    /// Whether it said that it is lost.
    pub fn is_lost(&self) -> bool
        ensures { result ≡ self.now.lost }
    {
        self.lost
    }

    /// Whether a page from this number on is the next one of the node's.
    pub fn takes(&self, from: Lsn) -> bool
        ensures { result ≡ takes_page self.now.node from self.now }
    {
        self.asked == from && !self.whole
    }

    /// Whether it is of this node, and a page from this number on is the node's next one.
    pub fn takes_of(&self, node: NodeId, from: Lsn) -> bool
        ensures { result ≡ takes_page node from self.now }
    {
        self.node == node && self.takes(from)
    }

    // Takes the page, and is asked on past it and past what is known good. Without memory nothing changes.
    fn take(&mut self, alloc: Global, epoch: u32, good: u32, page: &Page) -> Result<(), NoMemory>
        requires upto { page.now.upto < 2 ^ 64 - 1 }
        requires good { good < last_esn }
        ensures ok { OnOk result (self.new ≡ told_page epoch good page.now.upto page.now.trim
            page.now.lng page.now.entries.now self.old) }
        ensures err { OnErr result (self.new ≡ self.old) }
    {
        let mut entries = page.entries.copy(alloc)?.into_vec();
        self.entries.append(&mut entries)?;
        if let Some(next) = page.upto.next() {
            self.asked = next.max(Lsn::new(epoch, good + 1));
        }
        self.trim = self.trim.max(page.trim);
        self.lng = self.lng.max(page.lng);
        self.whole = reaches_end(epoch, page.upto);
        Ok(())
    }

    /// Adds the page, where it is the next one; `good` is the digest's last known good offset, the page
    /// counted. Without memory nothing changes.
    pub fn add(
        &mut self,
        alloc: Global,
        epoch: u32,
        good: u32,
        page: &Page,
    ) -> Result<Added, NoMemory>
        requires upto { page.now.upto < 2 ^ 64 - 1 }
        requires good { good < last_esn }
        ensures told { OnOk result (self.new ≡ page_added epoch good page.now.from page.now.upto
            page.now.trim page.now.lng page.now.entries.now self.old) }
        ensures added { IfOk result (λ added. IsAnswer added page.now.from self.old self.new) }
        ensures err { OnErr result (self.new ≡ self.old) }
    {
        if !self.takes(page.from) {
            return Ok(Added::Ignored);
        }
        self.take(alloc, epoch, good, page)?;
        if self.whole {
            Ok(Added::Whole)
        } else {
            Ok(Added::Ask(self.asked))
        }
    }

    /// Is asked anew past what is known good by now, where it gave a page.
    pub fn ask_anew(&mut self, epoch: u32, good: u32)
        requires { good < last_esn }
        ensures { self.new ≡ asked_anew epoch good self.old }
    {
        if self.asked != Lsn::new(epoch, 1) {
            self.asked = self.asked.max(Lsn::new(epoch, good + 1));
        }
    }

    /// Notes that the node is lost.
    pub fn lose(&mut self)
        ensures { self.new ≡ told_lost self.old.node self.old }
    {
        self.lost = true;
    }
}
