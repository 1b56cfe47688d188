// A digest.
ghost use Rattle.std.specs.Prelude.{◌≡◌, ◌<◌, ◌-◌, ◌^◌, ◌&&◌, ℕ, List, IfSome, IfNone, IfOk, OnOk, OnErr, false, length, map, slice_get, option_copied, Option};
ghost use Rattle.ld_table.specs.Words.{is_in};
ghost use Rattle.ld_lsn.specs.Number.{last_esn};
ghost use Rattle.ld_msg.specs.declared.msg.Entry.{Entry};
ghost use Rattle.ld_msg.specs.Sequencer.{takes_any};
ghost use Rattle.ld_msg.specs.Digest.{no_digest, with_page, with_asks, with_lost, asked_anew, enough, is_spent, digest_lng, Told};
ghost use Rattle.ld_digest.specs.Added.{IsAdded};
ghost use Rattle.ld_digest.specs.Gathering.{with_told, nodes_told, IsNodeAt, AreInPlace, IsInPlace};

use crate::count::Count;
use crate::told::reaches_end;
use crate::{Added, Page, Told};
use ld_ids::{NoMemory, NodeId, Spec};
use ld_lsn::Lsn;
use std::alloc::Global;
use std::marker::Model;

/// What the nodes of an epoch's set have told of the epoch, each node once, in rising order.
#[derive(Drop)]
pub struct Digest {
    spec: Spec,
    epoch: u32,
    told: Vec<Told>,
}

impl Model for Digest {
    ghost use Rattle.std.specs.Prelude.{◌≡◌};
    ghost use Rattle.ld_ids.specs.Set.{members};
    ghost use Rattle.ld_digest.specs.Gathering.{Gathering, nodes_told, IsInPlace};

    ghost Value = { Gathering };

    ghost view = { λ a. record { spec = a.spec; epoch = a.epoch; told = a.told.items } };

    ghost invariant = { λ a. (nodes_told a.told.items ≡ members a.spec.set) × IsInPlace a.told.items };
}

impl Digest {
    /// Of each node of the epoch's set nothing.
    pub fn new(alloc: Global, spec: &Spec, epoch: u32) -> Result<Digest, NoMemory>
        ensures spec { IfOk result (λ digest. digest.spec ≡ spec.now) }
        ensures epoch { IfOk result (λ digest. digest.epoch ≡ epoch) }
        ensures told { IfOk result (λ digest. digest.told ≡ no_digest spec.now epoch) }
    {
        let mut told = Vec::new(alloc);
        let nodes = spec.set;
        for place in 0..nodes.len() {
            if let Some(node) = nodes.nth(place) {
                told.push(Told::nothing(alloc, epoch, node))?;
            }
        }
        Ok(Digest {
            spec: *spec,
            epoch,
            told,
        })
    }

    /// What is fixed for the epoch.
    pub fn spec(&self) -> &Spec
        ensures { result.now ≡ self.now.spec }
    {
        &self.spec
    }

    /// The epoch.
    pub fn epoch(&self) -> u32
        ensures { result ≡ self.now.epoch }
    {
        self.epoch
    }

    /// What each node has told.
    pub fn told(&self) -> &[Told]
        ensures value { result.now ≡ self.now.told }
        ensures in_place { IsInPlace self.now.told }
    {
        &self.told
    }

    // The place of the node.
    fn place(&self, node: NodeId) -> Option<usize>
        ensures some { IfSome result (λ place. IsNodeAt self.now.told place node) }
        ensures within { IfSome result (λ place. place < length self.now.told) }
        ensures none { IfNone result (is_in node (nodes_told self.now.told) ≡ false) }
    {
        for (place, told) in self.told.iter().enumerate() {
            if told.node() == node {
                return Some(place);
            }
        }
        None
    }

    /// The greatest last known good offset that a node has told, 0 where none has.
    pub fn lng(&self) -> u32
        ensures value { result ≡ digest_lng self.now.told }
        ensures below { result < last_esn }
    {
        greatest_lng(self.told())
    }

    /// At a retry each node that gave a page is asked anew past what is known good by now.
    #[tactic(auto, unfolding(ld_msg::specs::Digest::with_asks))]
    pub fn ask_anew(&mut self)
        ensures { self.new ≡ with_told self.old (with_asks self.old.epoch self.old.told) }
    {
        let good = self.lng();
        ask_each_anew(&mut self.told, self.epoch, good);
    }

    /// Adds a page of the node, where it begins at the number that the node was asked from last
    /// and the node isn't whole. The page ends before the greatest number, and of its entries only
    /// a bridge may stand at the last offset of an epoch. Without memory nothing changes.
    pub fn add(&mut self, alloc: Global, node: NodeId, page: &Page) -> Result<Added, NoMemory>
        requires upto { page.now.upto < 2 ^ 64 - 1 }
        requires entries { AreInPlace page.now.entries.now }
        requires lng { page.now.lng < last_esn }
        ensures told { OnOk result (self.new ≡ with_told self.old (with_page self.old.epoch node
            page.now.from page.now.upto page.now.trim page.now.lng page.now.entries.now self.old.told)) }
        ensures added { IfOk result (λ added. IsAdded added node page.now.from self.old.told self.new.told) }
        ensures err { OnErr result (self.new ≡ self.old) }
    {
        let Some(place) = self.place(node) else {
            return Ok(Added::Ignored);
        };
        let good = self.lng().max(page.lng);
        let added = self.told[place].add(alloc, self.epoch, good, page)?;
        Ok(added)
    }

    /// Notes that the node said that it is lost.
    pub fn lost(&mut self, node: NodeId)
        ensures { self.new ≡ with_told self.old (with_lost node self.old.told) }
    {
        if let Some(place) = self.place(node) {
            self.told[place].lose();
        }
    }

    /// Whether so many nodes are whole and not lost that each set of as many nodes as the factor
    /// says has one of them.
    #[tactic(auto, unfolding(ld_msg::specs::Digest::enough))]
    pub fn enough(&self) -> bool
        ensures { result ≡ enough self.now.spec self.now.told }
    {
        let mut whole = 0;
        for told in &self.told {
            if told.is_whole() && !told.is_lost() {
                whole += 1;
            }
        }
        self.spec.set.len() < usize::from(self.spec.r) + whole
    }

    /// Whether no node is left that may still tell, and those that told aren't enough: each is whole or has said that it is
    /// lost.
    #[tactic(auto, unfolding(ld_msg::specs::Digest::is_spent))]
    pub fn spent(&self) -> bool
        ensures { result ≡ is_spent self.now.spec self.now.told }
    {
        let mut each = true;
        for told in &self.told {
            each = each && (told.is_whole() || told.is_lost());
        }
        each && !self.enough()
    }

    /// Whether a page of the node from a number up to another would be taken, and leaves the digest spent.
    pub fn spent_by_page(&self, node: NodeId, from: Lsn, upto: Lsn) -> bool
        ensures { (trim lng : ℕ) (entries : List Entry) → result ≡ (takes_any node from self.now.told && is_spent self.now.spec (with_page self.now.epoch node from upto trim lng entries self.now.told)) }
    {
        let ends = reaches_end(self.epoch, upto);
        let mut taken = false;
        let mut count = Count::none();
        for told in &self.told {
            let takes = told.takes_of(node, from);
            taken = taken || takes;
            count.add(if takes { ends } else { told.is_whole() }, told.is_lost());
        }
        taken && count.spent(&self.spec)
    }

    /// Whether word of the node that it is lost leaves the digest spent.
    pub fn spent_by_loss(&self, node: NodeId) -> bool
        ensures { result ≡ is_spent self.now.spec (with_lost node self.now.told) }
    {
        let mut count = Count::none();
        for told in &self.told {
            count.add(told.is_whole(), told.is_lost() || told.node() == node);
        }
        count.spent(&self.spec)
    }
}

// The greatest last known good offset that a node has told.
#[tactic(auto, unfolding(ld_msg::specs::Digest::digest_lng))]
fn greatest_lng(told: &[Told]) -> u32
    ensures { result ≡ digest_lng told.now }
{
    let mut greatest = 0;
    for one in told {
        greatest = greatest.max(one.lng());
    }
    greatest
}

// Each node is asked anew past a last known good offset of the epoch.
fn ask_each_anew(told: &mut Vec<Told>, epoch: u32, good: u32)
    requires { good < last_esn }
    ensures { told.new.items ≡ map (asked_anew epoch good) told.old.items }
{
    for place in 0..told.len() {
        told[place].ask_anew(epoch, good);
    }
}
