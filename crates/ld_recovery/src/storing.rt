// A plan that is being stored.
ghost use Rattle.std.specs.Prelude.{◌≡◌, ◌≤◌, ◌<◌, ◌+◌, ◌-◌, ◌==◌, ℕ, ◌&&◌, ◌||◌, not, length, min, nat_le, ◌++◌, ◌∷◌, [], IfOk, OnOk, OnErr};
ghost use Rattle.ld_table.specs.Words.{how_many, is_in, without};
ghost use Rattle.ld_ids.specs.Set.{members};
ghost use Rattle.ld_msg.specs.Bounds.{IsLng};
ghost use Rattle.ld_msg.specs.Sequencer.{planned, storing_of, settle, settled_by, is_fully_ready, is_ready_short, is_wide, next_try, summary_of, item_stores};
ghost use Rattle.ld_recovery.specs.Sending.{sent, BeginsWith};
ghost use Rattle.ld_recovery.specs.Marks.{mark};
ghost use Rattle.ld_recovery.specs.Planning.{with_storing, lacks, has_settled, settle_at, settle_first, one_if, AreFrom, HasSettled, IsClose};

use crate::Planned;
use crate::marks::Marks;
use crate::send::{Left, Sender};
use ld_copyset::{NodeList, choose_for};
use ld_ids::{NoMemory, NodeId, NodeSet, Spec};
use ld_lsn::Lsn;
use ld_msg::{Outbox, Summary};
use ld_plan::{Item, Plan};
use std::alloc::Global;
use std::marker::Model;

/// A plan that is being stored: the items under numbers that follow each other, the wave that they were sent in last,
/// how many of them fewer nodes than the epoch's factor have settled, and for each node how many it has settled and how many
/// its trims have.
#[derive(Drop)]
pub struct Storing {
    spec: Spec,
    trim: Lsn,
    lng: u32,
    end: u32,
    loss: bool,
    first: Lsn,
    items: Vec<Planned>,
    wave: u32,
    lacking: usize,
    trimmed: Marks,
    settled: Marks,
}

impl Model for Storing {
    ghost use Rattle.ld_recovery.specs.Planning.{Plans, IsKept};

    ghost Value = { Plans };

    ghost view = { λ a. record { spec = a.spec; storing = record { trim = a.trim; lng = a.lng; end = a.end; loss = a.loss; items = a.items.items; wave = a.wave } } };

    ghost invariant = { λ a. IsKept a.spec.r a.first a.lacking a.lng a.end a.trimmed a.settled a.items.items };
}

impl Storing {
    /// A plan that is to be sent in its wave 0. Its items have the numbers from one on, its end is at least 1, and its last
    /// known good offset is below the last offset of an epoch.
    pub fn new(alloc: Global, spec: &Spec, plan: Plan) -> Result<Storing, NoMemory>
        requires factor { 1 ≤ spec.now.r }
        requires numbers { (first : ℕ) × AreFrom first (planned plan.items) }
        requires lng { IsLng plan.lng }
        requires end { 1 ≤ plan.end }
        ensures { IfOk result (λ storing. storing ≡ record { spec = spec.now; storing = storing_of plan }) }
    {
        let Plan {
            trim,
            lng,
            end,
            loss,
            items,
        } = plan;
        let items = items.into_vec();
        let first = first_number(&items);
        let items = unsettled(alloc, items)?;
        let lacking = items.len();
        Ok(Storing {
            spec: *spec,
            trim,
            lng,
            end,
            loss,
            first,
            items,
            wave: 0,
            lacking,
            trimmed: Marks::none(),
            settled: Marks::none(),
        })
    }

    /// The node stored the item of the number, where there is one. It takes constant time.
    pub fn store(&mut self, number: Lsn, node: NodeId)
        ensures { self.new ≡ with_storing self.old (settled_by (λ s. s == number) node self.old.storing) }
    {
        let _ = node.number();
        let gain = settle_number(&mut self.items, self.first, number, node, self.spec.r);
        self.settled.add(node, gain.fresh);
        self.lacking -= gain.filled;
    }

    /// The node trimmed all up to a number. It passes only the items that no earlier trim of the node has passed, so all
    /// trims of a node together take time in the items.
    pub fn trim(&mut self, trim: Lsn, node: NodeId)
        ensures { self.new ≡ with_storing self.old (settled_by (λ s. nat_le s trim) node self.old.storing) }
    {
        let _ = node.number();
        let done = self.trimmed.count(node);
        let count = count_through(self.first, trim, self.items.len());
        let gain = settle_first(&mut self.items, done, count, node, self.spec.r);
        self.trimmed.raise(node, count);
        self.settled.add(node, gain.fresh);
        self.lacking -= gain.filled;
    }

    /// Sends each item that has too few nodes to the choice of the wave, which leaves the lost nodes out. A plan that says
    /// what is lost, or any where fewer nodes than the factor are left, goes to all nodes that are left, each item to those
    /// that haven't settled it. Without memory nothing is sent.
    #[tactic(auto, using(crate::proofs::Begins::back_rules))]
    pub fn send(
        &self,
        alloc: Global,
        sender: &Sender,
        lost: &NodeList,
        out: &mut Outbox,
    ) -> Result<(), NoMemory>
        ensures sent { OnOk result (out.new ≡ out.old ++ sent sender.now (item_stores self.now.spec lost.now self.now.storing.loss self.now.storing.lng self.now.storing.wave self.now.storing.items)) }
        ensures unsent { OnErr result (out.new ≡ out.old) }
    {
        let count = out.len();
        let wide = self.is_wide(lost);
        let sends = self.send_each(alloc, sender, wide, lost, out);
        if sends.is_err() {
            out.truncate(count);
        }
        sends
    }

    // Whether the items go to all nodes that are left.
    fn is_wide(&self, lost: &NodeList) -> bool
        ensures { result ≡ is_wide self.now.spec lost.now self.now.storing.loss }
    {
        self.loss || count_left(&self.spec.set, lost) < usize::from(self.spec.r)
    }

    // Sends each item to the nodes that it still wants. Without memory a part may have been sent.
    #[tactic(auto, using(crate::proofs::Begins::begin_rules))]
    fn send_each(
        &self,
        alloc: Global,
        sender: &Sender,
        wide: bool,
        lost: &NodeList,
        out: &mut Outbox,
    ) -> Result<(), NoMemory>
        requires { wide ≡ is_wide self.now.spec lost.now self.now.storing.loss }
        ensures sent { OnOk result (out.new ≡ out.old ++ sent sender.now (item_stores self.now.spec lost.now self.now.storing.loss self.now.storing.lng self.now.storing.wave self.now.storing.items)) }
        ensures begins { OnErr result (BeginsWith out.old out.new) }
    {
        for item in &self.items {
            self.send_one(alloc, sender, item, wide, lost, out)?;
        }
        Ok(())
    }

    // Sends the item to the nodes that it still wants. Without memory a part may have been sent.
    fn send_one(
        &self,
        alloc: Global,
        sender: &Sender,
        item: &Planned,
        wide: bool,
        lost: &NodeList,
        out: &mut Outbox,
    ) -> Result<(), NoMemory>
        requires { wide ≡ is_wide self.now.spec lost.now self.now.storing.loss }
        ensures sent { OnOk result (out.new ≡ out.old ++ sent sender.now (item_stores self.now.spec lost.now self.now.storing.loss self.now.storing.lng self.now.storing.wave (item.now ∷ []))) }
        ensures begins { OnErr result (BeginsWith out.old out.new) }
    {
        if wide {
            let left = Left {
                set: &self.spec.set,
                lost,
                settled: item.settled(),
            };
            return sender.send_left(alloc, item.number(), self.lng, item.what(), &left, out);
        }
        if !item.lacks(self.spec.r) {
            return Ok(());
        }
        let nodes = choose_for(&self.spec, item.number(), self.wave, &lost.to_set());
        sender.send_item(alloc, item.number(), self.lng, item.what(), &nodes, out)
    }

    /// Whether each item has enough nodes, and the plan doesn't say what is lost. It takes constant time.
    #[tactic(auto, unfolding(ld_msg::specs::Sequencer::is_ready))]
    pub fn is_fully_ready(&self) -> bool
        ensures { result ≡ is_fully_ready self.now.spec self.now.storing }
    {
        !self.loss && self.lacking == 0
    }

    /// Whether each node of the epoch settled each item, or is lost. It takes time in the nodes, however many the items.
    #[tactic(auto, unfolding(ld_msg::specs::Sequencer::is_ready_short))]
    pub fn is_ready_short(&self, lost: &NodeList) -> bool
        ensures { result ≡ is_ready_short self.now.spec lost.now self.now.storing }
    {
        let mut each = true;
        'nodes: for place in 0..self.spec.set.len() {
            if let Some(node) = self.spec.set.nth(place) {
                each = each && is_done(&self.settled, lost, self.items.len(), node);
            }
        }
        each
    }

    /// The next wave; the last one, 2^32-1, stays.
    pub fn raise(&mut self)
        ensures { self.new ≡ with_storing self.old (next_try self.old.storing) }
    {
        self.wave = self.wave.saturating_add(1);
    }

    /// The summary with which the epoch is closed by the sequencer of this epoch.
    pub fn summary(&self, ballot: u32) -> Summary
        ensures value { result ≡ summary_of ballot self.now.storing }
        ensures close { IsClose ballot result }
    {
        summary(ballot, self.lng, self.trim, self.end, self.loss)
    }
}

// The summary with which the sequencer of this epoch closes.
fn summary(ballot: u32, lng: u32, trim: Lsn, end: u32, loss: bool) -> Summary
    requires lng { IsLng lng }
    requires end { 1 ≤ end }
    ensures value { result ≡ record { ballot = ballot; lng = lng; trim = trim; end = end; loss = loss } }
    ensures close { IsClose ballot result }
{
    let _ = trim.value();
    Summary {
        ballot,
        lng,
        trim,
        end,
        loss,
    }
}

// Whether the node is lost, or has settled so many items.
fn is_done(settled: &Marks, lost: &NodeList, many: usize, node: NodeId) -> bool
    ensures { result ≡ (is_in node lost.now || (mark node settled.now == many)) }
{
    lost.has(node) || settled.count(node) == many
}

// How many nodes of the set aren't in the list.
fn count_left(set: &NodeSet, lost: &NodeList) -> usize
    ensures { result ≡ length (without lost.now (members set.now)) }
{
    let mut count = 0;
    'nodes: for place in 0..set.len() {
        if let Some(node) = set.nth(place) {
            if !lost.has(node) {
                count += 1;
            }
        }
    }
    count
}

/// What a node's answer comes to: how many items then have enough nodes that had one too few, and how many items the node
/// hadn't settled before.
#[derive(Clone, Copy)]
struct Gain {
    filled: usize,
    fresh: usize,
}

impl Gain {
    // Of an answer that settles nothing.
    fn none() -> Gain
        ensures filled { result.filled ≡ 0 }
        ensures fresh { result.fresh ≡ 0 }
    {
        Gain {
            filled: 0,
            fresh: 0,
        }
    }
}

// The node settled the item of the number, where there is one.
fn settle_number(
    items: &mut Vec<Planned>,
    first: Lsn,
    number: Lsn,
    node: NodeId,
    factor: u8,
) -> Gain
    requires { AreFrom first items.old.items }
    ensures items { items.new.items ≡ settle (λ s. s == number) node items.old.items }
    ensures left { how_many (lacks factor) items.old.items ≡ how_many (lacks factor) items.new.items + result.filled }
    ensures fresh { how_many (has_settled node) items.new.items ≡ how_many (has_settled node) items.old.items + result.fresh }
{
    if number.value() < first.value() {
        return Gain::none();
    }
    let place = number.value() - first.value();
    if place < items.len() as u64 {
        return settle_at(items, place as usize, node, factor);
    }
    Gain::none()
}

// Of so many items from a number on those up to another.
fn count_through(first: Lsn, trim: Lsn, len: usize) -> usize
    ensures { result ≡ min (trim + 1 - first) len }
{
    if trim.value() < first.value() {
        return 0;
    }
    let above = trim.value() - first.value();
    if above < len as u64 {
        above as usize + 1
    } else {
        len
    }
}

// The node settled so many items, from the first one on, of which it has settled some before: only the others are passed.
fn settle_first(
    items: &mut Vec<Planned>,
    done: usize,
    count: usize,
    node: NodeId,
    factor: u8,
) -> Gain
    requires count { count ≤ length items.old.items }
    requires done { HasSettled done node items.old.items }
    ensures items { items.new.items ≡ settle_first count node items.old.items }
    ensures left { how_many (lacks factor) items.old.items ≡ how_many (lacks factor) items.new.items + result.filled }
    ensures fresh { how_many (has_settled node) items.new.items ≡ how_many (has_settled node) items.old.items + result.fresh }
{
    if count <= done {
        return Gain::none();
    }
    let mut filled = 0;
    let mut fresh = 0;
    'items: for place in done..count {
        let gain = settle_at(items, place, node, factor);
        filled += gain.filled;
        fresh += gain.fresh;
    }
    Gain { filled, fresh }
}

// The node settled the item at the offset: each part of the gain is 1 or 0.
fn settle_at(items: &mut Vec<Planned>, place: usize, node: NodeId, factor: u8) -> Gain
    requires { place < length items.old.items }
    ensures items { items.new.items ≡ settle_at place node items.old.items }
    ensures left { how_many (lacks factor) items.old.items ≡ how_many (lacks factor) items.new.items + result.filled }
    ensures fresh { how_many (has_settled node) items.new.items ≡ how_many (has_settled node) items.old.items + result.fresh }
    ensures one { result.filled ≤ 1 }
    ensures one_fresh { result.fresh ≤ 1 }
{
    let item = &mut items[place];
    let had = item.settled().has(node);
    let lacked = item.lacks(factor);
    item.settle(node);
    let lacks = item.lacks(factor);
    Gain {
        filled: one_if(lacked, lacks),
        fresh: one_if(true, had),
    }
}

// 1 where the one holds and the other doesn't, else 0.
fn one_if(one: bool, other: bool) -> usize
    ensures value { result ≡ one_if (one && not other) }
    ensures one { result ≤ 1 }
{
    if one && !other { 1 } else { 0 }
}

// The number of the first item.
fn first_number(items: &[Item]) -> Lsn
    requires { (first : ℕ) × AreFrom first (planned items.now) }
    ensures { AreFrom result (planned items.now) }
{
    match items.first() {
        Some(item) => item.number,
        None => Lsn::from_u64(0),
    }
}

// The items, settled by no node.
fn unsettled(alloc: Global, items: Vec<Item>) -> Result<Vec<Planned>, NoMemory>
    ensures { IfOk result (λ unsettled'. unsettled'.items ≡ planned items.items) }
{
    let mut list = Vec::new(alloc);
    for item in items {
        list.push(Planned::new(item.number, item.what))?;
    }
    Ok(list)
}
