// The stages of a recovery.
ghost use Rattle.std.specs.Prelude.{◌≡◌, ◌≤◌, ◌<◌, ◌-◌, ◌^◌, ◌==◌, ◌++◌, ◌∷◌, [], ℕ, List, true, ◌&&◌, nat_le, IfOk, OnOk, OnErr};
ghost use Rattle.ld_msg.specs.declared.msg.Body.TheVariants.{DigestAsk};
ghost use Rattle.ld_msg.specs.declared.msg.Entry.{Entry};
ghost use Rattle.ld_lsn.specs.Number.{last_esn};
ghost use Rattle.ld_msg.specs.Digest.{plan};
ghost use Rattle.ld_digest.specs.Gathering.{AreInPlace};
ghost use Rattle.ld_plan.specs.Decision.{lets_plan};
ghost use Rattle.ld_recovery.specs.Recovering.{is_spent_stage, takes_in, page_told};
ghost use Rattle.ld_recovery.specs.declared.stage.Stage.TheVariants.{Seals, Stopped};
ghost use Rattle.ld_recovery.specs.Sending.{sent};
ghost use Rattle.ld_recovery.specs.States.{summary_in, state_in};
ghost use Rattle.ld_ids.specs.declared.set.Spec.{Spec as Config};
ghost use Rattle.ld_msg.specs.Sequencer.{lost_stage, storing_of, item_stores, planned, Stores as Stored};
ghost use Rattle.ld_recovery.specs.Stages.{shown, settled, closed_if_ready, retried_stage, retry_sends, page_stage, page_sends, gathered, gathered_sends, loss_stage, loss_sends, gathering_of, lossy_stage, lossy_sends, IsOf};

use crate::send::Sender;
use crate::state::State;
use crate::storing::Storing;
use ld_copyset::NodeList;
use ld_digest::{Added, Digest, Page};
use ld_ids::{NoMemory, NodeId, Spec};
use ld_lsn::Lsn;
use ld_msg::{Outbox, Summary};
use ld_plan::plan;
use std::alloc::Global;
use std::mem;

/// Where a recovery is.
#[derive(Drop)]
pub(crate) enum Stage {
    /// It gathers what the nodes tell.
    Seals(Digest),
    /// It stores the plan.
    Stores(Storing),
    /// The plan is stored, and the epoch is to be closed so; the close is short or not.
    Closes(Summary, bool),
    /// It ran out of memory: it asks for nothing, takes nothing and never closes, and what may run out of memory does so.
    Stopped,
}

impl Stage {
    /// The node stored the item of a number.
    fn on_stored(self, ballot: u32, lost: &NodeList, number: Lsn, node: NodeId) -> Stage
        ensures shown { shown result ≡ settled ballot lost.now (λ s. s == number) node self }
        ensures of { (spec : Config) (epoch : ℕ) → IsOf spec epoch ballot self → IsOf spec epoch ballot result }
    {
        match self {
            Stage::Stores(mut storing) => {
                storing.store(number, node);
                closed_if_ready(storing, ballot, lost)
            }
            Stage::Seals(digest) => Stage::Seals(digest),
            Stage::Closes(summary, short) => Stage::Closes(summary, short),
            Stage::Stopped => Stage::Stopped,
        }
    }

    /// The node trimmed all up to a number.
    fn on_trimmed(self, ballot: u32, lost: &NodeList, trim: Lsn, node: NodeId) -> Stage
        ensures shown { shown result ≡ settled ballot lost.now (λ s. nat_le s trim) node self }
        ensures of { (spec : Config) (epoch : ℕ) → IsOf spec epoch ballot self → IsOf spec epoch ballot result }
    {
        match self {
            Stage::Stores(mut storing) => {
                storing.trim(trim, node);
                closed_if_ready(storing, ballot, lost)
            }
            Stage::Seals(digest) => Stage::Seals(digest),
            Stage::Closes(summary, short) => Stage::Closes(summary, short),
            Stage::Stopped => Stage::Stopped,
        }
    }

    /// The node stored the item of a number.
    pub(crate) fn store(&mut self, ballot: u32, lost: &NodeList, number: Lsn, node: NodeId)
        ensures shown { shown self.new ≡ settled ballot lost.now (λ s. s == number) node self.old }
        ensures of { (spec : Config) (epoch : ℕ) → IsOf spec epoch ballot self.old → IsOf spec epoch ballot self.new }
    {
        let stage = mem::replace(self, Stage::Stopped);
        *self = stage.on_stored(ballot, lost, number, node);
    }

    /// The node trimmed all up to a number.
    pub(crate) fn trim(&mut self, ballot: u32, lost: &NodeList, trim: Lsn, node: NodeId)
        ensures shown { shown self.new ≡ settled ballot lost.now (λ s. nat_le s trim) node self.old }
        ensures of { (spec : Config) (epoch : ℕ) → IsOf spec epoch ballot self.old → IsOf spec epoch ballot self.new }
    {
        let stage = mem::replace(self, Stage::Stopped);
        *self = stage.on_trimmed(ballot, lost, trim, node);
    }

    /// The node said that it is lost, and is among the lost ones. Without memory nothing is sent, and it is stopped.
    pub(crate) fn lose_node(
        &mut self,
        alloc: Global,
        scope: &Scope,
        node: NodeId,
        out: &mut Outbox,
    ) -> Result<(), NoMemory>
        requires factor { 1 ≤ scope.now.spec.now.r }
        requires of { IsOf scope.now.spec.now scope.now.epoch scope.now.sender.now.epoch self.old }
        ensures shown { OnOk result (shown self.new ≡ loss_stage scope.now.spec.now scope.now.epoch scope.now.sender.now.epoch scope.now.lost.now node self.old) }
        ensures stopped { OnErr result (self.new ≡ Stopped) }
        ensures of { IsOf scope.now.spec.now scope.now.epoch scope.now.sender.now.epoch self.new }
        ensures sent { OnOk result (out.new ≡ out.old ++ sent scope.now.sender.now (loss_sends scope.now.spec.now scope.now.epoch scope.now.lost.now node self.old)) }
        ensures unsent { OnErr result (out.new ≡ out.old) }
    {
        let stage = mem::replace(self, Stage::Stopped);
        *self = on_lost(alloc, stage, scope, node, out)?;
        Ok(())
    }

    /// What has been told is planned as what is lost. The digest is spent. Without memory nothing is sent, and it is stopped.
    pub(crate) fn lose(
        &mut self,
        alloc: Global,
        scope: &Scope,
        out: &mut Outbox,
    ) -> Result<(), NoMemory>
        requires factor { 1 ≤ scope.now.spec.now.r }
        requires of { IsOf scope.now.spec.now scope.now.epoch scope.now.sender.now.epoch self.old }
        requires spent { is_spent_stage scope.now.spec.now (shown self.old) ≡ true }
        ensures shown { OnOk result (shown self.new ≡ lossy_stage (gathering_of scope.now.spec.now scope.now.epoch self.old)) }
        ensures stopped { OnErr result (self.new ≡ Stopped) }
        ensures of { IsOf scope.now.spec.now scope.now.epoch scope.now.sender.now.epoch self.new }
        ensures sent { OnOk result (out.new ≡ out.old ++ sent scope.now.sender.now (lossy_sends scope.now.lost.now (gathering_of scope.now.spec.now scope.now.epoch self.old))) }
        ensures unsent { OnErr result (out.new ≡ out.old) }
    {
        let stage = mem::replace(self, Stage::Stopped);
        *self = lossy(alloc, stage, scope, out)?;
        Ok(())
    }

    /// Whether the digest is spent. One of no nodes is.
    pub(crate) fn spent(&self, spec: &Spec) -> bool
        ensures { (epoch ballot : ℕ) → IsOf spec.now epoch ballot self.now → result ≡ is_spent_stage spec.now (shown self.now) }
    {
        match self {
            Stage::Seals(digest) => digest.spent(),
            Stage::Stores(_) => false,
            Stage::Closes(_, _) => false,
            Stage::Stopped => usize::from(spec.r) <= spec.set.len(),
        }
    }

    /// Whether a page of the node from a number up to another would be taken and leave the digest spent.
    pub(crate) fn spent_by_page(&self, spec: &Spec, node: NodeId, from: Lsn, upto: Lsn) -> bool
        ensures { (epoch ballot trim lng : ℕ) (entries : List Entry) → IsOf spec.now epoch ballot self.now → result ≡ (takes_in node from (shown self.now) && is_spent_stage spec.now (page_told epoch node from upto trim lng entries (shown self.now))) }
    {
        match self {
            Stage::Seals(digest) => digest.spent_by_page(node, from, upto),
            Stage::Stores(_) => false,
            Stage::Closes(_, _) => false,
            Stage::Stopped => false,
        }
    }

    /// Whether word of the node that it is lost would leave the digest spent. One of no nodes is.
    pub(crate) fn spent_by_loss(&self, spec: &Spec, node: NodeId) -> bool
        ensures { (epoch ballot : ℕ) → IsOf spec.now epoch ballot self.now → result ≡ is_spent_stage spec.now (lost_stage node (shown self.now)) }
    {
        match self {
            Stage::Seals(digest) => digest.spent_by_loss(node),
            Stage::Stores(_) => false,
            Stage::Closes(_, _) => false,
            Stage::Stopped => usize::from(spec.r) <= spec.set.len(),
        }
    }

    /// What is still wanted is asked for again, unless the digest is spent; a plan is closed, where it is ready. Without
    /// memory nothing is sent, and it is stopped.
    pub(crate) fn try_again(
        &mut self,
        alloc: Global,
        sender: &Sender,
        lost: &NodeList,
        out: &mut Outbox,
    ) -> Result<(), NoMemory>
        ensures shown { OnOk result (shown self.new ≡ retried_stage sender.now.epoch lost.now self.old) }
        ensures stopped { OnErr result (self.new ≡ Stopped) }
        ensures of { (spec : Config) (epoch : ℕ) → IsOf spec epoch sender.now.epoch self.old → IsOf spec epoch sender.now.epoch self.new }
        ensures sent { OnOk result (out.new ≡ out.old ++ sent sender.now (retry_sends lost.now self.old)) }
        ensures unsent { OnErr result (out.new ≡ out.old) }
    {
        let stage = mem::replace(self, Stage::Stopped);
        *self = stage.retry(alloc, sender, lost, out)?;
        Ok(())
    }

    /// A page of the node comes. Without memory nothing is sent, and it is stopped.
    pub(crate) fn take_page(
        &mut self,
        alloc: Global,
        scope: &Scope,
        node: NodeId,
        page: &Page,
        out: &mut Outbox,
    ) -> Result<(), NoMemory>
        requires factor { 1 ≤ scope.now.spec.now.r }
        requires upto { page.now.upto < 2 ^ 64 - 1 }
        requires entries { AreInPlace page.now.entries.now }
        requires lng { page.now.lng < last_esn }
        requires of { IsOf scope.now.spec.now scope.now.epoch scope.now.sender.now.epoch self.old }
        ensures shown { OnOk result (shown self.new ≡ page_stage self.old node page.now.from page.now.upto page.now.trim page.now.lng page.now.entries.now) }
        ensures stopped { OnErr result (self.new ≡ Stopped) }
        ensures of { IsOf scope.now.spec.now scope.now.epoch scope.now.sender.now.epoch self.new }
        ensures sent { OnOk result (out.new ≡ out.old ++ sent scope.now.sender.now (page_sends scope.now.lost.now self.old node page.now.from page.now.upto page.now.trim page.now.lng page.now.entries.now)) }
        ensures unsent { OnErr result (out.new ≡ out.old) }
    {
        let stage = mem::replace(self, Stage::Stopped);
        *self = on_page(alloc, stage, scope, node, page, out)?;
        Ok(())
    }

    /// The summary with which the epoch is to be closed, once the plan is stored.
    pub(crate) fn summary(&self) -> Option<Summary>
        ensures { result ≡ summary_in (shown self.now) }
    {
        match self {
            Stage::Closes(summary, _) => Some(*summary),
            Stage::Seals(_) => None,
            Stage::Stores(_) => None,
            Stage::Stopped => None,
        }
    }

    /// The state of a recovery that goes on.
    pub(crate) fn state(&self) -> State
        ensures { result ≡ state_in (shown self.now) }
    {
        match self {
            Stage::Closes(summary, short) => State::Closing(*summary, *short),
            Stage::Seals(_) => State::Sealing,
            Stage::Stores(_) => State::Storing,
            Stage::Stopped => State::Sealing,
        }
    }

    /// What is still wanted is asked for again, unless the digest is spent; a plan is closed, where it is ready. Without
    /// memory nothing is sent.
    fn retry(
        self,
        alloc: Global,
        sender: &Sender,
        lost: &NodeList,
        out: &mut Outbox,
    ) -> Result<Stage, NoMemory>
        ensures shown { IfOk result (λ stage'. shown stage' ≡ retried_stage sender.now.epoch lost.now self) }
        ensures of { IfOk result (λ stage'. (spec : Config) (epoch : ℕ) → IsOf spec epoch sender.now.epoch self → IsOf spec epoch sender.now.epoch stage') }
        ensures sent { OnOk result (out.new ≡ out.old ++ sent sender.now (retry_sends lost.now self)) }
        ensures unsent { OnErr result (out.new ≡ out.old) }
    {
        match self {
            Stage::Seals(mut digest) => {
                if digest.spent() {
                    return Ok(Stage::Seals(digest));
                }
                digest.ask_anew();
                sender.ask_for_digest(digest.told(), out)?;
                Ok(Stage::Seals(digest))
            }
            Stage::Stores(mut storing) => {
                storing.raise();
                storing.send(alloc, sender, lost, out)?;
                Ok(closed_if_ready(storing, sender.epoch, lost))
            }
            Stage::Closes(summary, short) => Ok(Stage::Closes(summary, short)),
            Stage::Stopped => Err(NoMemory),
        }
    }
}

// A plan is closed, where it is ready; the close is short, where each node has answered or is lost, but it isn't fully ready.
fn closed_if_ready(storing: Storing, ballot: u32, lost: &NodeList) -> Stage
    ensures shown { shown result ≡ closed_if_ready ballot lost.now storing }
    ensures of { (spec : Config) (epoch : ℕ) → storing.spec ≡ spec → IsOf spec epoch ballot result }
{
    let fully = storing.is_fully_ready();
    if fully || storing.is_ready_short(lost) {
        Stage::Closes(storing.summary(ballot), !fully)
    } else {
        Stage::Stores(storing)
    }
}

/// Who recovers which epoch of a log, and the nodes that choices leave out.
#[derive(Drop)]
pub(crate) struct Scope<'a> {
    pub(crate) spec: &'a Spec,
    pub(crate) sender: &'a Sender,
    pub(crate) epoch: u32,
    pub(crate) lost: &'a NodeList,
}

// A page of the node comes. Without memory nothing is sent.
fn on_page(
    alloc: Global,
    stage: Stage,
    scope: &Scope,
    node: NodeId,
    page: &Page,
    out: &mut Outbox,
) -> Result<Stage, NoMemory>
    requires factor { 1 ≤ scope.now.spec.now.r }
    requires upto { page.now.upto < 2 ^ 64 - 1 }
    requires entries { AreInPlace page.now.entries.now }
    requires lng { page.now.lng < last_esn }
    requires of { IsOf scope.now.spec.now scope.now.epoch scope.now.sender.now.epoch stage }
    ensures of { IfOk result (λ stage'. IsOf scope.now.spec.now scope.now.epoch scope.now.sender.now.epoch stage') }
    ensures stage { IfOk result (λ stage'. shown stage' ≡ page_stage stage node page.now.from page.now.upto page.now.trim page.now.lng page.now.entries.now) }
    ensures sent { OnOk result (out.new ≡ out.old ++ sent scope.now.sender.now (page_sends scope.now.lost.now stage node page.now.from page.now.upto page.now.trim page.now.lng page.now.entries.now)) }
    ensures unsent { OnErr result (out.new ≡ out.old) }
{
    match stage {
        Stage::Seals(digest) => add_page(alloc, digest, scope, node, page, out),
        Stage::Stores(storing) => Ok(Stage::Stores(storing)),
        Stage::Closes(summary, short) => Ok(Stage::Closes(summary, short)),
        Stage::Stopped => Err(NoMemory),
    }
}

// A page of the node comes to a digest.
fn add_page(
    alloc: Global,
    digest: Digest,
    scope: &Scope,
    node: NodeId,
    page: &Page,
    out: &mut Outbox,
) -> Result<Stage, NoMemory>
    requires factor { 1 ≤ scope.now.spec.now.r }
    requires upto { page.now.upto < 2 ^ 64 - 1 }
    requires entries { AreInPlace page.now.entries.now }
    requires lng { page.now.lng < last_esn }
    requires of { (digest.spec ≡ scope.now.spec.now) × (digest.epoch ≡ scope.now.epoch) }
    ensures of { IfOk result (λ stage'. IsOf scope.now.spec.now scope.now.epoch scope.now.sender.now.epoch stage') }
    ensures stage { IfOk result (λ stage'. shown stage' ≡ page_stage (Seals digest) node page.now.from page.now.upto page.now.trim page.now.lng page.now.entries.now) }
    ensures sent { OnOk result (out.new ≡ out.old ++ sent scope.now.sender.now (page_sends scope.now.lost.now (Seals digest) node page.now.from page.now.upto page.now.trim page.now.lng page.now.entries.now)) }
    ensures unsent { OnErr result (out.new ≡ out.old) }
{
    let mut digest = digest;
    match digest.add(alloc, node, page)? {
        Added::Ignored => Ok(Stage::Seals(digest)),
        Added::Whole => gathered(alloc, digest, scope, out),
        Added::Ask(next) => asked_on(alloc, digest, scope, node, next, out),
    }
}

// A node is whole or lost: what has been told is planned, where it is enough.
fn gathered(
    alloc: Global,
    digest: Digest,
    scope: &Scope,
    out: &mut Outbox,
) -> Result<Stage, NoMemory>
    requires factor { 1 ≤ scope.now.spec.now.r }
    requires of { (digest.spec ≡ scope.now.spec.now) × (digest.epoch ≡ scope.now.epoch) }
    ensures of { IfOk result (λ stage'. IsOf scope.now.spec.now scope.now.epoch scope.now.sender.now.epoch stage') }
    ensures stage { IfOk result (λ stage'. shown stage' ≡ gathered digest) }
    ensures sent { OnOk result (out.new ≡ out.old ++ sent scope.now.sender.now (gathered_sends scope.now.lost.now digest [])) }
    ensures unsent { OnErr result (out.new ≡ out.old) }
{
    if digest.enough() {
        return store(alloc, digest, false, scope, out);
    }
    Ok(Stage::Seals(digest))
}

// A node is to be asked on: what has been told is planned, where it is enough, and else the node is asked, unless the digest is
// spent.
fn asked_on(
    alloc: Global,
    digest: Digest,
    scope: &Scope,
    node: NodeId,
    next: Lsn,
    out: &mut Outbox,
) -> Result<Stage, NoMemory>
    requires factor { 1 ≤ scope.now.spec.now.r }
    requires of { (digest.spec ≡ scope.now.spec.now) × (digest.epoch ≡ scope.now.epoch) }
    ensures of { IfOk result (λ stage'. IsOf scope.now.spec.now scope.now.epoch scope.now.sender.now.epoch stage') }
    ensures stage { IfOk result (λ stage'. shown stage' ≡ gathered digest) }
    ensures sent { OnOk result (out.new ≡ out.old ++ sent scope.now.sender.now (gathered_sends scope.now.lost.now digest ((node, DigestAsk next) ∷ []))) }
    ensures unsent { OnErr result (out.new ≡ out.old) }
{
    if digest.enough() {
        return store(alloc, digest, false, scope, out);
    }
    if digest.spent() {
        return Ok(Stage::Seals(digest));
    }
    scope.sender.ask(node, next, out)?;
    Ok(Stage::Seals(digest))
}

// The node said that it is lost. Without memory nothing is sent.
fn on_lost(
    alloc: Global,
    stage: Stage,
    scope: &Scope,
    node: NodeId,
    out: &mut Outbox,
) -> Result<Stage, NoMemory>
    requires factor { 1 ≤ scope.now.spec.now.r }
    requires of { IsOf scope.now.spec.now scope.now.epoch scope.now.sender.now.epoch stage }
    ensures of { IfOk result (λ stage'. IsOf scope.now.spec.now scope.now.epoch scope.now.sender.now.epoch stage') }
    ensures stage { IfOk result (λ stage'. shown stage' ≡ loss_stage scope.now.spec.now scope.now.epoch scope.now.sender.now.epoch scope.now.lost.now node stage) }
    ensures sent { OnOk result (out.new ≡ out.old ++ sent scope.now.sender.now (loss_sends scope.now.spec.now scope.now.epoch scope.now.lost.now node stage)) }
    ensures unsent { OnErr result (out.new ≡ out.old) }
{
    match stage {
        Stage::Seals(mut digest) => {
            digest.lost(node);
            gathered(alloc, digest, scope, out)
        }
        Stage::Stores(storing) => Ok(closed_if_ready(storing, scope.sender.epoch, scope.lost)),
        Stage::Closes(summary, short) => Ok(Stage::Closes(summary, short)),
        Stage::Stopped => Err(NoMemory),
    }
}

// What has been told is planned as what is lost. Without memory nothing is sent.
fn lossy(alloc: Global, stage: Stage, scope: &Scope, out: &mut Outbox) -> Result<Stage, NoMemory>
    requires factor { 1 ≤ scope.now.spec.now.r }
    requires of { IsOf scope.now.spec.now scope.now.epoch scope.now.sender.now.epoch stage }
    requires spent { is_spent_stage scope.now.spec.now (shown stage) ≡ true }
    ensures of { IfOk result (λ stage'. IsOf scope.now.spec.now scope.now.epoch scope.now.sender.now.epoch stage') }
    ensures stage { IfOk result (λ stage'. shown stage' ≡ lossy_stage (gathering_of scope.now.spec.now scope.now.epoch stage)) }
    ensures sent { OnOk result (out.new ≡ out.old ++ sent scope.now.sender.now (lossy_sends scope.now.lost.now (gathering_of scope.now.spec.now scope.now.epoch stage))) }
    ensures unsent { OnErr result (out.new ≡ out.old) }
{
    match stage {
        Stage::Seals(digest) => store(alloc, digest, true, scope, out),
        _ => Err(NoMemory),
    }
}

// What has been told is planned, and the plan is sent in its first wave.
fn store(
    alloc: Global,
    digest: Digest,
    loss: bool,
    scope: &Scope,
    out: &mut Outbox,
) -> Result<Stage, NoMemory>
    requires factor { 1 ≤ scope.now.spec.now.r }
    requires plan { lets_plan digest.spec loss digest.told ≡ true }
    requires of { (digest.spec ≡ scope.now.spec.now) × (digest.epoch ≡ scope.now.epoch) }
    ensures of { IfOk result (λ stage'. IsOf scope.now.spec.now scope.now.epoch scope.now.sender.now.epoch stage') }
    ensures stage { IfOk result (λ stage'. shown stage' ≡ Stored (storing_of (plan digest.epoch loss digest.told))) }
    ensures sent { OnOk result (out.new ≡ out.old ++ sent scope.now.sender.now (item_stores digest.spec scope.now.lost.now loss (plan digest.epoch loss digest.told).lng 0 (planned (plan digest.epoch loss digest.told).items))) }
    ensures unsent { OnErr result (out.new ≡ out.old) }
{
    let _ = digest.lng();
    let plan = plan(alloc, &digest, loss)?;
    let storing = Storing::new(alloc, scope.spec, plan)?;
    storing.send(alloc, scope.sender, scope.lost, out)?;
    Ok(Stage::Stores(storing))
}
