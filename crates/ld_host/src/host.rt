// The machine of one node.
ghost use Rattle.std.specs.Prelude.{◌≡◌, false};
ghost use Rattle.ld_host.specs.States.{blank_in};

use crate::fault::fault;
use crate::format::format;
use crate::kept::{Formatted, Kept, Status};
use crate::replace::replace;
use crate::run::{answer, load};
use crate::state::{State, put};
use crate::tick::look;
use ld_config::Config;
use ld_disk::MemDisk;
use ld_ids::{LogId, NoMemory, NodeId};
use ld_msg::{Msg, Outbox};
use ld_node::Ticked;
use ld_register::{Register, RegisterFault};
use ld_schedule::Picture;
use std::alloc::Global;
use std::mem;

/// The machine of one node: its disk, and the node that runs on it where one runs. What it writes is of the second
/// version of journals from the first byte on, so that no load has to mark it. After a call that had no memory it is of no
/// use.
#[derive(Drop)]
pub struct Host {
    id: NodeId,
    state: State,
    ghost formatted: { blank_in state ≡ false },
}

impl Host {
    ghost use Rattle.std.specs.Prelude.{◌≤◌, ◌≢◌, ℕ, true, [], IfOk};
    ghost use Rattle.ld_msg.specs.Bounds.{IsMessage};
    ghost use Rattle.ld_msg.specs.declared.msg.Who.TheVariants as whos;
    ghost use Rattle.ld_config.specs.declared.config.Config.{Config as Settings};
    ghost use Rattle.ld_machine.specs.Config.{has_log};
    ghost use Rattle.ld_machine.specs.Disk.{Node, Blank, Up, new_node, load, load_end};
    ghost use Rattle.ld_machine.specs.Step.{with_fault, stopped};
    ghost use Rattle.ld_host.specs.Stands.{Stands, shown_status};
    ghost use Rattle.ld_msg.specs.Register.{Register as Contents};
    ghost use Rattle.ld_node_bounds.specs.Messages.{AreMessages};
    ghost use Rattle.ld_node.specs.Looks.{AreClosed};
    ghost use Rattle.ld_host.specs.Done.{shown_kept, message_done, HasFormatted, tick_done, tick_answer, replaced, after_replace};

    /// A new disk, on which no node runs.
    pub fn new(alloc: Global, id: NodeId) -> Result<Host, NoMemory>
        ensures stands { (c : Settings) → IfOk result (λ host. Stands c id host new_node) }
    {
        match MemDisk::new(alloc) {
            Ok(disk) => Ok(Host {
                id,
                state: State::Blank(disk),
            }),
            Err(_) => Err(NoMemory),
        }
    }

    /// How it is.
    pub fn status(&self) -> Status
        ensures { (c : Settings) (n : ℕ) (x : Node) → Stands c n self.now x → shown_status result ≡ x.status }
    {
        match &self.state {
            State::Blank(_) => Status::Blank,
            State::Up(_) => Status::Up,
            State::Down(_) => Status::Down,
            State::Failed(_) => Status::Failed,
            State::Gone => Status::Failed,
        }
    }

    /// Puts a new disk in, on which no node runs.
    #[tactic(auto, using(crate::proofs::Stopping::new_blank))]
    pub fn wipe(&mut self)
        ensures { (c : Settings) (n : ℕ) (x : Node) → Stands c n self.old x → Stands c n self.new new_node }
    {
        let state = mem::replace(&mut self.state, State::Gone);
        if let Some(mut disk) = state.into_disk() {
            disk.wipe();
            put(&mut self.state, State::Blank(disk));
        }
    }

    /// Stops the node. What it keeps in memory alone is lost.
    pub fn stop(&mut self)
        ensures { (c : Settings) (n : ℕ) (x : Node) → Stands c n self.old x → Stands c n self.new (stopped x) }
    {
        let state = mem::replace(&mut self.state, State::Gone);
        if let Some(disk) = state.into_disk() {
            put(&mut self.state, State::Down(disk));
        }
    }

    /// The writing call of this count from now on fails, or the node crashes in it with a picture: 1 is the next call.
    /// This replaces what was armed before.
    pub fn arm(&mut self, left: u64, crash: Option<Picture>)
        requires { 1 ≤ left }
        ensures { (c : Settings) (n : ℕ) (x : Node) → Stands c n self.old x → Stands c n self.new (with_fault x (record { left = left; crash = crash })) }
    {
        let state = mem::replace(&mut self.state, State::Gone);
        put(&mut self.state, state.armed(fault(left, crash)));
    }

    /// Loads the node from its disk, in one writing call, with the nodes and the logs of the configuration.
    pub fn load(&mut self, alloc: Global, config: &Config) -> Result<Kept, NoMemory>
        ensures { (n : ℕ) (x : Node) → Stands config.now n self.old x → IfOk result (λ kept. Stands config.now n self.new (load x) × (shown_kept kept ≡ load_end x)) }
    {
        let state = mem::replace(&mut self.state, State::Gone);
        let Some(disk) = state.into_disk() else {
            return Err(NoMemory);
        };
        let (state, kept) = load(alloc, self.id, disk, config)?;
        put(&mut self.state, state);
        Ok(kept)
    }

    /// What the node makes of a message, where it is up: the op that it keeps, and then what it answers. Where it isn't
    /// up, nothing happens. A frame can carry each answer.
    pub fn on_msg(&mut self, alloc: Global, msg: &Msg) -> Result<(Kept, Outbox), NoMemory>
        requires { IsMessage msg.now }
        ensures messages { IfOk result (λ done. AreMessages done.1) }
        ensures idle { (c : Settings) (n : ℕ) (x : Node) → Stands c n self.old x → x.status ≢ Up → IfOk result (λ done. Stands c n self.new x × (done.0 ≡ Kept.Written) × (done.1 ≡ [])) }
        ensures up { (c : Settings) (n : ℕ) (x : Node) → Stands c n self.old x → x.status ≡ Up → msg.now.to ≡ whos.Node n → has_log c msg.now.log ≡ true
            → IfOk result (λ done. Stands c n self.new (message_done n x msg.now).node × (shown_kept done.0 ≡ (message_done n x msg.now).end) × (done.1 ≡ (message_done n x msg.now).sends)) }
    {
        let state = mem::replace(&mut self.state, State::Gone);
        let State::Up(node) = state else {
            put(&mut self.state, state);
            return Ok((Kept::Written, Outbox::empty(alloc)));
        };
        let (state, kept, sends) = answer(alloc, node, msg)?;
        put(&mut self.state, state);
        Ok((kept, sends))
    }

    /// Formats the store of a blank host: it is loaded, a generation is drawn for its node, and the format is kept.
    /// Where it isn't blank, nothing happens.
    pub fn format<G: Register>(
        &mut self,
        alloc: Global,
        config: &Config,
        reg: &mut G,
    ) -> Result<Formatted, NoMemory>
        ensures idle { (c : Settings) (n : ℕ) (x : Node) → Stands c n self.old x → x.status ≢ Blank → IfOk result (λ formatted. Stands c n self.new x × (reg.new ≡ reg.old) × (formatted ≡ Formatted.NotLoaded Kept.Written)) }
        ensures blank { (n : ℕ) (x : Node) (r : Contents) → Stands config.now n self.old x → x.status ≡ Blank → G.tells reg.old r
            → IfOk result (λ formatted. HasFormatted (λ y. Stands config.now n self.new y) (G.tells reg.new) x n r formatted) }
    {
        let state = mem::replace(&mut self.state, State::Gone);
        let State::Blank(disk) = state else {
            put(&mut self.state, state);
            return Ok(Formatted::NotLoaded(Kept::Written));
        };
        let (state, formatted) = format(alloc, self.id, disk, config, reg)?;
        put(&mut self.state, state);
        Ok(formatted)
    }

    /// The node looks at the register for a log, where it is up, and does what that makes it do. Where it isn't up,
    /// nothing happens.
    pub fn tick<G: Register>(
        &mut self,
        alloc: Global,
        log: LogId,
        reg: &mut G,
    ) -> Result<(Kept, Ticked), NoMemory>
        ensures idle { (c : Settings) (n : ℕ) (x : Node) → Stands c n self.old x → x.status ≢ Up → IfOk result (λ done. Stands c n self.new x × (reg.new ≡ reg.old) × (done.0 ≡ Kept.Written) × (done.1 ≡ Ticked.Nothing)) }
        ensures up { (c : Settings) (n : ℕ) (x : Node) (r : Contents) → Stands c n self.old x → x.status ≡ Up → has_log c log ≡ true → AreClosed r log → G.tells reg.old r
            → IfOk result (λ done. Stands c n self.new (tick_done c n x log r).node × G.tells reg.new r × (shown_kept done.0 ≡ (tick_done c n x log r).end) × (done.1 ≡ tick_answer c n x log r)) }
    {
        let state = mem::replace(&mut self.state, State::Gone);
        let State::Up(node) = state else {
            put(&mut self.state, state);
            return Ok((Kept::Written, Ticked::Nothing));
        };
        let (state, kept, ticked) = look(alloc, node, log, reg)?;
        put(&mut self.state, state);
        Ok((kept, ticked))
    }

    /// The node takes another one's place in the closed epochs of a log, where it is up and may, and says in how many. The
    /// inner error is why the register refused. Where it isn't up or may not, they are none, and the register isn't asked.
    pub fn replace<G: Register>(
        &self,
        alloc: Global,
        log: LogId,
        other: NodeId,
        reg: &mut G,
    ) -> Result<Result<u32, RegisterFault>, NoMemory>
        ensures { (c : Settings) (n : ℕ) (x : Node) (r : Contents) → Stands c n self.now x → G.tells reg.old r
            → IfOk result (λ done. (done ≡ replaced c n x other log r) × G.tells reg.new (after_replace c n x other log r)) }
    {
        let State::Up(node) = &self.state else {
            return Ok(Ok(0));
        };
        let done = replace(alloc, node, log, other, reg)?;
        Ok(done)
    }
}
