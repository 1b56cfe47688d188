// The readers by name, in the order of their opening.
ghost use Rattle.std.specs.Prelude.{◌≡◌, ◌≤◌, ◌⊎◌, is_some, ℕ, List, [], ◌∷◌, ◌++◌, Some, None, IfOk, IfErr, OnOk, OnErr, IsErrOf, length, option_copied, option_map};
ghost use Rattle.ld_io.specs.Causes.{Rose};
ghost use Rattle.ld_table.specs.Named.{find_named, put_named};
ghost use Rattle.ld_msg.specs.Register.{Register as Contents, View};
ghost use Rattle.ld_node_bounds.specs.Messages.{AreMessages};
ghost use Rattle.ld_register.specs.Calls.{Keeps};
ghost use Rattle.ld_register.specs.declared.fault.RegisterFault.TheVariants as registers;
ghost use Rattle.ld_reader.specs.Faults.{IsOfLook};
ghost use Rattle.ld_reader.specs.Following.{Following, asked, replied};
ghost use Rattle.ld_reader.specs.Looks.{looks_of};
ghost use Rattle.ld_machine.specs.Calm.{readers_of as readers_for};
ghost use Rattle.ld_machine.specs.State.{reader_of};
ghost use Rattle.ld_clients.specs.Finished.{finished_in};
ghost use Rattle.ld_clients.specs.Followers.{reader_in, readers_of};
ghost use Rattle.ld_clients.specs.Reads.{HasRead};

use indexmap::IndexMap;
use ld_ids::{LogId, Name, NoMemory};
use ld_msg::{Msg, Outbox, Style};
use ld_reader::{Items, Reader, ReaderFault};
use ld_register::Register;
use std::alloc::Global;
use std::marker::Model;

/// Readers by name. The number of a reader is its offset.
#[derive(Drop)]
pub struct Readers {
    map: IndexMap<Name, Reader>,
}

impl Model for Readers {
    ghost use Rattle.std.specs.Prelude.{List, ℕ};
    ghost use Rattle.ld_reader.specs.Following.{Following};
    ghost use Rattle.ld_clients.specs.Followers.{AreNumbered};

    ghost Value = { List (List ℕ × Following) };

    ghost view = { λ a. a.map.entries };

    ghost invariant = { λ a. AreNumbered a.map.entries };
}

impl Readers {
    /// None.
    pub fn new(alloc: Global) -> Readers
        ensures { result ≡ [] }
    {
        Readers {
            map: IndexMap::new(alloc),
        }
    }

    /// How many there are.
    pub fn len(&self) -> usize
        ensures { result ≡ length self.now }
    {
        self.map.len()
    }

    /// Whether the name is taken.
    #[tactic(auto, unfolding(ld_table::specs::Named::find_named, ld_table::specs::Named::same))]
    pub fn has(&self, name: &Name) -> bool
        ensures { result ≡ is_some (find_named name.now self.now) }
    {
        self.map.contains_key(name)
    }

    /// Whether the reader of the name is there and past its last number.
    #[tactic(auto, unfolding(ld_table::specs::Named::find_named, ld_table::specs::Named::same))]
    pub fn is_finished(&self, name: &Name) -> bool
        ensures { result ≡ finished_in (find_named name.now self.now) }
    {
        match self.map.get(name) {
            Some(reader) => reader.finished(),
            None => false,
        }
    }

    /// The next number of the reader of the name, and the one behind its last where it is finished. None where it isn't there.
    #[tactic(auto, unfolding(ld_table::specs::Named::find_named, ld_table::specs::Named::same))]
    pub fn next_of(&self, name: &Name) -> Option<u128>
        ensures { result ≡ option_map (λ f. f.reader.next) (find_named name.now self.now) }
    {
        match self.map.get(name) {
            Some(reader) => Some(reader.next_number()),
            None => None,
        }
    }

    /// The names of the log's readers, in the order of their opening.
    pub fn names(&self, alloc: Global, log: LogId) -> Result<Vec<Name>, NoMemory>
        ensures { IfOk result (λ names. names.items ≡ readers_for log (readers_of self.now)) }
    {
        let mut names = Vec::new(alloc);
        'readers: for place in 0..self.map.len() {
            let Some((name, reader)) = self.map.get_index(place) else {
                return Ok(names);
            };
            add_name(alloc, name, reader, log, &mut names)?;
        }
        Ok(names)
    }

    /// How the reader of the name reads.
    #[tactic(auto, unfolding(ld_table::specs::Named::find_named, ld_table::specs::Named::same))]
    pub(crate) fn style_of(&self, name: &Name) -> Style
        ensures { (f : Following) → find_named name.now self.now ≡ Some f → result ≡ f.reader.style }
    {
        match self.map.get(name) {
            Some(reader) => reader.style(),
            None => Style::EachCopy,
        }
    }

    /// The name of the reader of a number, its place in the order of opening.
    pub fn name_of(&self, number: u32) -> Option<&Name>
        ensures actor { option_copied result ≡ option_map (λ e. e.0) (reader_of number (readers_of self.now)) }
        ensures name { option_copied result ≡ option_map (λ e. e.0) (reader_in number self.now) }
        ensures unique { (e : List ℕ × Following) → reader_in number self.now ≡ Some e → find_named e.0 self.now ≡ Some e.1 }
    {
        let Some((name, _)) = self.map.get_index(number as usize) else {
            return None;
        };
        Some(name)
    }

    /// A new reader under a new name. Its number is how many there were.
    #[tactic(auto, unfolding(ld_table::specs::Named::put_named, ld_table::specs::Named::same))]
    pub(crate) fn add(&mut self, name: Name, reader: Reader) -> Result<(), NoMemory>
        requires number { reader.reader.number ≡ length self.old }
        requires new { find_named name self.old ≡ None }
        ensures ok { OnOk result (self.new ≡ put_named name reader self.old) }
        ensures err { OnErr result (self.new ≡ self.old) }
    {
        self.map.insert(name, reader)?;
        Ok(())
    }

    /// The reader of the name begins a round. One that isn't there does nothing. Where it fails all readers are as they were.
    pub(crate) fn ask<G: Register>(
        &mut self,
        alloc: Global,
        name: &Name,
        reg: &mut G,
        sends: &mut Outbox,
    ) -> Result<(), ReaderFault>
        ensures exact { (f : Following) → find_named name.now self.old ≡ Some f → (c : Contents) → G.tells reg.old c
            → OnOk result (HasRead name.now f self.old self.new [] sends.old sends.new (asked (looks_of f c) f.reader) × G.tells reg.new c) }
        ensures acted { (f : Following) → find_named name.now self.old ≡ Some f
            → OnOk result ((looks : ℕ → View) × HasRead name.now f self.old self.new [] sends.old sends.new (asked looks f.reader)) }
        ensures none { find_named name.now self.old ≡ None → (self.new ≡ self.old) × (sends.new ≡ sends.old) × ((c : Contents) → G.tells reg.old c → G.tells reg.new c) }
        ensures foretold { (c : Contents) → G.tells reg.old c → IfErr result (λ fault. fault ≡ ReaderFault.NoMemory) }
        ensures err { OnErr result (self.new ≡ self.old) }
        ensures told { G.told reg.old → G.told reg.new }
        ensures same { (c : Contents) → G.may_hold reg.new c → G.may_hold reg.old c }
        ensures survives { (cs : List Contents) → G.told reg.old → G.leaves reg.old cs → G.leaves reg.new cs }
        ensures keeps { IsErrOf result (ReaderFault.Register registers.Failed) ⊎ Keeps (G.holds reg.old) (G.holds reg.new) (G.may_hold reg.old) (G.may_hold reg.new) }
        ensures failed { IsErrOf result (ReaderFault.Register registers.Failed) → Rose (G.faults reg.old) (G.faults reg.new) }
        ensures steady { IsErrOf result (ReaderFault.Register registers.Failed) ⊎ (G.faults reg.new ≡ G.faults reg.old) }
        ensures damaged { (place : ℕ) → IsErrOf result (ReaderFault.Register (registers.Damaged place)) → G.told reg.old → G.damaged reg.old place }
        ensures refused { IfErr result IsOfLook }
        ensures counts { G.faults reg.old ≤ G.faults reg.new }
        ensures itself { G.identity reg.new ≡ G.identity reg.old }
        ensures messages { AreMessages sends.old → AreMessages sends.new }
    {
        let Some(reader) = self.map.get_mut(name) else {
            return Ok(());
        };
        reader.ask(alloc, reg, sends)
    }

    /// The reader of the name gets an answer of a node. Where it fails all readers are as they were.
    pub(crate) fn hear<G: Register>(
        &mut self,
        alloc: Global,
        name: &Name,
        msg: &Msg,
        reg: &mut G,
        sends: &mut Outbox,
    ) -> Result<Items, ReaderFault>
        ensures exact { (f : Following) → find_named name.now self.old ≡ Some f → (c : Contents) → G.tells reg.old c
            → IfOk result (λ items. HasRead name.now f self.old self.new items sends.old sends.new (replied (looks_of f c) f msg.now) × G.tells reg.new c) }
        ensures acted { (f : Following) → find_named name.now self.old ≡ Some f
            → IfOk result (λ items. (looks : ℕ → View) × HasRead name.now f self.old self.new items sends.old sends.new (replied looks f msg.now)) }
        ensures foretold { (c : Contents) → G.tells reg.old c → IfErr result (λ fault. fault ≡ ReaderFault.NoMemory) }
        ensures err { OnErr result (self.new ≡ self.old) }
        ensures told { G.told reg.old → G.told reg.new }
        ensures same { (c : Contents) → G.may_hold reg.new c → G.may_hold reg.old c }
        ensures survives { (cs : List Contents) → G.told reg.old → G.leaves reg.old cs → G.leaves reg.new cs }
        ensures keeps { IsErrOf result (ReaderFault.Register registers.Failed) ⊎ Keeps (G.holds reg.old) (G.holds reg.new) (G.may_hold reg.old) (G.may_hold reg.new) }
        ensures failed { IsErrOf result (ReaderFault.Register registers.Failed) → Rose (G.faults reg.old) (G.faults reg.new) }
        ensures steady { IsErrOf result (ReaderFault.Register registers.Failed) ⊎ (G.faults reg.new ≡ G.faults reg.old) }
        ensures damaged { (place : ℕ) → IsErrOf result (ReaderFault.Register (registers.Damaged place)) → G.told reg.old → G.damaged reg.old place }
        ensures refused { IfErr result IsOfLook }
        ensures counts { G.faults reg.old ≤ G.faults reg.new }
        ensures itself { G.identity reg.new ≡ G.identity reg.old }
        ensures messages { AreMessages sends.old → AreMessages sends.new }
    {
        let Some(reader) = self.map.get_mut(name) else {
            return Ok(Items::empty(alloc));
        };
        reader.on_reply(alloc, msg, reg, sends)
    }
}

/// Adds a reader's name, where it reads the log.
#[tactic(auto, using(crate::proofs::Opened::name_rules))]
fn add_name(
    alloc: Global,
    name: &Name,
    reader: &Reader,
    log: LogId,
    names: &mut Vec<Name>,
) -> Result<(), NoMemory>
    ensures { OnOk result (names.new.items ≡ names.old.items ++ readers_for log ((name.now, reader.now.reader) ∷ [])) }
{
    if reader.log() == log {
        let copy = name.copy(alloc)?;
        names.push(copy)?;
    }
    Ok(())
}
