// What claims decide.
ghost use Rattle.std.specs.Prelude.{◌≡◌, OnOk, OnErr, option_copied, Option};
ghost use Rattle.ld_table.specs.Table.{find, put};
ghost use Rattle.ld_plan.specs.Claims.{nothing_decided, is_bridged, is_decided, claimed};

use crate::Claim;
use ld_ids::NoMemory;
use ld_lsn::Lsn;
use std::alloc::Global;
use std::collections::BTreeMap;
use std::marker::Model;

/// What the claims so far decide, the greatest ballot first: the entry of each number, a bridge
/// above which nothing else counts, and the greatest offset of a record, a hole or a plug.
#[derive(Drop)]
pub struct Decided<'a> {
    entries: BTreeMap<Lsn, Claim<'a>>,
    bridge: Option<Lsn>,
    top: u32,
}

impl<'a> Model for Decided<'a> {
    ghost use Rattle.ld_plan.specs.Claims.{Decided};

    ghost Value = { Decided };

    ghost view = { λ a. record { entries = a.entries.entries; bridge = a.bridge; top = a.top } };
}

impl<'a> Decided<'a> {
    /// Nothing is decided.
    pub fn nothing(alloc: Global) -> Decided<'a>
        ensures { result ≡ nothing_decided }
    {
        Decided {
            entries: BTreeMap::new(alloc),
            bridge: None,
            top: 0,
        }
    }

    /// The claim that decides the number, where it is of that very number.
    #[tactic(auto, unfolding(ld_table::specs::Table::find))]
    pub fn entry(&self, number: Lsn) -> Option<&Claim<'a>>
        ensures { option_copied result ≡ find number self.now.entries }
    {
        self.entries.get(&number)
    }

    /// The greatest offset of a record, a hole or a plug, 0 where there is none.
    pub fn top(&self) -> u32
        ensures { result ≡ self.now.top }
    {
        self.top
    }

    // Whether the number stands above the bridge.
    fn is_bridged(&self, number: Lsn) -> bool
        ensures { result ≡ is_bridged number self.now.bridge }
    {
        match self.bridge {
            Some(bridge) => bridge < number,
            None => false,
        }
    }

    // Whether the number is decided.
    fn has(&self, number: Lsn) -> bool
        ensures { result ≡ is_decided number self.now }
    {
        self.is_bridged(number) || self.entry(number).is_some()
    }

    /// Takes a claim. It counts for its number where that isn't decided; a bridge counts above its
    /// number too. Without memory nothing changes.
    #[tactic(auto, unfolding(ld_table::specs::Table::put))]
    pub fn claim(&mut self, claim: Claim<'a>) -> Result<(), NoMemory>
        ensures ok { OnOk result (self.new ≡ claimed claim.entry self.old) }
        ensures err { OnErr result (self.new ≡ self.old) }
    {
        let number = claim.number();
        let is_bridge = claim.is_bridge();
        let is_bridged = self.is_bridged(number);
        if !self.has(number) {
            self.entries.insert(number, claim)?;
            if !is_bridge {
                self.top = self.top.max(number.esn());
            }
        }
        if is_bridge && !is_bridged {
            self.bridge = Some(number);
        }
        Ok(())
    }
}
