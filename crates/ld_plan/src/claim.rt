// What an entry claims.
ghost use Rattle.std.specs.Prelude.{◌≡◌};
ghost use Rattle.ld_msg.specs.Digest.{is_bridge};

use ld_lsn::Lsn;
use ld_msg::{Entry, What};
use std::marker::Model;

/// What an entry of a node claims. It is seen as the entry.
#[derive(Drop)]
pub struct Claim<'a> {
    entry: &'a Entry,
}

impl<'a> Model for Claim<'a> {
    ghost use Rattle.ld_msg.specs.declared.msg.Entry.{Entry};

    ghost Value = { Entry };

    ghost view = { λ claim. claim.entry.now };
}

impl<'a> Claim<'a> {
    /// The claim of this entry.
    pub fn of(entry: &'a Entry) -> Claim<'a>
        ensures { result ≡ entry.now }
    {
        Claim { entry }
    }

    /// The ballot.
    pub fn ballot(&self) -> u32
        ensures { result ≡ self.now.ballot }
    {
        self.entry.ballot
    }

    /// The number.
    pub fn number(&self) -> Lsn
        ensures { result ≡ self.now.number }
    {
        self.entry.number
    }

    /// What it says of its number.
    pub fn what(&self) -> &What
        ensures { result.now ≡ self.now.what }
    {
        &self.entry.what
    }

    /// Whether it is a bridge, which speaks of all numbers above its own too.
    pub fn is_bridge(&self) -> bool
        ensures { result ≡ is_bridge self.now.what }
    {
        self.entry.what.is_bridge()
    }
}
