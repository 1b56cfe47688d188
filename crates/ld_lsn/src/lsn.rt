// A log sequence number.
ghost use Rattle.std.specs.Prelude.{◌≡◌, ◌≢◌, ◌+◌, ◌-◌, ◌≤◌, ◌<◌, ◌^◌, ℕ, length, take, min, max, IfSome, IfNone};
ghost use Rattle.ld_lsn.specs.Number.{epoch_of, esn_of, epoch_end, home_epoch, home_esn, numbered, lsn_text};

use crate::text::{after, number, put, split_at_byte};
use itoa::Buffer;
use std::marker::Model;

/// A log sequence number (LSN) of 64 bits: the epoch in the upper 32, the epoch sequence number
/// (ESN), which is the offset in the epoch, in the lower 32. Numbers are ordered as their 64 bits.
#[derive(Clone, Copy, Debug, PartialEq, Eq, PartialOrd, Ord)]
pub struct Lsn {
    number: u64,
}

impl Model for Lsn {
    ghost use Rattle.std.specs.Prelude.{ℕ, ◌<◌, ◌^◌};

    ghost Value = { ℕ };

    ghost view = { λ lsn. lsn.number };

    ghost invariant = { λ lsn. lsn.number < 2 ^ 64 };

    ghost inverse = { λ number. record { number = number } };
}

impl Lsn {
    /// The number at this offset (ESN) of the epoch.
    pub fn new(epoch: u32, esn: u32) -> Lsn
        ensures { result ≡ numbered epoch esn }
    {
        Lsn {
            number: u64::from(epoch) * 0x1_0000_0000 + u64::from(esn),
        }
    }

    /// The number of this value.
    pub fn from_u64(number: u64) -> Lsn
        ensures { result ≡ number }
    {
        Lsn { number }
    }

    /// The number as 64 bits.
    pub fn value(&self) -> u64
        ensures { result ≡ self.now }
    {
        self.number
    }

    /// The epoch.
    pub fn epoch(&self) -> u32
        ensures { result ≡ epoch_of self.now }
    {
        (self.number / 0x1_0000_0000) as u32
    }

    /// The offset in the epoch.
    pub fn esn(&self) -> u32
        ensures { result ≡ esn_of self.now }
    {
        (self.number % 0x1_0000_0000) as u32
    }

    /// The epoch that the number belongs to, and its offset there.
    ///
    /// The number with ESN 0 of an epoch from 1 on belongs to the epoch before it, at the offset
    /// 2^32, past all others. Each other number belongs to its own epoch, at its ESN.
    pub fn home(&self) -> (u32, u64)
        ensures epoch { result.0 ≡ home_epoch self.now }
        ensures esn { result.1 ≡ home_esn self.now }
    {
        let epoch = self.epoch();
        let esn = u64::from(self.esn());
        if esn == 0 && epoch > 0 {
            (epoch - 1, 0x1_0000_0000)
        } else {
            (epoch, esn)
        }
    }

    /// The number past all others of the epoch, (epoch + 1) * 2^32, which belongs to its bridge.
    pub fn epoch_end(epoch: u32) -> Lsn
        requires { epoch ≤ 2 ^ 32 - 2 }
        ensures { result ≡ epoch_end epoch }
    {
        Lsn::new(epoch + 1, 0)
    }

    /// The later of two numbers.
    pub fn later(self, other: Lsn) -> Lsn
        ensures { result ≡ max self other }
    {
        if self.number < other.number {
            other
        } else {
            self
        }
    }

    /// The earlier of two numbers.
    pub fn earlier(self, other: Lsn) -> Lsn
        ensures { result ≡ min self other }
    {
        if other.number < self.number {
            other
        } else {
            self
        }
    }

    /// The next number; None exactly at the greatest 64-bit number.
    pub fn next(&self) -> Option<Lsn>
        ensures some { IfSome result (λ next. next ≡ self.now + 1) }
        ensures none { IfNone result (self.now ≡ 2 ^ 64 - 1) }
    {
        match self.number.checked_add(1) {
            Some(number) => Some(Lsn { number }),
            None => None,
        }
    }

    /// Writes the text at the front of the buffer, and answers its length in bytes. The text is
    /// `eXnY`, X the epoch and Y the ESN, in decimal digits without leading zeros.
    pub fn write_text(&self, out: &mut [u8; 22]) -> usize
        ensures fits { result ≤ 22 }
        ensures text { take result out.new ≡ lsn_text self.now }
    {
        let mut epoch = Buffer::new();
        let mut esn = Buffer::new();
        let middle = put(out, 0, b"e");
        let middle = put(out, middle, epoch.format(self.epoch()).as_bytes());
        let middle = put(out, middle, b"n");
        put(out, middle, esn.format(self.esn()).as_bytes())
    }

    /// The number that a text spells, as [`Lsn::write_text`] writes it; None exactly where the text
    /// spells none.
    pub fn parse(text: &[u8]) -> Option<Lsn>
        ensures found { IfSome result (λ lsn. text.now ≡ lsn_text lsn) }
        ensures none { IfNone result ((v : ℕ) → v < 2 ^ 64 → text.now ≢ lsn_text v) }
    {
        let rest = after(text, b"e")?;
        let (epoch, esn) = split_at_byte(rest, b'n')?;
        Some(Lsn::new(number(epoch)?, number(esn)?))
    }
}
