// The window.
ghost use Rattle.std.specs.Prelude.{◌≡◌, ◌≤◌, ◌<◌, ◌+◌, ◌-◌, ◌++◌, ◌∷◌, [], ℕ, length, set, get_or, replicate, true, false, IfOk, OnOk, OnErr, nat_le};
ghost use Rattle.std.specs.VecDeque.{deque_len, deque_capacity};
ghost use Rattle.ld_window.specs.Flags as window;
ghost use Rattle.ld_window.specs.Flags.{leading, above};

use ld_ids::NoMemory;
use std::alloc::Global;
use std::collections::VecDeque;
use std::marker::Model;
use thiserror::Error;

/// How many numbers may stand above the last one such that it and all below are stored.
const LIMIT: u32 = 128;

/// As many numbers as may stand above the last one such that it and all below are stored.
#[derive(Clone, Copy, Debug, PartialEq, Eq, Error)]
#[error("the window is full")]
pub struct Full;

/// The numbers of an epoch that were pushed, 1 and up, and which of them are stored. It is seen as a flag for each
/// number, the first one for number 1.
#[derive(Drop)]
pub struct Window {
    lng: u32,
    marks: VecDeque<bool>,
}

impl Model for Window {
    ghost use Rattle.std.specs.Prelude.{List, Bool, true, ◌≡◌, ◌≤◌, ◌<◌, ◌+◌, ◌^◌, ◌++◌, length, replicate};
    ghost use Rattle.std.specs.VecDeque.{deque_len, deque_capacity};
    ghost use Rattle.ld_window.specs.Flags.{leading};

    ghost Value = { List Bool };

    ghost view = { λ w. replicate w.lng true ++ w.marks.items };

    ghost invariant = { λ w. record {
      shut : leading w.marks.items ≡ 0;
      room : 128 ≤ deque_capacity w.marks;
      bound : length w.marks.items ≤ 128;
      small : w.lng + length w.marks.items < 2 ^ 32;
    } };
}

impl Window {
    /// An empty window, with room for all that it may ever hold. The limit is 128.
    pub fn with(alloc: Global, limit: u32) -> Result<Window, NoMemory>
        requires { limit ≡ window.limit }
        ensures { IfOk result (λ made. made ≡ []) }
    {
        let marks = VecDeque::with_capacity(alloc, limit as usize)?;
        Ok(Window { lng: 0, marks })
    }

    /// Takes the next number, which isn't stored yet: it is one above the last one pushed, at first 1. It is refused
    /// exactly where 128 numbers stand above the last one such that it and all below are stored; then nothing
    /// changes.
    pub fn push(&mut self, esn: u32) -> Result<(), Full>
        requires { esn ≡ length self.old + 1 }
        ensures ok { OnOk result (self.new ≡ self.old ++ false ∷ []) }
        ensures err { OnErr result (self.new ≡ self.old) }
        ensures room { OnOk result (above self.old < window.limit) }
        ensures full { OnErr result (window.limit ≤ above self.old) }
    {
        if esn - self.lng > LIMIT {
            return Err(Full);
        }
        self.marks.push_back_reserved(false);
        Ok(())
    }

    /// Whether `push` would be refused.
    pub fn is_full(&self) -> bool
        ensures { result ≡ nat_le window.limit (above self.now) }
    {
        self.marks.len() >= LIMIT as usize
    }

    /// The number, which was pushed, is stored.
    pub fn stored(&mut self, esn: u32)
        requires pushed { esn ≤ length self.old }
        requires number { 1 ≤ esn }
        ensures { self.new ≡ set self.old (esn - 1) true }
    {
        if esn > self.lng {
            mark(&mut self.marks, (esn - self.lng) as usize - 1);
            self.lng += take_stored(&mut self.marks);
        }
    }

    /// The greatest number such that it and all below are stored, 0 where number 1 isn't.
    pub fn lng(&self) -> u32
        ensures value { result ≡ leading self.now }
        ensures all_below { (i : ℕ) → i < result → get_or self.now i false ≡ true }
        ensures greatest { get_or self.now result false ≡ false }
    {
        self.lng
    }
}

/// Sets a mark.
fn mark(marks: &mut VecDeque<bool>, at: usize)
    requires { at < deque_len marks.old }
    ensures items { marks.new.items ≡ set marks.old.items at true }
    ensures capacity { deque_capacity marks.new ≡ deque_capacity marks.old }
{
    marks[at] = true;
}

/// Takes the marks off the front that are set, and says how many these are.
fn take_stored(marks: &mut VecDeque<bool>) -> u32
    requires { deque_len marks.old ≤ 128 }
    ensures taken { marks.old.items ≡ replicate result true ++ marks.new.items }
    ensures shut { leading marks.new.items ≡ 0 }
    ensures capacity { deque_capacity marks.new ≡ deque_capacity marks.old }
{
    let mut count = 0;
    'marks: while marks.front().copied() == Some(true) {
        marks.pop_front();
        count += 1;
    }
    count
}
