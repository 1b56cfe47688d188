// A register as its users see it.
ghost use Rattle.std.specs.Prelude.{◌≡◌, ◌≢◌, ◌⊎◌, ◌≤◌, ◌-◌, ◌^◌, ◌∷◌, [], ℕ, true, List, Option, IfOk, IfSome, OnErr, IsErrOf, Ok, Err};
ghost use Rattle.ld_io.specs.Causes.{Rose};
ghost use Rattle.ld_ids.specs.declared.set.Spec.{Spec as Fixed};
ghost use Rattle.ld_msg.specs.Bounds.{IsSummary};
ghost use Rattle.ld_msg.specs.Register.{Register as Contents};
ghost use Rattle.ld_op.specs.Bounds.{IsOp};
ghost use Rattle.ld_op.specs.declared.op.Op.TheVariants.{Format};
ghost use Rattle.ld_register.specs.Bounds.{IsSpec, IsSpecFor};
ghost use Rattle.ld_register.specs.Calls.{activated, after_activate, closed, after_close, drawn, after_draw, swapped, after_swap, looked, IsGrant, IsView, IsFree, ChangedOrNot, Keeps, OneOf, with_and_without, unarmed};

use crate::RegisterFault;
use ld_ids::{LogId, NodeId, Spec};
use ld_msg::Summary;
use ld_op::Epochs;
use std::alloc::Global;

/// An epoch that was handed out, the last closed one, and what is fixed for the epoch behind that one, as a look at it
/// shows.
#[derive(Clone, Copy, PartialEq, Eq)]
pub struct Grant {
    pub epoch: u32,
    pub lce: u32,
    pub next: Option<Spec>,
}

/// A generation that was handed out, and the epoch of each log that has one.
#[derive(Drop)]
pub struct Drawn {
    pub gen_: u32,
    pub epochs: Epochs,
}

/// A log's epoch, its last closed one, how many swaps of the log there were, the summary of the epoch that was asked for,
/// where it is closed, and what is fixed for that epoch, as swaps left it; where it isn't handed out, what is fixed for the
/// greatest one.
#[derive(Clone, Copy)]
pub struct View {
    pub epoch: u32,
    pub lce: u32,
    pub swaps: u32,
    pub summary: Option<Summary>,
    pub spec: Option<Spec>,
}

/// A register: per log the greatest epoch handed out, what is fixed for each epoch, the last closed one, the summaries of
/// the closed ones, and how many swaps there were, which put one node in the place of another one; per node the greatest
/// generation handed out. Its changes are the records of a journal.
///
/// A call that answers `Failed` has made its change or not. It comes only where the register's own count of faults
/// rose in the call. Any other refusal has changed nothing, and any other answer leaves the count.
pub trait Register {
    /// It tells what it holds.
    ghost told: { Self → Type 0 };

    /// It holds these contents, its journal has this length, and no fault is armed in them.
    ghost holds: { Self → Contents → Type 0 };

    /// A crash at this moment may leave these.
    ghost may_hold: { Self → Contents → Type 0 };

    /// A crash at this moment leaves one of these, and nothing else.
    ghost leaves: { Self → List Contents → Type 0 };

    /// Each call will answer and change just what it does of these contents with their armed fault, running out of memory
    /// aside.
    ghost tells: { Self → Contents → Type 0 };

    /// From this offset on its bytes are no journal of its changes.
    ghost damaged: { Self → ℕ → Type 0 };

    /// How often a call has failed, up to the greatest 64-bit number.
    ghost faults: { Self → ℕ };

    /// Which register it is: no call changes that.
    ghost identity: { Self → ℕ };

    /// Hands out the log's next epoch, from 1 on, with these nodes, factor and extras fixed for it, and says which epoch
    /// is the last closed one and what is fixed for the one behind it: for the greatest epoch where that one isn't handed
    /// out, and nothing where none was fixed.
    ///
    /// It refuses with `LogLimit` exactly where 64 other logs are held, then with `EpochLimit` exactly where the
    /// log's epoch is 2^32-2, then with `Full` exactly where its journal would be longer than 2^40 bytes; with
    /// `Damaged` where the bytes are no journal of changes; and with `Failed` and `NoMemory` at any point.
    fn activate(&mut self, alloc: Global, spec: &Spec) -> Result<Grant, RegisterFault>
        requires { IsSpec spec.now }
        ensures answers { (c : Contents) → holds self.old c → IsFree result ⊎ ((result ≡ activated c spec.now) × holds self.new (after_activate c spec.now)) }
        ensures told { told self.old → told self.new }
        ensures whole { told self.old → IsFree result ⊎ ((c : Contents) × holds self.old c) }
        ensures settled { told self.old → IsFree result ⊎ ((c : Contents) → may_hold self.new c → holds self.new c) }
        ensures sure { told self.old → IsFree result ⊎ ((c : Contents) × holds self.new c × leaves self.new (c ∷ [])) }
        ensures done_or_not { told self.old → ChangedOrNot (may_hold self.old) (may_hold self.new) (λ c. after_activate c spec.now) }
        ensures survives { (cs : List Contents) → told self.old → leaves self.old cs → leaves self.new (with_and_without (λ c. after_activate c spec.now) cs) }
        ensures keeps { IsErrOf result RegisterFault.Failed ⊎ OnErr result (Keeps (holds self.old) (holds self.new) (may_hold self.old) (may_hold self.new)) }
        ensures exact { (c : Contents) → tells self.old c
            → (IsErrOf result RegisterFault.NoMemory × tells self.new c) ⊎ ((result ≡ activated c spec.now) × tells self.new (after_activate c spec.now)) }
        ensures bounds { IfOk result (IsGrant spec.now.log) }
        ensures failed { IsErrOf result RegisterFault.Failed → Rose (faults self.old) (faults self.new) }
        ensures damaged { (place : ℕ) → IsErrOf result (RegisterFault.Damaged place) → told self.old → damaged self.old place }
        ensures behind { (lce : ℕ) (next : Option Fixed) → result ≢ Err (RegisterFault.Behind lce next) }
        ensures overtaken { (kept : ℕ) → result ≢ Err (RegisterFault.Overtaken kept) }
        ensures generations { result ≢ Err RegisterFault.GenLimit }
        ensures swaps { result ≢ Err RegisterFault.SwapLimit }
        ensures steady { IsErrOf result RegisterFault.Failed ⊎ (faults self.new ≡ faults self.old) }
        ensures itself { identity self.new ≡ identity self.old }
        ensures counts { faults self.old ≤ faults self.new };

    /// Closes the log's epoch with a summary of it. It is taken exactly where the epoch before is the last closed
    /// one and, of a short close, the greatest epoch is the summary's ballot. It tells what is fixed for the epoch
    /// behind: for the greatest one where that isn't handed out, and nothing where none was fixed.
    ///
    /// It refuses with `LogLimit` exactly where 64 other logs are held, then with `Behind`, the last closed epoch and
    /// what is fixed for the one behind it exactly where that isn't the one to be closed, then with `Overtaken` and the
    /// greatest epoch exactly where `short` holds and that epoch isn't the summary's ballot, then with `Full` exactly
    /// where its journal would be longer than 2^40 bytes; with `Damaged` where the bytes are no journal of changes; and
    /// with `Failed` and `NoMemory` at any point.
    fn close(
        &mut self,
        alloc: Global,
        log: LogId,
        epoch: u32,
        summary: &Summary,
        short: bool,
    ) -> Result<Option<Spec>, RegisterFault>
        requires { IsSummary epoch summary.now }
        ensures answers { (c : Contents) → holds self.old c → IsFree result ⊎ ((result ≡ closed c log epoch summary.now short) × holds self.new (after_close c log epoch summary.now short)) }
        ensures told { told self.old → told self.new }
        ensures whole { told self.old → IsFree result ⊎ ((c : Contents) × holds self.old c) }
        ensures settled { told self.old → IsFree result ⊎ ((c : Contents) → may_hold self.new c → holds self.new c) }
        ensures sure { told self.old → IsFree result ⊎ ((c : Contents) × holds self.new c × leaves self.new (c ∷ [])) }
        ensures done_or_not { told self.old → ChangedOrNot (may_hold self.old) (may_hold self.new) (λ c. after_close c log epoch summary.now short) }
        ensures survives { (cs : List Contents) → told self.old → leaves self.old cs → leaves self.new (with_and_without (λ c. after_close c log epoch summary.now short) cs) }
        ensures keeps { IsErrOf result RegisterFault.Failed ⊎ OnErr result (Keeps (holds self.old) (holds self.new) (may_hold self.old) (may_hold self.new)) }
        ensures exact { (c : Contents) → tells self.old c
            → (IsErrOf result RegisterFault.NoMemory × tells self.new c) ⊎ ((result ≡ closed c log epoch summary.now short) × tells self.new (after_close c log epoch summary.now short)) }
        ensures next { IfOk result (λ next. IfSome next (IsSpecFor log)) }
        ensures bounds { (lce : ℕ) (next : Option Fixed) → IsErrOf result (RegisterFault.Behind lce next) → (lce ≤ 2 ^ 32 - 2) × IfSome next (IsSpecFor log) }
        ensures overtaken { (kept : ℕ) → IsErrOf result (RegisterFault.Overtaken kept) → (short ≡ true) × (kept ≤ 2 ^ 32 - 2) × (kept ≢ summary.now.ballot) }
        ensures failed { IsErrOf result RegisterFault.Failed → Rose (faults self.old) (faults self.new) }
        ensures damaged { (place : ℕ) → IsErrOf result (RegisterFault.Damaged place) → told self.old → damaged self.old place }
        ensures epochs { result ≢ Err RegisterFault.EpochLimit }
        ensures generations { result ≢ Err RegisterFault.GenLimit }
        ensures swaps { result ≢ Err RegisterFault.SwapLimit }
        ensures steady { IsErrOf result RegisterFault.Failed ⊎ (faults self.new ≡ faults self.old) }
        ensures itself { identity self.new ≡ identity self.old }
        ensures counts { faults self.old ≤ faults self.new };

    /// Hands out the node's next generation, from 1 on, and tells the epoch of each log that has one, the logs
    /// rising.
    ///
    /// It refuses with `GenLimit` exactly where the node's generation is 2^32-1, then with `Full` exactly where its
    /// journal would be longer than 2^40 bytes; with `Damaged` where the bytes are no journal of changes; and with
    /// `Failed` and `NoMemory` at any point.
    fn draw(&mut self, alloc: Global, node: NodeId) -> Result<Drawn, RegisterFault>
        ensures answers { (c : Contents) → holds self.old c → IsFree result ⊎ ((result ≡ drawn c node) × holds self.new (after_draw c node)) }
        ensures told { told self.old → told self.new }
        ensures whole { told self.old → IsFree result ⊎ ((c : Contents) × holds self.old c) }
        ensures settled { told self.old → IsFree result ⊎ ((c : Contents) → may_hold self.new c → holds self.new c) }
        ensures sure { told self.old → IsFree result ⊎ ((c : Contents) × holds self.new c × leaves self.new (c ∷ [])) }
        ensures done_or_not { told self.old → ChangedOrNot (may_hold self.old) (may_hold self.new) (λ c. after_draw c node) }
        ensures survives { (cs : List Contents) → told self.old → leaves self.old cs → leaves self.new (with_and_without (λ c. after_draw c node) cs) }
        ensures keeps { IsErrOf result RegisterFault.Failed ⊎ OnErr result (Keeps (holds self.old) (holds self.new) (may_hold self.old) (may_hold self.new)) }
        ensures exact { (c : Contents) → tells self.old c
            → (IsErrOf result RegisterFault.NoMemory × tells self.new c) ⊎ ((result ≡ drawn c node) × tells self.new (after_draw c node)) }
        ensures bounds { IfOk result (λ drawn. IsOp (Format drawn.gen_ drawn.epochs)) }
        ensures failed { IsErrOf result RegisterFault.Failed → Rose (faults self.old) (faults self.new) }
        ensures damaged { (place : ℕ) → IsErrOf result (RegisterFault.Damaged place) → told self.old → damaged self.old place }
        ensures logs { result ≢ Err RegisterFault.LogLimit }
        ensures behind { (lce : ℕ) (next : Option Fixed) → result ≢ Err (RegisterFault.Behind lce next) }
        ensures overtaken { (kept : ℕ) → result ≢ Err (RegisterFault.Overtaken kept) }
        ensures epochs { result ≢ Err RegisterFault.EpochLimit }
        ensures swaps { result ≢ Err RegisterFault.SwapLimit }
        ensures steady { IsErrOf result RegisterFault.Failed ⊎ (faults self.new ≡ faults self.old) }
        ensures itself { identity self.new ≡ identity self.old }
        ensures counts { faults self.old ≤ faults self.new };

    /// Puts the spare in the place of the member in each closed epoch of the log up to `upto` whose nodes have the member
    /// and lack the spare, and says how many these are. Where there are none it changes and writes nothing. What is fixed
    /// for epochs that aren't closed stays, and so do the factor and the extras of all.
    ///
    /// It refuses with `SwapLimit` exactly where there are some and the log has had 2^32-1 swaps, then with `Full` exactly
    /// where its journal would be longer than 2^40 bytes; with `Damaged` where the bytes are no journal of changes; and with
    /// `Failed` and `NoMemory` at any point.
    fn swap(
        &mut self,
        alloc: Global,
        log: LogId,
        upto: u32,
        member: NodeId,
        spare: NodeId,
    ) -> Result<u32, RegisterFault>
        ensures answers { (c : Contents) → holds self.old c → IsFree result ⊎ ((result ≡ swapped c log upto member spare) × holds self.new (after_swap c log upto member spare)) }
        ensures told { told self.old → told self.new }
        ensures whole { told self.old → IsFree result ⊎ ((c : Contents) × holds self.old c) }
        ensures settled { told self.old → IsFree result ⊎ ((c : Contents) → may_hold self.new c → holds self.new c) }
        ensures sure { told self.old → IsFree result ⊎ ((c : Contents) × holds self.new c × leaves self.new (c ∷ [])) }
        ensures done_or_not { told self.old → ChangedOrNot (may_hold self.old) (may_hold self.new) (λ c. after_swap c log upto member spare) }
        ensures survives { (cs : List Contents) → told self.old → leaves self.old cs → leaves self.new (with_and_without (λ c. after_swap c log upto member spare) cs) }
        ensures keeps { IsErrOf result RegisterFault.Failed ⊎ OnErr result (Keeps (holds self.old) (holds self.new) (may_hold self.old) (may_hold self.new)) }
        ensures exact { (c : Contents) → tells self.old c
            → (IsErrOf result RegisterFault.NoMemory × tells self.new c) ⊎ ((result ≡ swapped c log upto member spare) × tells self.new (after_swap c log upto member spare)) }
        ensures failed { IsErrOf result RegisterFault.Failed → Rose (faults self.old) (faults self.new) }
        ensures damaged { (place : ℕ) → IsErrOf result (RegisterFault.Damaged place) → told self.old → damaged self.old place }
        ensures logs { result ≢ Err RegisterFault.LogLimit }
        ensures behind { (lce : ℕ) (next : Option Fixed) → result ≢ Err (RegisterFault.Behind lce next) }
        ensures overtaken { (kept : ℕ) → result ≢ Err (RegisterFault.Overtaken kept) }
        ensures epochs { result ≢ Err RegisterFault.EpochLimit }
        ensures generations { result ≢ Err RegisterFault.GenLimit }
        ensures steady { IsErrOf result RegisterFault.Failed ⊎ (faults self.new ≡ faults self.old) }
        ensures itself { identity self.new ≡ identity self.old }
        ensures counts { faults self.old ≤ faults self.new };

    /// Shows the log's epoch, its last closed one, how many swaps there were, the summary of the epoch `e` exactly where it is
    /// closed: where 1 <= `e` <= the last closed one, and what is fixed for `e`, as swaps left it: for the greatest epoch
    /// where `e` isn't handed out, and nothing where none was fixed. It changes nothing.
    ///
    /// It refuses with `Damaged` where the bytes are no journal of changes, and with `Failed` and `NoMemory` at any
    /// point.
    fn look(&mut self, alloc: Global, log: LogId, e: u32) -> Result<View, RegisterFault>
        ensures answers { (c : Contents) → holds self.old c → IsFree result ⊎ ((result ≡ Ok (looked c log e)) × holds self.new c) }
        ensures told { told self.old → told self.new }
        ensures whole { told self.old → IsFree result ⊎ ((c : Contents) × holds self.old c) }
        ensures settled { told self.old → IsFree result ⊎ ((c : Contents) → may_hold self.new c → holds self.new c) }
        ensures sure { told self.old → IsFree result ⊎ ((c : Contents) × holds self.new c × leaves self.new (c ∷ [])) }
        ensures same { (c : Contents) → may_hold self.new c → may_hold self.old c }
        ensures survives { (cs : List Contents) → told self.old → leaves self.old cs → leaves self.new cs }
        ensures keeps { IsErrOf result RegisterFault.Failed ⊎ Keeps (holds self.old) (holds self.new) (may_hold self.old) (may_hold self.new) }
        ensures exact { (c : Contents) → tells self.old c
            → (IsErrOf result RegisterFault.NoMemory ⊎ (result ≡ Ok (looked c log e))) × tells self.new c }
        ensures view { IfOk result (IsView log e) }
        ensures failed { IsErrOf result RegisterFault.Failed → Rose (faults self.old) (faults self.new) }
        ensures damaged { (place : ℕ) → IsErrOf result (RegisterFault.Damaged place) → told self.old → damaged self.old place }
        ensures free { OnErr result (IsFree result) }
        ensures steady { IsErrOf result RegisterFault.Failed ⊎ (faults self.new ≡ faults self.old) }
        ensures itself { identity self.new ≡ identity self.old }
        ensures counts { faults self.old ≤ faults self.new };

    /// It holds one thing.
    ghost holds_one: { (register : Self) (c d : Contents) → holds register c → holds register d → c ≡ d };

    /// A register that holds something tells so.
    ghost held_is_told: { (register : Self) (c : Contents) → holds register c → told register };

    /// What is held is one of the things that a crash may leave.
    ghost held_may_be: { (register : Self) (c : Contents) → holds register c → may_hold register c };

    /// Of those that a crash may leave, where it leaves nothing else, one is held.
    ghost left_is_held: { (register : Self) (cs : List Contents) → told register → leaves register cs → OneOf (holds register) cs };

    /// Nothing else may be held after a crash.
    ghost left_alone: { (register : Self) (cs : List Contents) (c : Contents) → leaves register cs → may_hold register c → OneOf (λ d. d ≡ c) cs };

    /// What each call will do is told of the contents that are held.
    ghost tells_what_is_held: { (register : Self) (c : Contents) → tells register c → holds register (unarmed c) };

    /// A register that holds something isn't damaged.
    ghost held_is_whole: { (register : Self) (c : Contents) (place : ℕ) → holds register c → damaged register place → ⊥ };
}
