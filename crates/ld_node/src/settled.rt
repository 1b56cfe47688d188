// What a node keeps and answers, once the payloads that it has to read are read.
ghost use Rattle.std.specs.Prelude.{◌≡◌, ◌≢◌, ◌⊎◌, ◌↔◌, ◌≤◌, ℕ, [], length, map, IfOk, IfSome, IfNone, OnOk, OnErr, IsErrOf, Err, Some, None, true, false, Option};
ghost use Rattle.std.specs.Option.{option_map};
ghost use Rattle.ld_table.specs.Words.{numbers_from};
ghost use Rattle.ld_io.specs.Causes.{Rose};
ghost use Rattle.ld_disk.specs.Moments.{Unchanged};
ghost use Rattle.ld_disk.specs.Plain.{Plain as DiskPlain, reads_fine};
ghost use Rattle.ld_op.specs.Cells.{each_body, byte_at};
ghost use Rattle.ld_op.specs.Handles.{answer_message};
ghost use Rattle.ld_op.specs.Plain.{Plain};
ghost use Rattle.ld_msg.specs.Bounds.{IsMessage};
ghost use Rattle.ld_node_bounds.specs.Messages.{AreMessages};
ghost use Rattle.ld_seal.specs.Decided.{payload_of, stands_there};
ghost use Rattle.ld_store.specs.Open.{disk_of, layout_of, slots_of, must_load, is_blank, index_of, plain_of, within, Holds};
ghost use Rattle.ld_store.specs.Ahead.{HoldsOr};
ghost use Rattle.ld_register.specs.declared.fault.RegisterFault.{RegisterFault};
ghost use Rattle.ld_node.specs.Changes.{AreChanges};
ghost use Rattle.ld_node.specs.Msgs.{handled, released_by};
ghost use Rattle.ld_node.specs.Handling.{op_with, reply_with, reply_in, IsEither, IsForSome, StandsForSome, Stays};
ghost use Rattle.ld_node.specs.ByIndex.{IsByIndex};

use crate::NodeFault;
use crate::handled::{Handled, Reply, accept, number_stored};
use crate::known::Known;
use crate::msgs::{decide, reply};
use ld_disk::Disk;
use ld_ids::{NodeId, Payload};
use ld_lsn::Lsn;
use ld_msg::{Body, Msg, Replies, What};
use ld_op::{Op, Place};
use ld_store::Store;
use std::alloc::Global;
use std::collections::BTreeMap;

/// The op that a node keeps, and then its answer.
#[derive(Drop)]
pub(crate) struct Settled {
    pub(crate) op: Option<Op>,
    pub(crate) answer: Option<Body>,
}

/// What the node of this number makes of a message: the op that it keeps, and then what it answers. It only reads.
pub(crate) fn prepare<D: Disk>(
    alloc: Global,
    id: NodeId,
    known: &Known,
    released: &BTreeMap<u32, Lsn>,
    store: &mut Store<D>,
    msg: &Msg,
) -> Result<(Option<Op>, Replies), NodeFault>
    requires msg { IsMessage msg.now }
    requires works { must_load store.old ≡ false }
    ensures op { Holds D.seen D.may_leave store.old → IfOk result (λ done. done.0 ≡ (handled id known.now released.now.entries (plain_of store.old) msg.now).op) }
    ensures replies { Holds D.seen D.may_leave store.old → IfOk result (λ done. done.1 ≡ answer_message id msg.now (handled id known.now released.now.entries (plain_of store.old) msg.now).answer) }
    ensures op_staged { (p : Plain) → HoldsOr D.seen D.may_leave store.old p → IfOk result (λ done. done.0 ≡ (handled id known.now released.now.entries (plain_of store.old) msg.now).op) }
    ensures replies_staged { (p : Plain) → HoldsOr D.seen D.may_leave store.old p → IfOk result (λ done. done.1 ≡ answer_message id msg.now (handled id known.now released.now.entries (plain_of store.old) msg.now).answer) }
    ensures by_index { IfOk result (λ done. IsByIndex id known.now released.now.entries (index_of store.old) msg.now done.0 done.1) }
    ensures change { IfOk result (λ done. AreChanges done.0) }
    ensures released { IfOk result (λ done. (y : ℕ) → released_by id known.now msg.now ≡ Some y → done.0 ≡ None) }
    ensures messages { IfOk result (λ done. AreMessages done.1) }
    ensures held { Holds D.seen D.may_leave store.old → OnOk result (Holds D.seen D.may_leave store.new) }
    ensures held_staged { (p : Plain) → HoldsOr D.seen D.may_leave store.old p → OnOk result (HoldsOr D.seen D.may_leave store.new p) }
    ensures working { OnOk result (must_load store.new ≡ false) }
    ensures fine { OnOk result (D.faults (disk_of store.new) ≡ D.faults (disk_of store.old)) }
    ensures plain { plain_of store.new ≡ plain_of store.old }
    ensures same { Unchanged D.seen D.may_leave D.moment D.left_since (disk_of store.old) (disk_of store.new) }
    ensures exact { (p : DiskPlain) → D.plain (disk_of store.old) ≡ Some p → reads_fine p ≡ true
        → (D.plain (disk_of store.new) ≡ Some p) × (result ≢ Err NodeFault.Disk) }
    ensures rest { (layout_of store.new ≡ layout_of store.old) × (slots_of store.new ≡ slots_of store.old) × (index_of store.new ≡ index_of store.old) × (is_blank store.new ≡ is_blank store.old) }
    ensures holds { Holds D.seen D.may_leave store.old
        → IsErrOf result NodeFault.Disk ⊎ Holds D.seen D.may_leave store.new }
    ensures ahead { (p : Plain) → HoldsOr D.seen D.may_leave store.old p → IsErrOf result NodeFault.Disk ⊎ HoldsOr D.seen D.may_leave store.new p }
    ensures damaged { (place : ℕ) → Holds D.seen D.may_leave store.old → result ≢ Err (NodeFault.Damaged place) }
    ensures damaged_staged { (p : Plain) (place : ℕ) → HoldsOr D.seen D.may_leave store.old p → result ≢ Err (NodeFault.Damaged place) }
    ensures refused { Holds D.seen D.may_leave store.old → OnErr result (IsErrOf result NodeFault.Disk ⊎ IsErrOf result NodeFault.NoMemory) }
    ensures full { result ≢ Err NodeFault.Full }
    ensures needs_load { result ≢ Err NodeFault.NeedsLoad }
    ensures register { (fault : RegisterFault) → result ≢ Err (NodeFault.Register fault) }
    ensures loads { (must_load store.new ≡ true) ↔ IsErrOf result NodeFault.Disk }
    ensures itself { D.identity (disk_of store.new) ≡ D.identity (disk_of store.old) }
    ensures counts { D.faults (disk_of store.old) ≤ D.faults (disk_of store.new) }
    ensures steady { IsErrOf result NodeFault.Disk ⊎ (D.faults (disk_of store.new) ≡ D.faults (disk_of store.old)) }
    ensures failed { IsErrOf result NodeFault.Disk → Rose (D.faults (disk_of store.old)) (D.faults (disk_of store.new)) }
{
    let handled = decide(alloc, id, known, released, store.index(), msg)?;
    let settled = settle(alloc, store, msg, handled)?;
    let replies = reply(alloc, id, msg, settled.answer)?;
    Ok((settled.op, replies))
}

/// Reads the payloads of an answer, or the one that a store's own is compared with.
pub(crate) fn settle<D: Disk>(
    alloc: Global,
    store: &mut Store<D>,
    msg: &Msg,
    handled: Handled,
) -> Result<Settled, NodeFault>
    requires works { must_load store.old ≡ false }
    ensures op { IfOk result (λ done. IfSome (D.seen (disk_of store.old)) (λ bytes. done.op ≡ op_with (byte_at bytes) msg.now handled.op handled.answer)) }
    ensures answer { IfOk result (λ done. IfSome (D.seen (disk_of store.old)) (λ bytes. done.answer ≡ reply_with (byte_at bytes) msg.now handled.answer)) }

    // On any disk the op is one of two, as it is for some bytes, and payloads are as long as the index says.
    ensures either { IfOk result (λ done. IsEither msg.now handled.op handled.answer done.op) }
    ensures some { IfOk result (λ done. IsForSome msg.now handled.op handled.answer done.op) }
    ensures lengths { IfOk result (λ done. option_map (each_body (λ _. 0)) done.answer ≡ option_map (each_body (λ _. 0)) (reply_in msg.now handled.answer)) }
    ensures damaged { (place : ℕ) → IsErrOf result (NodeFault.Damaged place)
        → IfSome (D.seen (disk_of store.old)) (λ bytes. Stays (within (length bytes)) handled.answer → ⊥) }
    ensures same { Unchanged D.seen D.may_leave D.moment D.left_since (disk_of store.old) (disk_of store.new) }
    ensures exact { (p : DiskPlain) → D.plain (disk_of store.old) ≡ Some p → reads_fine p ≡ true
        → (D.plain (disk_of store.new) ≡ Some p) × (result ≢ Err NodeFault.Disk) }
    ensures rest { (layout_of store.new ≡ layout_of store.old) × (slots_of store.new ≡ slots_of store.old) × (index_of store.new ≡ index_of store.old) × (is_blank store.new ≡ is_blank store.old) }
    ensures holds { Holds D.seen D.may_leave store.old
        → IsErrOf result NodeFault.Disk ⊎ Holds D.seen D.may_leave store.new }
    ensures ahead { (p : Plain) → HoldsOr D.seen D.may_leave store.old p → IsErrOf result NodeFault.Disk ⊎ HoldsOr D.seen D.may_leave store.new p }
    ensures full { result ≢ Err NodeFault.Full }
    ensures needs_load { result ≢ Err NodeFault.NeedsLoad }
    ensures register { (fault : RegisterFault) → result ≢ Err (NodeFault.Register fault) }
    ensures loads { (must_load store.new ≡ true) ↔ IsErrOf result NodeFault.Disk }
    ensures itself { D.identity (disk_of store.new) ≡ D.identity (disk_of store.old) }
    ensures counts { D.faults (disk_of store.old) ≤ D.faults (disk_of store.new) }
    ensures steady { IsErrOf result NodeFault.Disk ⊎ (D.faults (disk_of store.new) ≡ D.faults (disk_of store.old)) }
    ensures failed { IsErrOf result NodeFault.Disk → Rose (D.faults (disk_of store.old)) (D.faults (disk_of store.new)) }
{
    let Handled { op, answer } = handled;
    match answer {
        Reply::Nothing => Ok(Settled { op, answer: None }),
        Reply::Whole(body) => Ok(Settled {
            op,
            answer: Some(body),
        }),
        Reply::Page(page) => {
            let filled = store.fill(alloc, page)?;
            Ok(Settled {
                op,
                answer: Some(filled.body),
            })
        }
        Reply::Compare(place) => {
            let there = is_there(alloc, store, place, &msg.body)?;
            let taken = if there { None } else { accept(alloc, msg)? };
            Ok(Settled {
                op: taken,
                answer: Some(Body::Stored {
                    number: number_stored(&msg.body),
                }),
            })
        }
    }
}

/// Whether the payload of a store stands at an offset.
fn is_there<D: Disk>(
    alloc: Global,
    store: &mut Store<D>,
    place: Place,
    body: &Body,
) -> Result<bool, NodeFault>
    requires works { must_load store.old ≡ false }
    ensures there { IfOk result (λ there. IfSome (D.seen (disk_of store.old)) (λ bytes. there ≡ stands_there (byte_at bytes) (payload_of body.now) place)) }
    ensures some { IfOk result (λ there. StandsForSome (payload_of body.now) place there) }
    ensures damaged { (at : ℕ) → IsErrOf result (NodeFault.Damaged at)
        → IfSome (D.seen (disk_of store.old)) (λ bytes. map (within (length bytes)) (numbers_from place.at place.len) ≢ numbers_from place.at place.len) }
    ensures same { Unchanged D.seen D.may_leave D.moment D.left_since (disk_of store.old) (disk_of store.new) }
    ensures exact { (p : DiskPlain) → D.plain (disk_of store.old) ≡ Some p → reads_fine p ≡ true
        → (D.plain (disk_of store.new) ≡ Some p) × (result ≢ Err NodeFault.Disk) }
    ensures rest { (layout_of store.new ≡ layout_of store.old) × (slots_of store.new ≡ slots_of store.old) × (index_of store.new ≡ index_of store.old) × (is_blank store.new ≡ is_blank store.old) }
    ensures holds { Holds D.seen D.may_leave store.old
        → IsErrOf result NodeFault.Disk ⊎ Holds D.seen D.may_leave store.new }
    ensures ahead { (p : Plain) → HoldsOr D.seen D.may_leave store.old p → IsErrOf result NodeFault.Disk ⊎ HoldsOr D.seen D.may_leave store.new p }
    ensures full { result ≢ Err NodeFault.Full }
    ensures needs_load { result ≢ Err NodeFault.NeedsLoad }
    ensures register { (fault : RegisterFault) → result ≢ Err (NodeFault.Register fault) }
    ensures loads { (must_load store.new ≡ true) ↔ IsErrOf result NodeFault.Disk }
    ensures itself { D.identity (disk_of store.new) ≡ D.identity (disk_of store.old) }
    ensures counts { D.faults (disk_of store.old) ≤ D.faults (disk_of store.new) }
    ensures steady { IsErrOf result NodeFault.Disk ⊎ (D.faults (disk_of store.new) ≡ D.faults (disk_of store.old)) }
    ensures failed { IsErrOf result NodeFault.Disk → Rose (D.faults (disk_of store.old)) (D.faults (disk_of store.new)) }
{
    match payload_in(body) {
        Some(payload) => {
            let there = store.has_payload(alloc, place, payload)?;
            Ok(there)
        }
        None => Ok(place.len == 0),
    }
}

/// The payload of a store's record.
fn payload_in(body: &Body) -> Option<&Payload>
    ensures some { IfSome result (λ payload. payload.now ≡ payload_of body.now) }
    ensures none { IfNone result (payload_of body.now ≡ []) }
{
    match body {
        Body::Store { what, .. } => match what {
            What::Rec(payload) => Some(payload),
            _ => None,
        },
        _ => None,
    }
}
