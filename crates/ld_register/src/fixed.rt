// What is fixed for the epochs of a log, and how a swap changes it.
ghost use Rattle.std.specs.Prelude.{◌≡◌, ◌≤◌, ◌-◌, ◌^◌};
ghost use Rattle.ld_table.specs.Table.{find};
ghost use Rattle.ld_msg.specs.Register.{swaps_in, swapped_spec};
ghost use Rattle.ld_register.specs.Kept.{swapped_up_to, swaps_up_to, swapped_where, swaps_where};

use ld_ids::{NodeId, NodeSet, Spec};
use std::collections::BTreeMap;

/// The nodes, factor and extras of an epoch, as they were fixed and as swaps left them.
#[derive(Clone, Copy)]
pub(crate) struct Fixed {
    pub fixed: Spec,
    pub swapped: Spec,
}

impl Fixed {
    /// As it is fixed.
    pub(crate) fn new(spec: &Spec) -> Fixed
        ensures { result ≡ record { fixed = spec.now; swapped = spec.now } }
    {
        Fixed {
            fixed: *spec,
            swapped: *spec,
        }
    }
}

/// How many epochs up to one have the member and lack the spare.
pub(crate) fn count_swaps(
    table: &BTreeMap<u32, Fixed>,
    last: u32,
    member: NodeId,
    spare: NodeId,
) -> u32
    requires { last ≤ 2 ^ 32 - 2 }
    ensures { result ≡ swaps_up_to last member spare table.now.entries }
{
    let _ = table.len();
    let mut count = 0;
    'epochs: for e in 1..last + 1 {
        count += u32::from(swaps_at(table, e, member, spare));
    }
    count
}

/// Puts the spare in the place of the member in each epoch up to one that has the member and lacks the spare.
pub(crate) fn swap_all(table: &mut BTreeMap<u32, Fixed>, last: u32, member: NodeId, spare: NodeId)
    requires { last ≤ 2 ^ 32 - 2 }
    ensures { table.new.entries ≡ swapped_up_to last member spare table.old.entries }
{
    let _ = table.len();
    'epochs: for e in 1..last + 1 {
        swap_at(table, e, member, spare);
    }
}

/// Whether an epoch has the member and lacks the spare.
fn swaps_at(table: &BTreeMap<u32, Fixed>, e: u32, member: NodeId, spare: NodeId) -> bool
    ensures { result ≡ swaps_where member spare (find e table.now.entries) }
{
    match table.get(&e) {
        Some(fixed) => swaps_in(&fixed.swapped.set, member, spare),
        None => false,
    }
}

/// Puts the spare in the place of the member in an epoch, where it has the member and lacks the spare.
fn swap_at(table: &mut BTreeMap<u32, Fixed>, e: u32, member: NodeId, spare: NodeId)
    ensures { table.new.entries ≡ swapped_where e member spare table.old.entries (find e table.old.entries) }
{
    let Some(fixed) = table.get_mut(&e) else {
        return;
    };
    fixed.swapped = swapped(&fixed.swapped, member, spare);
}

/// With the spare in the place of the member, where it has the member and lacks the spare.
fn swapped(spec: &Spec, member: NodeId, spare: NodeId) -> Spec
    ensures { result ≡ swapped_spec member spare spec.now }
{
    if !swaps_in(&spec.set, member, spare) {
        return *spec;
    }
    let mut swapped = *spec;
    swapped.set = spec.set.without(member).with(spare);
    swapped
}

/// Whether a set has the member and lacks the spare.
fn swaps_in(set: &NodeSet, member: NodeId, spare: NodeId) -> bool
    ensures { result ≡ swaps_in member spare set.now }
{
    let _ = spare.number();
    set.has(member) && !set.has(spare)
}
