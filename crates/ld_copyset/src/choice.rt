// The choice.
ghost use Rattle.std.specs.Prelude.{◌≡◌, ◌≤◌, ◌<◌, ◌+◌, ◌-◌, ◌++◌, ℕ, List, length, take, drop, true, false, IfOk, IfErr, OnOk};
ghost use Rattle.ld_table.specs.Words.{is_in, without};
ghost use Rattle.ld_ids.specs.Set.{members};
ghost use Rattle.ld_lsn.specs.Number.{epoch_of, esn_of};
ghost use Rattle.ld_ids.specs.Choice.{choice_at, first_left, ring};
ghost use Rattle.ld_copyset.specs.Copyset.{place_of, left_at, AreDistinct};

use crate::NodeList;
use ld_ids::{NodeId, NodeSet, Spec};
use ld_lsn::Lsn;
use thiserror::Error;

/// The nodes that a number is sent to, in ring order.
pub type Choice = NodeList;

/// Fewer nodes are left than a record is to be stored on: so many.
#[derive(Clone, Copy, Debug, PartialEq, Eq, Error)]
#[error("too few nodes are left")]
pub struct TooFew(pub u8);

/// The nodes that a number is sent to in a wave, each number beginning one node further round the ring of the set than
/// the one before, and each wave too: the first `r + extras` of those that aren't excluded, or all of these where
/// they are between `r` and `r + extras`. It is refused exactly where fewer than `r` are left.
pub fn choose(
    set: &NodeSet,
    r: u8,
    extras: u8,
    lsn: Lsn,
    wave: u32,
    excluded: &NodeSet,
) -> Result<Choice, TooFew>
    ensures ok { IfOk result (λ choice. choice ≡ take (r + extras) (left_at set.now excluded.now (place_of lsn wave))) }
    ensures meets_definition { (log : ℕ) → IfOk result (λ choice. choice ≡ choice_at (record { log = log; set = set.now; r = r; extras = extras }) (members excluded.now) (place_of lsn wave)) }
    ensures enough { OnOk result (r ≤ length (left_at set.now excluded.now (place_of lsn wave))) }
    ensures too_few { IfErr result (λ few. few.0 ≡ length (left_at set.now excluded.now (place_of lsn wave))) }
    ensures cause { IfErr result (λ few. few.0 < r) }
    ensures members { IfOk result (λ choice. (node : ℕ) → is_in node choice ≡ true → is_in node (members set.now) ≡ true) }
    ensures outside { IfOk result (λ choice. (node : ℕ) → is_in node choice ≡ true → is_in node (members excluded.now) ≡ false) }
    ensures distinct { IfOk result (λ choice. AreDistinct choice) }
{
    let mut left = around(set, lsn, wave, excluded);
    if left.len() < usize::from(r) {
        return Err(TooFew(left.len() as u8));
    }
    left.truncate(usize::from(r) + usize::from(extras));
    Ok(left)
}

/// The same for a log, but where fewer nodes than its replication factor would be left none are excluded.
pub fn choose_for(spec: &Spec, lsn: Lsn, wave: u32, excluded: &NodeSet) -> Choice
    ensures set { result ≡ choice_at spec.now (members excluded.now) (place_of lsn wave) }
    ensures same { (nodes : List ℕ) → ((node : ℕ) → is_in node (members excluded.now) ≡ is_in node nodes) → result ≡ choice_at spec.now nodes (place_of lsn wave) }
{
    let mut left = around(&spec.set, lsn, wave, excluded);
    if left.len() < usize::from(spec.r) {
        left = around(&spec.set, lsn, wave, &NodeSet::empty());
    }
    left.truncate(usize::from(spec.r) + usize::from(spec.extras));
    left
}

/// The one node of a set that sends the payload of a number, where each is to be sent once: the first one that isn't
/// excluded, from the number's place on and round. None exactly where none is left.
pub fn sender(set: &NodeSet, excluded: &NodeSet, lsn: Lsn) -> Option<NodeId>
    ensures { result ≡ first_left set.now excluded.now (epoch_of lsn + esn_of lsn) }
{
    let left = around(set, lsn, 0, excluded);
    left.nth(0)
}

/// The nodes of the set that aren't excluded, from the number's place on and round.
fn around(set: &NodeSet, lsn: Lsn, wave: u32, excluded: &NodeSet) -> NodeList
    ensures { result ≡ left_at set.now excluded.now (place_of lsn wave) }
{
    let mut left = NodeList::empty();
    let size = set.len();
    if size > 0 {
        let place = u64::from(lsn.epoch()) + u64::from(lsn.esn()) + u64::from(wave);
        let first = (place % size as u64) as usize;
        add_between(set, first, size, excluded, &mut left);
        add_between(set, 0, first, excluded, &mut left);
    }
    left
}

/// Adds the nodes at these places of the set that aren't excluded.
fn add_between(set: &NodeSet, from: usize, to: usize, excluded: &NodeSet, left: &mut NodeList)
    requires inside { to ≤ length (members set.now) }
    requires order { from ≤ to }
    requires distinct { AreDistinct (left.old ++ without (members excluded.now) (take (to - from) (drop from (members set.now)))) }
    ensures { left.new ≡ left.old ++ without (members excluded.now) (take (to - from) (drop from (members set.now))) }
{
    'places: for place in from..to {
        if let Some(node) = set.nth(place) {
            if !excluded.has(node) {
                left.push(node);
            }
        }
    }
}
