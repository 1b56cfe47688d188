// The reader's table.
ghost use Rattle.std.specs.Prelude.{◌≡◌, if◌then◌else◌};
ghost use Rattle.ld_lsn.specs.Number.{epoch_end};
ghost use Rattle.ld_ids.specs.Set.{members};
ghost use Rattle.ld_msg.specs.Reading.{decide, BridgeTo, LossTo};
ghost use Rattle.ld_gap.specs.Shown.{shown, shown_item};

use crate::{Held, Item, Verdict};
use ld_ids::NodeSet;
use ld_lsn::Lsn;

// What stands behind the end of an epoch, and whether that is lost.
fn past_end<'a>(epoch: u32, loss: bool) -> Item<'a>
    ensures { shown_item result ≡ (if loss then LossTo (epoch_end epoch) else BridgeTo (epoch_end epoch)) }
{
    if loss {
        Item::LossTo(epoch)
    } else {
        Item::Bridge(epoch)
    }
}

/// What a reader makes of its next number, by the answers that it holds: the first that holds of
///
/// - the number is trimmed: a trim to the greatest trim that is held;
/// - a page has an entry of the number: the record of the lowest node that has one, or else a hole,
///   or else, where there are plugs alone, the loss of the number;
/// - a page withholds a record under the number, and the node that is to send it sent nothing of it
///   (`misses`): all nodes are to be asked, each for the payload too;
/// - the number's epoch ends at it or before it: a bridge to the end of the epoch, or the loss of all
///   up to there, as the lowest node says that shows such an end;
/// - `may_confirm`, each node of the set either has given a clean page that covers the number and
///   lacks it or is lost for the number's epoch, one of them at least is lost, and one shows that
///   the epoch ends above the number: the lost nodes are to be asked once more.
///
/// Nothing is known yet exactly where none of these holds. The time is that of a walk over the held
/// entries.
#[tactic(auto, unfolding(ld_msg::specs::Reading::decide))]
pub fn decide<'a>(
    next: Lsn,
    misses: bool,
    may_confirm: bool,
    set: &NodeSet,
    held: &'a Held,
) -> Verdict<'a>
    ensures { shown result ≡ decide next misses may_confirm (members set.now) held.now }
{
    let trim = held.trim();
    if next <= trim {
        return Verdict::Gives(Item::Trim(trim));
    }
    if let Some(payload) = held.record(next) {
        return Verdict::Gives(Item::Record(payload));
    }
    if held.has_hole(next) {
        return Verdict::Gives(Item::Hole);
    }
    if held.has_plug(next) {
        return Verdict::Gives(Item::Loss);
    }
    if misses && held.withholds(next) {
        return Verdict::AsksAll;
    }
    if let Some(loss) = held.end(next) {
        return Verdict::Gives(past_end(next.home().0, loss));
    }
    if may_confirm && held.is_loss(next, set) {
        return Verdict::Confirms(held.lost(next, set));
    }
    Verdict::NotYet
}
