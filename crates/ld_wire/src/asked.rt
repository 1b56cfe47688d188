// Which nodes may be asked for one copy.
ghost use Rattle.std.specs.Prelude.{◌≡◌};
ghost use Rattle.ld_msg.specs.Bounds.{share_out};
ghost use Rattle.ld_wire.specs.Judging.{may_share};

use ld_ids::NodeSet;

/// Whether the excluded nodes lie in the set, and some node of the set is left.
pub(crate) fn may_share(excluded: &NodeSet, set: &NodeSet) -> bool
    ensures { result ≡ may_share excluded.now set.now }
{
    has_other(excluded, set) && !has_other(set, excluded)
}

/// Whether a node of the set isn't among the others.
fn has_other(others: &NodeSet, set: &NodeSet) -> bool
    ensures { result ≡ share_out others.now set.now }
{
    for place in 0..set.len() {
        if let Some(node) = set.nth(place) {
            if !others.has(node) {
                return true;
            }
        }
    }
    false
}
