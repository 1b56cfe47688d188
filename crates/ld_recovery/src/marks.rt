// What nodes have settled.
ghost use Rattle.std.specs.Prelude.{◌≡◌, ◌≤◌, ◌<◌, ◌+◌, ◌==◌, ◌^◌, ℕ, max, if◌then◌else◌};
ghost use Rattle.ld_recovery.specs.Marks.{no_marks, mark, with_mark};

use ld_ids::NodeId;
use std::marker::Model;

/// For each node, a count of a plan's items: of those that it has settled, or of those that its trims have settled, from the
/// first one on.
#[derive(Drop)]
pub(crate) struct Marks {
    counts: [usize; 16],
}

impl Model for Marks {
    ghost use Rattle.std.specs.Prelude.{ℕ, List};
    ghost use Rattle.ld_recovery.specs.Marks.{IsMarks};

    ghost Value = { List ℕ };

    ghost view = { λ marks. marks.counts };

    ghost invariant = { λ marks. IsMarks marks.counts };
}

impl Marks {
    /// Each node has settled none.
    pub(crate) fn none() -> Marks
        ensures marks { result ≡ no_marks }
        ensures each { (node : ℕ) → mark node result ≡ 0 }
    {
        Marks { counts: [0; 16] }
    }

    /// The node's count.
    pub(crate) fn count(&self, node: NodeId) -> usize
        ensures { result ≡ mark node self.now }
    {
        self.counts[usize::from(node.number()) - 1]
    }

    /// The node's count is so many items, or as many as before where that is more.
    pub(crate) fn raise(&mut self, node: NodeId, count: usize)
        ensures marks { self.new ≡ with_mark node count self.old }
        ensures each { (other : ℕ) → 1 ≤ other → mark other self.new ≡ (if other == node then max (mark node self.old) count else mark other self.old) }
    {
        let place = usize::from(node.number()) - 1;
        self.counts[place] = self.counts[place].max(count);
    }

    /// The node has settled so many items more.
    pub(crate) fn add(&mut self, node: NodeId, more: usize)
        requires { mark node self.old + more < 2 ^ 64 }
        ensures { (other : ℕ) → 1 ≤ other → mark other self.new ≡ (if other == node then mark node self.old + more else mark other self.old) }
    {
        let count = self.count(node) + more;
        self.raise(node, count);
    }
}
