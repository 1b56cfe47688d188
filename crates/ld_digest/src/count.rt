// What so many nodes come to.
ghost use Rattle.std.specs.Prelude.{◌≡◌, ◌+◌, ◌<◌, ◌^◌, ◌&&◌, ◌||◌, not, true, length, nat_lt, if◌then◌else◌};
ghost use Rattle.ld_ids.specs.Choice.{nodes_of};

use ld_ids::Spec;

/// Of some nodes, whether each is whole or lost, and how many are whole and not lost.
#[derive(Clone, Copy)]
pub(crate) struct Count {
    each: bool,
    found: usize,
}

impl Count {
    /// Of no nodes.
    pub(crate) fn none() -> Count
        ensures each { result.each ≡ true }
        ensures found { result.found ≡ 0 }
    {
        Count {
            each: true,
            found: 0,
        }
    }

    /// Counts one node more.
    pub(crate) fn add(&mut self, whole: bool, lost: bool)
        requires { self.old.found < 2 ^ 63 }
        ensures each { self.new.each ≡ (self.old.each && (whole || lost)) }
        ensures found { self.new.found ≡ (if whole && not lost then self.old.found + 1 else self.old.found) }
    {
        self.each = self.each && (whole || lost);
        if whole && !lost {
            self.found += 1;
        }
    }

    /// Whether none of them may tell more, and those that told aren't enough.
    pub(crate) fn spent(&self, spec: &Spec) -> bool
        requires { self.now.found < 2 ^ 63 }
        ensures { result ≡ (self.now.each && not (nat_lt (length (nodes_of spec.now)) (spec.now.r + self.now.found))) }
    {
        self.each && usize::from(spec.r) + self.found <= spec.set.len()
    }
}
