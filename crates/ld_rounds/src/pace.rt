// How long is rested between rounds.
ghost use Rattle.std.specs.Prelude.{◌≡◌, ◌≤◌, ℕ, Option, true, false};
ghost use Rattle.ld_config.specs.declared.config.Config.{Config};
ghost use Rattle.ld_dial.specs.Far.{Far};
ghost use Rattle.ld_rounds.specs.Pace.{first_wait, next_wait};

use ld_dial::Nodes;

/// How many milliseconds are rested first.
const FIRST: u32 = 100;

/// How long the next rest is, and whether there is one.
#[derive(Drop)]
pub struct Pace {
    /// The longest rest, in milliseconds.
    longest: u32,
    /// The last rest, in milliseconds, where it was rested before the last round.
    wait: u32,
    /// Whether the last round gave nothing.
    pub is_idle: bool,
}

impl Pace {
    /// Nothing was rested; rests are at most so many milliseconds long.
    pub fn new(longest: u32) -> Pace
        ensures longest { result.longest ≡ longest }
        ensures wait { result.wait ≡ 0 }
        ensures idle { result.is_idle ≡ false }
    {
        Pace {
            longest,
            wait: 0,
            is_idle: false,
        }
    }

    /// Rests, with no node present, where the last round gave nothing: twice as long as before the round before, or as long
    /// as first.
    pub fn rest<N: Nodes>(&mut self, nodes: &mut N)
        ensures wait { self.new.wait ≡ next_wait self.old.is_idle self.old.wait self.old.longest }
        ensures longest { self.new.longest ≡ self.old.longest }
        ensures idle { self.new.is_idle ≡ self.old.is_idle }
        ensures rested { (c : Config) (far : Far) → N.tells nodes.old c far → N.tells nodes.new c far }
        ensures silent { N.silent nodes.new ≡ N.silent nodes.old }
        ensures off { N.off nodes.new ≡ N.off nodes.old }
        ensures faults { N.faults nodes.new ≡ N.faults nodes.old }
        ensures endings { N.endings nodes.new ≡ N.endings nodes.old }
    {
        self.wait = next_wait(self.is_idle, self.wait, self.longest);
        if self.wait > 0 {
            nodes.rest(self.wait);
        }
    }
}

/// How long the next rest is, in milliseconds: none where the last round gave something, and else twice as long as the one
/// before it, and as long as first where there was none.
fn next_wait(is_idle: bool, wait: u32, longest: u32) -> u32
    ensures { result ≡ next_wait is_idle wait longest }
{
    if !is_idle {
        return 0;
    }
    if wait == 0 {
        return FIRST.min(longest);
    }
    wait.saturating_mul(2).min(longest)
}

/// Whether two numbers are the same, or both are none.
pub fn is_same(one: Option<u128>, other: Option<u128>) -> bool
    ensures { result ≡ true → one ≡ other }
{
    match (one, other) {
        (Some(one), Some(other)) => one == other,
        (None, None) => true,
        _ => false,
    }
}
