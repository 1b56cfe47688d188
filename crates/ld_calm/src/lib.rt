//! A calm ends: the round that brings each log to rest is a list of steps, and it is no longer than its bound.
#![tactic(auto)]

ghost use Rattle.ld_calm.specs.Ends.{CalmEnds, CalmEndsAfter};
ghost use Rattle.ld_calm.specs.Lines.{CalmIsBounded, CalmIsBoundedAfter, NoneWaitsIsAcked};

/// In every state of every run a calm ends: each of its steps is the next one with what is left to do, after the last one nothing is left, and there are at most as many as the bound that is read from the state. So it does after any steps.
pub fn a_calm_ends()
    ensures of_a_run { CalmEnds }
    ensures after_steps { CalmEndsAfter }
{}

/// A calm has at most twice as many steps as messages are new at its start, and for each log 32 times its nodes, its live sequencers and open readers and one, its epoch and one, and its `appended` and `trimmed` lines, its nodes and four.
pub fn a_calm_is_bounded()
    ensures of_a_run { CalmIsBounded }
    ensures after_steps { CalmIsBoundedAfter }
{}

/// Where no append of a sequencer waits, each number that an `appended` line of it tells was acknowledged by an `acked` line of its log.
pub fn none_waits_is_acked()
    ensures { NoneWaitsIsAcked }
{}
