// What holds of each recovery.
ghost use Rattle.std.specs.Prelude.{◌≡◌, Bool};
ghost use Rattle.ld_msg.specs.declared.msg.Summary.{Summary};
ghost use Rattle.ld_recovery.specs.Recovering.{Recovering, Closing, IsRecovery, IsClosing};
ghost use Rattle.ld_recovery.specs.States.{state_of};
ghost use Rattle.ld_recovery.specs.declared.state.State.TheVariants as states;

use crate::Recovery;

/// The facts of a recovery hold of each one that a program has, whatever calls it had and however they ended.
pub fn recoveries_hold(recovery: &Recovery)
    ensures { IsRecovery recovery.now }
{
    let _ = recovery.state();
}

/// The summary that a recovery is closing with is one that the register takes for the recovery's epoch. It names the
/// recovery's ballot, and no number that is known to be good.
#[tactic(auto, using(crate::proofs::Sound::is_closing, crate::proofs::Sound::shows_closing))]
pub fn closings_are_summaries()
    ensures stage { (r : Recovering) (y : Summary) (short : Bool) → IsRecovery r → Closing r y short → IsClosing r y short }
    ensures state { (r : Recovering) (y : Summary) (short : Bool) → IsRecovery r → state_of r ≡ states.Closing y short → IsClosing r y short }
{}
