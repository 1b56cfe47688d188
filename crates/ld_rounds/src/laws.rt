// How a drive begins.
ghost use Rattle.std.specs.Prelude.{◌≡◌, nat_le, filter, []};
ghost use Rattle.ld_msg.specs.Network.{Network};
ghost use Rattle.ld_rounds.specs.Queued.{no_queues};
ghost use Rattle.ld_rounds.specs.News.{AreNews};

/// A drive may begin in any state whose new messages were all sent: from the next place on none is new, so nothing waits for a
/// node, and no answer is to be taken.
pub fn drives_may_begin()
    ensures { (w : Network) → filter (λ i. nat_le w.count i) w.fresh ≡ [] → AreNews w.count w no_queues [] }
{}
