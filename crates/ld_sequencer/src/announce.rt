// The released number, told once more.
ghost use Rattle.std.specs.Prelude.{◌≡◌, IfOk};
ghost use Rattle.ld_node_bounds.specs.Messages.{AreMessages};
ghost use Rattle.ld_sequencer.specs.Announcing.{announced, told_first, tells};

use crate::start::send_all;
use crate::whole::Sequencer;
use ld_ids::NoMemory;
use ld_msg::{Body, Msg, Outbox};

impl Sequencer {
    /// The messages of a retry, with the released number told once more to all nodes of the epoch: it stands behind the
    /// first ones that tell of a close or of the released number. A preempted sequencer tells nothing.
    pub fn announce(&self, sends: Outbox) -> Result<Outbox, NoMemory>
        ensures told { IfOk result (λ out. out ≡ announced self.now sends) }
        ensures messages { AreMessages sends → IfOk result (λ out. AreMessages out) }
    {
        let count = count_told(sends.as_slice());
        let mut first = sends.into_vec();
        let rest = first.split_off(count)?;
        let mut out = Outbox::new(first);
        if !self.own.is_preempted() {
            self.own.tell(&mut out)?;
        }
        send_all(Outbox::new(rest), &mut out)?;
        Ok(out)
    }
}

/// How many messages, from the first one on, tell of a close or of the released number.
#[tactic(auto, using(crate::proofs::Announced::told_rules))]
fn count_told(sends: &[Msg]) -> usize
    ensures { result ≡ told_first sends.now }
{
    'messages: for place in 0..sends.len() {
        if !is_told(&sends[place].body) {
            return place;
        }
    }
    sends.len()
}

/// Whether it tells of a close or of the released number.
fn is_told(body: &Body) -> bool
    ensures { result ≡ tells body.now }
{
    match body {
        Body::Clean { .. } => true,
        Body::Release { .. } => true,
        _ => false,
    }
}
