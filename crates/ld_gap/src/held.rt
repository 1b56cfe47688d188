// The answers that a reader holds.
ghost use Rattle.std.specs.Prelude.{◌≡◌, ◌<◌, ◌+◌, [], option_copied, Option};
ghost use Rattle.ld_table.specs.Table.{find};
ghost use Rattle.ld_table.specs.Words.{is_in, all_of, any_of};
ghost use Rattle.ld_ids.specs.Set.{members};
ghost use Rattle.ld_msg.specs.Reading.{trim_held, record_held, hole_held, plug_held, withheld_held, sent_nothing, lacks_copy, end_held, is_loss, lost_held, within, leaves_open, is_lost_for, knows_end_above};
ghost use Rattle.ld_msg.specs.Reader.{held_with, is_newer, reaches};
ghost use Rattle.ld_gap.specs.Restored.{restored};
ghost use Rattle.ld_gap.specs.Slots.{generation_within, with_slot};

use crate::{Answer, Lost, round_of};
use ld_ids::{NodeId, NodeSet, Payload};
use ld_lsn::Lsn;
use ld_msg::Body;
use std::marker::Model;
use std::mem;

/// What was held for a node before another answer took its place.
#[derive(Drop)]
pub struct Replaced {
    node: NodeId,
    answer: Option<Answer>,
}

/// The answers that a reader holds: at most one of each node. It is seen as a table by node.
#[derive(Drop)]
pub struct Held {
    answers: [Option<Answer>; 16],
}

impl Model for Held {
    ghost use Rattle.std.specs.Prelude.{List, ℕ, length, ◌≡◌};
    ghost use Rattle.ld_msg.specs.Reading.{Held};
    ghost use Rattle.ld_gap.specs.Slots.{filled};

    ghost Value = { List (ℕ × Held) };

    ghost view = { λ held. filled held.answers };

    ghost invariant = { λ held. length held.answers ≡ 16 };
}

impl Held {
    /// No answers.
    #[tactic(auto, unfolding(crate::specs::Slots::filled_from))]
    pub fn nothing() -> Held
        ensures { result ≡ [] }
    {
        Held {
            answers: [
                None, None, None, None, None, None, None, None, None, None, None, None, None, None,
                None, None,
            ],
        }
    }

    /// Whether no answer of a greater round is held for the node.
    pub fn is_newer(&self, node: NodeId, round: u32) -> bool
        ensures { result ≡ is_newer (find node self.now) round }
    {
        match self.of(node) {
            Some(answer) => answer.round() <= round,
            None => true,
        }
    }

    // Holds the answer for the node, or none, and gives back what was held for it.
    fn exchange(&mut self, node: NodeId, answer: Option<Answer>) -> Option<Answer>
        ensures now { self.new ≡ with_slot node answer self.old }
        ensures back { with_slot node result self.new ≡ self.old }
    {
        mem::replace(&mut self.answers[usize::from(node.number()) - 1], answer)
    }

    /// Holds a node's answer, unless one of a greater round is held for it, and tells what it
    /// replaced.
    pub fn hold(&mut self, node: NodeId, body: Body) -> Option<Replaced>
        ensures held { self.new ≡ held_with self.old node body }
        ensures back { restored result self.new ≡ self.old }
    {
        if !self.is_newer(node, round_of(&body)) {
            return None;
        }
        let answer = self.exchange(node, Some(Answer::new(body)));
        Some(Replaced { node, answer })
    }

    /// Holds again what an answer replaced.
    pub fn restore(&mut self, replaced: Option<Replaced>)
        ensures { self.new ≡ restored replaced self.old }
    {
        if let Some(Replaced { node, answer }) = replaced {
            self.exchange(node, answer);
        }
    }

    /// The greatest trim that is held, 0 where none is.
    #[tactic(auto, unfolding(crate::specs::Slots::filled_from))]
    pub fn trim(&self) -> Lsn
        ensures { result ≡ trim_held self.now }
    {
        let mut greatest = Lsn::from_u64(0);
        for slot in &self.answers {
            if let Some(answer) = slot {
                greatest = greatest.max(answer.trim());
            }
        }
        greatest
    }

    /// The record under the number in the lowest node's page that has one.
    #[tactic(auto, unfolding(crate::specs::Slots::filled_from))]
    pub fn record(&self, number: Lsn) -> Option<&Payload>
        ensures { option_copied result ≡ record_held number self.now }
    {
        for slot in &self.answers {
            if let Some(answer) = slot
                && let Some(payload) = answer.record_at(number)
            {
                return Some(payload);
            }
        }
        None
    }

    /// Whether a page has a hole under the number.
    #[tactic(auto, unfolding(crate::specs::Slots::filled_from))]
    pub fn has_hole(&self, number: Lsn) -> bool
        ensures { result ≡ hole_held number self.now }
    {
        for slot in &self.answers {
            if let Some(answer) = slot
                && answer.has_hole_at(number)
            {
                return true;
            }
        }
        false
    }

    /// Whether a page has a plug under the number.
    #[tactic(auto, unfolding(crate::specs::Slots::filled_from))]
    pub fn has_plug(&self, number: Lsn) -> bool
        ensures { result ≡ plug_held number self.now }
    {
        for slot in &self.answers {
            if let Some(answer) = slot
                && answer.has_plug_at(number)
            {
                return true;
            }
        }
        false
    }

    /// Whether a page withholds a record under the number.
    #[tactic(auto, unfolding(crate::specs::Slots::filled_from))]
    pub fn withholds(&self, number: Lsn) -> bool
        ensures { result ≡ withheld_held number self.now }
    {
        for slot in &self.answers {
            if let Some(answer) = slot
                && answer.withholds(number)
            {
                return true;
            }
        }
        false
    }

    /// Whether the sender of the number, where there is one, sent nothing of it in the round: its
    /// answer of that round is a page that covers the number and lacks it, or says that it is lost.
    pub fn lacks_copy(&self, round: u32, number: Lsn, sender: Option<NodeId>) -> bool
        ensures { result ≡ lacks_copy round number sender self.now }
    {
        match sender {
            Some(node) => self.sent_nothing(round, number, node),
            None => false,
        }
    }

    // Whether the node sent nothing of the number in the round.
    fn sent_nothing(&self, round: u32, number: Lsn, node: NodeId) -> bool
        ensures { result ≡ sent_nothing round number (find node self.now) }
    {
        match self.of(node) {
            Some(answer) => answer.round() == round && answer.sends_nothing(number),
            None => false,
        }
    }

    /// Whether what follows the end of the number's epoch is lost, by the lowest node's answer that
    /// says that the epoch ends at the number or before it.
    #[tactic(auto, unfolding(crate::specs::Slots::filled_from))]
    pub fn end(&self, number: Lsn) -> Option<bool>
        ensures { result ≡ end_held number self.now }
    {
        for slot in &self.answers {
            if let Some(answer) = slot
                && let Some(loss) = answer.end_shown(number)
            {
                return Some(loss);
            }
        }
        None
    }

    /// Whether a page reaches the number.
    #[tactic(auto, unfolding(crate::specs::Slots::filled_from))]
    pub fn reaches(&self, number: Lsn) -> bool
        ensures { result ≡ any_of (λ h. reaches number h.1.body) self.now }
    {
        for slot in &self.answers {
            if let Some(answer) = slot
                && answer.reaches(number)
            {
                return true;
            }
        }
        false
    }

    /// The node's answer.
    #[tactic(auto, unfolding(crate::specs::Slots::filled_from))]
    pub fn of(&self, node: NodeId) -> Option<&Answer>
        ensures { option_copied result ≡ find node self.now }
    {
        self.answers[usize::from(node.number()) - 1].as_ref()
    }

    // Whether each node of the set misses the number or is lost for its epoch.
    fn is_open(&self, number: Lsn, set: &NodeSet) -> bool
        ensures { result ≡ all_of (λ y. leaves_open number (find y self.now)) (members set.now) }
    {
        for place in 0..set.len() {
            if let Some(node) = set.nth(place) {
                if !self.leaves_open(number, node) {
                    return false;
                }
            }
        }
        true
    }

    // Whether the node misses the number or is lost for its epoch.
    fn leaves_open(&self, number: Lsn, node: NodeId) -> bool
        ensures { result ≡ leaves_open number (find node self.now) }
    {
        match self.of(node) {
            Some(answer) => answer.lacks(number) || answer.lost_for(number).is_some(),
            None => false,
        }
    }

    // Whether a node of the set is lost for the number's epoch.
    #[tactic(auto, unfolding(crate::specs::Slots::filled_from))]
    fn has_lost(&self, number: Lsn, set: &NodeSet) -> bool
        ensures { result ≡ any_of (λ h. is_lost_for number h.1.body) (within (members set.now) self.now) }
    {
        for (place, slot) in self.answers.iter().enumerate() {
            if let Some(answer) = slot
                && stands_in(set, place)
                && answer.lost_for(number).is_some()
            {
                return true;
            }
        }
        false
    }

    // Whether an answer of a node of the set shows that the number's epoch ends above the number.
    #[tactic(auto, unfolding(crate::specs::Slots::filled_from))]
    fn knows_end_above(&self, number: Lsn, set: &NodeSet) -> bool
        ensures { result ≡ any_of (λ h. knows_end_above number h.1.body) (within (members set.now) self.now) }
    {
        for (place, slot) in self.answers.iter().enumerate() {
            if let Some(answer) = slot
                && stands_in(set, place)
                && answer.knows_end_above(number)
            {
                return true;
            }
        }
        false
    }

    /// Whether each node of the set misses the number or is lost for its epoch, one of them at least is
    /// lost, and one at least shows that the epoch ends above the number.
    #[tactic(auto, unfolding(ld_msg::specs::Reading::is_loss))]
    pub fn is_loss(&self, number: Lsn, set: &NodeSet) -> bool
        ensures { result ≡ is_loss number (members set.now) self.now }
    {
        self.is_open(number, set) && self.has_lost(number, set) && self.knows_end_above(number, set)
    }

    /// The nodes of the set that are lost for the number's epoch, each with its generation.
    pub fn lost(&self, number: Lsn, set: &NodeSet) -> Lost
        ensures { result ≡ lost_held number (within (members set.now) self.now) }
    {
        let mut generations = [None; 16];
        for (place, slot) in self.answers.iter().enumerate() {
            generations[place] = told_by(slot, stands_in(set, place), number);
        }
        Lost::of(generations)
    }
}

// The generation under which the slot's node is lost for the number's epoch, where it counts.
fn told_by(slot: &Option<Answer>, counts: bool, number: Lsn) -> Option<u32>
    ensures { result ≡ generation_within counts number slot.now }
{
    match slot {
        Some(answer) if counts => answer.lost_for(number),
        _ => None,
    }
}

// Whether the node of a slot is in the set, the first slot being node 1's.
fn stands_in(set: &NodeSet, place: usize) -> bool
    requires { place < 16 }
    ensures { result ≡ is_in (place + 1) (members set.now) }
{
    match NodeId::new(place as u8 + 1) {
        Some(node) => set.has(node),
        None => false,
    }
}
