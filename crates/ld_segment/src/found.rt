// Which of the slots behind the head counts.
ghost use Rattle.std.specs.Prelude.{◌≡◌, ◌<◌, ◌+◌, ◌^◌, List, ℕ, None, IfSome};
ghost use Rattle.ld_segment.specs.Slots.{IsSlotAt};

use crate::{Slot, second_counts};

/// The offset of the slot that counts and of the other one, whether that is open, and what the first says: the number of
/// its switch, and the offset of that switch's segment.
#[derive(Clone, Copy)]
pub struct Found {
    pub this: u64,
    pub other: u64,
    pub is_open: bool,
    pub number: u64,
    pub place: u64,
}

impl Found {
    ghost use Rattle.ld_segment.specs.Found.{IsFound, IsNoneTold};

    /// Of two slots, the first of which stands at an offset, the one that counts.
    #[tactic(auto, using(crate::proofs::FoundSlots::found_second, crate::proofs::FoundSlots::found_first))]
    pub(crate) fn of(head: u64, one: Slot, two: Slot) -> Option<Found>
        requires bound { head + 34 < 2 ^ 64 }
        ensures found { (bytes : List ℕ) → IsSlotAt head one bytes → IsSlotAt (head + 17) two bytes → IfSome result (λ c. IsFound head c bytes) }
        ensures none { (bytes : List ℕ) → IsSlotAt head one bytes → IsSlotAt (head + 17) two bytes → result ≡ None → IsNoneTold head bytes }
    {
        if second_counts(one, two) {
            return Some(Found {
                this: head + 17,
                other: head,
                is_open: one.open,
                number: two.number,
                place: two.place,
            });
        }
        if second_counts(two, one) {
            return Some(Found {
                this: head,
                other: head + 17,
                is_open: two.open,
                number: one.number,
                place: one.place,
            });
        }
        None
    }
}
