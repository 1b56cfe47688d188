// The two slots behind the head.
ghost use Rattle.std.specs.Prelude.{◌≡◌};
ghost use Rattle.ld_segment.specs.Slots.{second_counts, current, says_bytes};

use byteorder::{BigEndian, ByteOrder};

/// A slot: whether its gate is open, the number of the switch that wrote it, and the offset of that switch's segment.
#[derive(Clone, Copy)]
pub struct Slot {
    pub open: bool,
    pub number: u64,
    pub place: u64,
}

/// Whether the second of two slots counts: it is open, and the first isn't, or is of a lesser number.
pub fn second_counts(one: Slot, two: Slot) -> bool
    ensures { result ≡ second_counts one two }
{
    two.open && (!one.open || one.number < two.number)
}

/// The slot that counts: of the open ones the one of the greater number.
pub fn current(one: Slot, two: Slot) -> Option<Slot>
    ensures { result ≡ current one two }
{
    if second_counts(one, two) {
        Some(two)
    } else if one.open {
        Some(one)
    } else {
        None
    }
}

/// What stands behind a slot's gate: the number and the offset, eight bytes each.
pub fn says(number: u64, place: u64) -> [u8; 16]
    ensures { result ≡ says_bytes number place }
{
    let mut bytes = [0; 16];
    BigEndian::write_u64(&mut bytes[..8], number);
    BigEndian::write_u64(&mut bytes[8..], place);
    bytes
}
