// The greatest numbers.

/// The greatest epoch of a sequencer.
pub const GREATEST_EPOCH: u32 = u32::MAX - 1;

/// The greatest last known good offset.
pub const GREATEST_LNG: u32 = u32::MAX - 1;
