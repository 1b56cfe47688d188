// What a reader makes of the answers that it holds.
use crate::Lost;
use ld_ids::Payload;
use ld_lsn::Lsn;

/// What a reader is given next.
#[derive(Drop)]
pub enum Item<'a> {
    /// All from the next number to this one is trimmed.
    Trim(Lsn),
    /// The next number holds this record, which stands in a held page.
    Record(&'a Payload),
    /// The next number holds no record.
    Hole,
    /// No record stands from the next number to the end of this epoch.
    Bridge(u32),
    /// The record of the next number is lost, if it had one.
    Loss,
    /// The records from the next number to the end of this epoch are lost, where there were any.
    LossTo(u32),
}

/// An item, or what else follows from the answers.
#[derive(Drop)]
pub enum Verdict<'a> {
    /// The reader is given an item.
    Gives(Item<'a>),
    /// These nodes are to be asked once more: if they are lost still, the next number is lost.
    Confirms(Lost),
    /// All nodes are to be asked for the next number, each for the payload too: some withhold its
    /// record, and the node that was to send it hasn't.
    AsksAll,
    /// Nothing is known of the next number.
    NotYet,
}
