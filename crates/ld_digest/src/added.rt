// Pages, and what becomes of them.
use ld_lsn::Lsn;
use ld_msg::Entries;

/// A node's page: which entries of the epoch stand there from a number up to another, the node's
/// trim, and the last known good offset of the epoch that it was told.
#[derive(Clone, Copy)]
pub struct Page<'a> {
    pub from: Lsn,
    pub upto: Lsn,
    pub trim: Lsn,
    pub lng: u32,
    pub entries: &'a Entries,
}

/// What becomes of a page.
#[derive(Clone, Copy)]
pub enum Added {
    /// It is taken, and the node is to be asked on from this number.
    Ask(Lsn),
    /// It is taken, and with it the node's pages reach the epoch's end.
    Whole,
    /// It doesn't begin at the number that the node was asked from last, or the node is whole.
    Ignored,
}
