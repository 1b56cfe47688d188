// Rounds that begin where no item follows any more.

use ld_gap::Lost;

/// What follows once no row of the table gives an item any more.
#[derive(Drop)]
pub enum Ending {
    /// These nodes are to be asked once more.
    Confirms(Lost),
    /// All nodes are to be asked, each for the payload too.
    AsksAll,
    /// Nothing.
    NotYet,
}

/// A round that begins.
#[derive(Drop)]
pub enum Round {
    /// All nodes that its look showed are asked, each with all that it has where it is `full`; where
    /// `twice`, they are asked under the next round too.
    Over { full: bool, twice: bool },
    /// These lost nodes are asked once more.
    Again(Lost),
}
