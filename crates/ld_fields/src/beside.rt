// What may stand beside records, holes and plugs.

/// What may stand beside records, holes and plugs where entries are read.
#[derive(Clone, Copy)]
pub enum Beside {
    /// Bridges: among what nodes keep and tell sequencers.
    Bridges,
    /// Nothing: in pages to nodes.
    Nothing,
    /// Withheld records: in pages to readers.
    Withheld,
}
