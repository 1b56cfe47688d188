// What stands in a journal.
ghost use Rattle.std.specs.Prelude.{◌≡◌};
ghost use Rattle.ld_op.specs.Bytes.{record_bytes};

use crate::Op;

/// A record of a node's journal. Since the second version of journals a format says it, and a close says whether
/// something is lost; a journal of the first is of the second from a mark on.
#[derive(Drop)]
pub enum Record {
    /// An op, as it is written now.
    Now(Op),
    /// A format or a close as the first version wrote it: of the close nothing is told lost.
    Before(Op),
    /// The records behind it are of the second version. It changes nothing else.
    Mark,
}

impl Record {
    /// The bytes of a mark.
    pub fn mark_bytes() -> [u8; 2]
        ensures { result ≡ record_bytes Record.Mark }
    {
        [11, 2]
    }
}
