// What failed of a link, for a person.
use std::io::ErrorKind;

/// Which nodes were dialed last in vain, or by a connection that failed later, and the system's reason for the last call that
/// failed. It changes no answer.
#[derive(Clone, Copy)]
pub struct Tried {
    present: u8,
    failed: u32,
    cause: Option<ErrorKind>,
}

/// The bit of a node in a set; none of a number above 31.
fn bit_of(node: u8) -> u32 {
    match 1u32.checked_shl(u32::from(node)) {
        Some(bit) => bit,
        None => 0,
    }
}

impl Tried {
    /// Nothing was tried yet.
    pub(crate) fn new() -> Tried {
        Tried {
            present: 0,
            failed: 0,
            cause: None,
        }
    }

    /// A node is dialed.
    pub(crate) fn dials(&mut self, node: u8) {
        self.present = node;
        self.failed &= !bit_of(node);
    }

    /// A call failed: of the node that was dialed last, where one was.
    pub(crate) fn fails(&mut self, cause: ErrorKind) {
        self.failed |= bit_of(self.present);
        self.cause = Some(cause);
    }

    /// Whether a call failed since the node was dialed last.
    pub fn has_failed(&self, node: u8) -> bool {
        self.failed & bit_of(node) != 0
    }

    /// The system's reason for the last call that failed.
    pub fn cause(&self) -> Option<ErrorKind> {
        self.cause
    }
}
