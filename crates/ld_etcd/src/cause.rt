// Why a call to etcd failed.
use std::alloc::{AllocError, AllocFailed};
use std::io::ErrorKind;
use thiserror::Error;

/// Why a call to etcd failed.
#[derive(Clone, Copy, Debug, PartialEq, Eq, Error)]
pub enum Cause {
    /// No member took a connection. Nothing was sent.
    #[error("no member took a connection: {0}")]
    Unreachable(ErrorKind),
    /// The connection broke, or the answer didn't come within the limit.
    #[error("a member took a connection and didn't answer: {0}")]
    Unanswered(ErrorKind),
    /// What came is no HTTP response, or one that is longer than 16 MiB.
    #[error("a member's answer is no HTTP response of at most 16 MiB")]
    NoResponse,
    /// The response has another status than 200.
    #[error("a member answered with status {0}")]
    Status(u16),
    /// The response isn't what etcd answers.
    #[error("a member's answer isn't etcd's")]
    NotEtcd,
    /// etcd's database is full.
    #[error("etcd's database is full")]
    Full,
    /// What stands under the key of the record of this number, or of a later one, is no record.
    #[error("record {0} is none")]
    NoRecord(u64),
    /// There is no memory left.
    #[error("out of memory")]
    NoMemory,
}

impl From<AllocError> for Cause {
    fn from(_: AllocError) -> Cause {
        Cause::NoMemory
    }
}

impl<T: Drop> From<AllocFailed<T>> for Cause {
    fn from(_: AllocFailed<T>) -> Cause {
        Cause::NoMemory
    }
}
