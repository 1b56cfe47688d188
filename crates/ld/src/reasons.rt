// The system's reasons, as a person is told them.
use std::io::ErrorKind;

/// Why a call of a file failed.
pub fn file_reason(cause: Option<ErrorKind>) -> &'static str {
    match cause {
        Some(ErrorKind::NotFound) => "there is no such file or folder",
        Some(ErrorKind::PermissionDenied) => "permission denied",
        Some(ErrorKind::IsADirectory) => "it is a folder",
        Some(ErrorKind::NotADirectory) => "a part of its path is no folder",
        Some(ErrorKind::InvalidFilename) => "the name is too long",
        Some(ErrorKind::FilesystemLoop) => "too many symbolic links",
        Some(ErrorKind::WouldBlock) => "in use by another process",
        Some(ErrorKind::StorageFull) => "no space is left",
        Some(ErrorKind::QuotaExceeded) => "no space is left to this user",
        Some(ErrorKind::FileTooLarge) =>
            "the file is too large for this file system or this process",
        Some(ErrorKind::ReadOnlyFilesystem) => "the file system is read-only",
        Some(ErrorKind::Unsupported) => "the file system lacks hard links or locks",
        Some(ErrorKind::AlreadyExists) =>
            "there are too many files of its name that end in .new and a number",
        Some(ErrorKind::OutOfMemory) => "out of memory",
        _ => "input or output error",
    }
}

/// Why a port can't be listened on.
pub fn port_reason(cause: Option<ErrorKind>) -> &'static str {
    match cause {
        Some(ErrorKind::AddrInUse) => "it is in use",
        Some(ErrorKind::PermissionDenied) => "permission denied",
        _ => "the system has no socket for it",
    }
}

/// Why an address can't be listened on.
pub fn address_reason(cause: Option<ErrorKind>) -> &'static str {
    match cause {
        Some(ErrorKind::AddrNotAvailable) => "it is no address of this machine",
        Some(ErrorKind::Uncategorized) => "the resolver doesn't know its name",
        _ => port_reason(cause),
    }
}
