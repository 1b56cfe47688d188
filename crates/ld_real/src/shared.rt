// What a disk asks of an open file, so that a test can stand in for it.
use std::fs::{File, OpenFile, TryLockError};
use std::io;
use std::io::ErrorKind;
use std::os::fd::AsRawFd;
use std::os::unix::fs::FileExt;

/// An open file that other processes may have open too. Its lock is advisory, belongs to this opening of the file, and ends
/// with it, also where the process is killed.
pub trait SharedFile: FileExt + OpenFile + Drop {
    /// Waits until no other opening of the file has its lock, and takes it.
    fn lock(&self) -> io::Result<()>;

    /// Takes the file's lock, and fails with `WouldBlock` where another opening of the file has it.
    fn try_lock(&self) -> io::Result<()>;

    /// Drops what the system holds of the file in memory and has written, so that the next read comes from the disk.
    fn forget(&self) -> io::Result<()>;
}

impl SharedFile for File {
    fn lock(&self) -> io::Result<()> {
        File::lock(self)
    }

    fn try_lock(&self) -> io::Result<()> {
        match File::try_lock(self) {
            Ok(()) => Ok(()),
            Err(TryLockError::WouldBlock) => Err(ErrorKind::WouldBlock.into()),
            Err(TryLockError::Error(error)) => Err(error),
        }
    }

    fn forget(&self) -> io::Result<()> {
        match libc::posix_fadvise(self.as_raw_fd(), 0, 0, libc::POSIX_FADV_DONTNEED) {
            0 => Ok(()),
            code => Err(io::Error::from_raw_os_error(code)),
        }
    }
}
