// A disk over a file.
ghost use Rattle.std.specs.Prelude.{◌≡◌, ◌<◌, ◌≤◌, ◌^◌, length, None, Some, Ok, IfOk, IfErr, OnOk, OnErr, is_ok, is_some, true, false};
ghost use Rattle.std.specs.IoError.{error_kind};
ghost use Rattle.ld_io.specs.Causes.{HasCause};

use crate::SharedFile;
use crate::opening::{Sharing, open, room_for_name};
use ld_disk::{Disk, Fault};
use ld_io::{Failed, NoMemory};
use std::alloc::Global;
use std::io;
use std::io::ErrorKind;
use std::rt::Files;

/// A disk over a file, which is opened at the first call. What an earlier process couldn't bring to the disk is settled
/// then, before anything is read.
///
/// A `sync` that answers Ok has brought all bytes to the disk. Once one has failed no later one succeeds, since the
/// system may have dropped what it couldn't write.
#[derive(Drop)]
pub struct FileDisk<'a, R: Files<File = F>, F: SharedFile> {
    rt: &'a R,
    path: &'a str,
    sharing: Sharing,
    name: Option<String>,
    file: Option<F>,
    sync_failed: bool,
    faults: u64,
    cause: Option<ErrorKind>,
}

impl<'a, R: Files<File = F>, F: SharedFile> FileDisk<'a, R, F> {
    /// A disk over the file at this path, which isn't opened yet. No call has failed yet. A file that isn't there is made
    /// with the byte 0, and is safe from a crash before that call answers. As long as the disk lives no other process opens
    /// the file so: the first call fails where one has.
    pub fn new(alloc: Global, rt: &'a R, path: &'a str) -> Result<FileDisk<'a, R, F>, NoMemory>
        ensures path { IfOk result (λ disk. disk.path.now ≡ path.now) }
        ensures faults { IfOk result (λ disk. disk.faults ≡ 0) }
    {
        let name = room_for_name(alloc, path)?;
        Ok(FileDisk::over(rt, path, Sharing::Alone, Some(name)))
    }

    /// The same, but each opening waits until the other processes that open the file in turn have closed it.
    pub(crate) fn made_in_turn(
        alloc: Global,
        rt: &'a R,
        path: &'a str,
    ) -> Result<FileDisk<'a, R, F>, NoMemory>
        ensures path { IfOk result (λ disk. disk.path.now ≡ path.now) }
        ensures faults { IfOk result (λ disk. disk.faults ≡ 0) }
    {
        let name = room_for_name(alloc, path)?;
        Ok(FileDisk::over(rt, path, Sharing::InTurn, Some(name)))
    }

    /// A disk over the file at this path, which is there: where it isn't, each call fails and makes none. It isn't opened yet,
    /// and no call has failed yet. As long as the disk lives no other process opens the file so: the first call fails where
    /// one has.
    pub fn there(rt: &'a R, path: &'a str) -> FileDisk<'a, R, F>
        ensures path { result.path.now ≡ path.now }
        ensures faults { result.faults ≡ 0 }
    {
        FileDisk::over(rt, path, Sharing::Alone, None)
    }

    /// The same, but each opening waits until the other processes that open the file in turn have closed it.
    pub fn in_turn(rt: &'a R, path: &'a str) -> FileDisk<'a, R, F>
        ensures path { result.path.now ≡ path.now }
        ensures faults { result.faults ≡ 0 }
    {
        FileDisk::over(rt, path, Sharing::InTurn, None)
    }

    /// Over a file that is there and that is only read, while other processes may change it.
    pub(crate) fn shared(rt: &'a R, path: &'a str) -> FileDisk<'a, R, F>
        ensures path { result.path.now ≡ path.now }
        ensures faults { result.faults ≡ 0 }
    {
        FileDisk::over(rt, path, Sharing::Shared, None)
    }

    fn over(rt: &'a R, path: &'a str, sharing: Sharing, name: Option<String>) -> FileDisk<'a, R, F>
        ensures path { result.path.now ≡ path.now }
        ensures faults { result.faults ≡ 0 }
    {
        FileDisk {
            rt,
            path,
            sharing,
            name,
            file: None,
            sync_failed: false,
            faults: 0,
            cause: None,
        }
    }

    /// The system's reason for the last call that failed.
    pub fn cause(&self) -> Option<ErrorKind>
        ensures { result ≡ self.now.cause }
    {
        self.cause
    }

    /// Opens the file where it isn't open.
    fn open(&mut self) -> io::Result<()>
        ensures faults { self.new.faults ≡ self.old.faults }
        ensures sync_failed { self.new.sync_failed ≡ self.old.sync_failed }
        ensures open { is_ok result ≡ is_some self.new.file }
    {
        if self.file.is_none() {
            self.file = Some(open(self.rt, self.path, self.sharing, &mut self.name)?);
        }
        Ok(())
    }

    fn try_read(&mut self, at: u64, buf: &mut [u8]) -> io::Result<usize>
        ensures faults { self.new.faults ≡ self.old.faults }
        ensures bound { IfOk result (λ n. n ≤ length buf.new) }
        ensures len { length buf.new ≡ length buf.old }
    {
        self.open()?;
        match &self.file {
            Some(file) => read_whole(file, at, buf),
            None => Err(ErrorKind::NotConnected.into()),
        }
    }

    fn try_write(&mut self, at: u64, bytes: &[u8]) -> io::Result<()>
        ensures faults { self.new.faults ≡ self.old.faults }
    {
        self.open()?;
        opened(&self.file)?.write_all_at(bytes, at)
    }

    /// Fails too where an earlier one of the open file has failed.
    fn try_sync(&mut self) -> io::Result<()>
        ensures faults { self.new.faults ≡ self.old.faults }
        ensures works { OnOk result ((self.old.sync_failed ≡ false) × (self.new.sync_failed ≡ false)) }
        ensures fails { OnErr result (is_some self.new.file ≡ true → self.new.sync_failed ≡ true) }
        ensures stays { self.old.sync_failed ≡ true → self.new.sync_failed ≡ true }
    {
        self.open()?;
        if self.sync_failed {
            return Err(ErrorKind::Other.into());
        }
        let answer = sync_data(opened(&self.file)?);
        self.sync_failed = answer.is_err();
        answer
    }

    fn try_len(&mut self) -> io::Result<u64>
        ensures faults { self.new.faults ≡ self.old.faults }
    {
        self.open()?;
        Ok(opened(&self.file)?.metadata()?.len())
    }

    /// Counts a call that failed.
    fn count<T: Drop>(&mut self, answer: io::Result<T>) -> Result<T, Failed>
        ensures cause { HasCause self.old.faults self.new.faults result }
        ensures value { IfOk result (λ v. answer ≡ Ok v) }
        ensures told { IfErr answer (λ error. self.new.cause ≡ Some (error_kind error)) }
    {
        match answer {
            Ok(value) => Ok(value),
            Err(error) => {
                self.faults = self.faults.saturating_add(1);
                self.cause = Some(error.kind());
                Err(Failed)
            }
        }
    }
}

/// The file that was opened.
fn opened<F: SharedFile>(file: &Option<F>) -> io::Result<&F>
    ensures { is_ok result ≡ is_some file.now }
{
    match file {
        Some(file) => Ok(file),
        None => Err(ErrorKind::NotConnected.into()),
    }
}

/// Reads until the buffer is full or the file ends, and says how much was read.
fn read_whole<F: SharedFile>(file: &F, at: u64, buf: &mut [u8]) -> io::Result<usize>
    ensures bound { IfOk result (λ n. n ≤ length buf.new) }
    ensures len { length buf.new ≡ length buf.old }
{
    let mut done = 0;
    'pieces: for _ in 0..u64::MAX {
        if done >= buf.len() {
            break;
        }
        match file.read_at(&mut buf[done..], at.wrapping_add(done as u64)) {
            Ok(0) => break,
            Ok(count) => done += count,
            Err(error) if error.kind() == ErrorKind::Interrupted => {}
            Err(error) => return Err(error),
        }
    }
    Ok(done)
}

/// Brings the bytes to the disk, and their number where that grew.
fn sync_data<F: SharedFile>(file: &F) -> io::Result<()> {
    for _ in 0..u64::MAX {
        match file.sync_data() {
            Err(error) if error.kind() == ErrorKind::Interrupted => {}
            answer => return answer,
        }
    }
    Err(ErrorKind::Interrupted.into())
}

impl<'a, R: Files<File = F>, F: SharedFile> Disk for FileDisk<'a, R, F> {
    ghost use Rattle.std.specs.Prelude.{◌≡◌, ◌<◌, ◌≤◌, ◌^◌, ℕ, List, None, Some};
    ghost use Rattle.std.specs.Option.{option_map};
    ghost use Rattle.ld_real.specs.Telling.{nothing_told};

    ghost seen = { λ _. None };

    ghost may_leave = { λ _ _. Unit {0} };

    ghost moment = { λ _. 0 };

    ghost left_since = { λ _ _ _. Unit {0} };

    ghost plain = { λ _. None };

    ghost room = { λ _. 2 ^ 64 };

    ghost reach = { λ _. 2 ^ 65 };

    ghost faults = { λ d. d.faults };

    ghost identity = { λ _. 0 };

    ghost reads_an_image = { λ _ _ _. tt };

    ghost plain_is_seen = { λ _ p is. nothing_told p is };

    ghost counts_now = { λ _ _ _ _ _. tt };

    ghost only_now = { λ _ _ _. tt };

    fn read(&mut self, at: u64, buf: &mut [u8]) -> Result<usize, Failed> {
        let answer = self.try_read(at, buf);
        self.count(answer)
    }

    fn write_at(&mut self, at: u64, bytes: &[u8]) -> Result<(), Failed> {
        let answer = self.try_write(at, bytes);
        self.count(answer)
    }

    fn sync(&mut self) -> Result<(), Failed> {
        let answer = self.try_sync();
        self.count(answer)
    }

    fn len(&mut self) -> Result<u64, Failed> {
        let answer = self.try_len();
        self.count(answer)
    }

    fn reserve(&mut self, _end: u64, _calls: u64) -> Result<(), NoMemory> {
        Ok(())
    }

    fn arm(&mut self, _fault: Fault) {}
}
