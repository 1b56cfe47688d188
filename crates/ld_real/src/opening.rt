// How the file of a disk is opened, so that processes beside one another lose nothing.
use crate::SharedFile;
use std::alloc::{AllocError, Global};
use std::fmt::Write;
use std::fs::OpenOptions;
use std::io::ErrorKind;
use std::os::unix::fs::MetadataExt;
use std::path::Path;
use std::rt::Files;
use std::{fs, io};

/// How often a file is opened anew whose path names another file by then, and how many names a new file is tried under.
const TRIES: u32 = 100;

/// What other processes may do with the file while a disk has it open.
#[derive(Clone, Copy, PartialEq, Eq)]
pub(crate) enum Sharing {
    /// Nothing: the opening fails where another process has it open so.
    Alone,
    /// They wait until it is closed, as this one waits for them.
    InTurn,
    /// They may change it.
    Shared,
}

/// Opens the file. Where it isn't there it is made with the byte 0, if there is the text for a name that it is made under.
///
/// A lock is that of the file itself, and not of another one beside it: so it is one lock by whatever path the file is
/// reached. A lock that was waited for counts only where the path still names that file.
pub(crate) fn open<R: Files<File = F>, F: SharedFile>(
    rt: &R,
    path: &str,
    sharing: Sharing,
    name: &mut Option<String>,
) -> io::Result<F> {
    for _ in 0..TRIES {
        let file = found(rt, path, sharing, name)?;
        if is_taken(rt, path, sharing, &file)? {
            settle(rt, path, &file)?;
            return Ok(file);
        }
    }
    Err(ErrorKind::ResourceBusy.into())
}

/// Opens the file as it is there, or makes it.
fn found<R: Files<File = F>, F: SharedFile>(
    rt: &R,
    path: &str,
    sharing: Sharing,
    name: &mut Option<String>,
) -> io::Result<F> {
    let opened = there(rt, path, sharing);
    if !is_missing(&opened) {
        return opened;
    }
    match name {
        Some(name) => {
            make(rt, path, name)?;
            there(rt, path, sharing)
        }
        None => opened,
    }
}

/// Opens the file as it is there. What is shared is only read.
fn there<R: Files<File = F>, F: SharedFile>(rt: &R, path: &str, sharing: Sharing) -> io::Result<F> {
    OpenOptions::new()
        .read(true)
        .write(sharing != Sharing::Shared)
        .open(rt, path)
}

/// Whether nothing has this path.
fn is_missing<T>(opened: &io::Result<T>) -> bool {
    match opened {
        Ok(_) => false,
        Err(error) => error.kind() == ErrorKind::NotFound,
    }
}

/// Takes the file's lock, and says whether the path names the file then. What is shared needs no lock.
fn is_taken<R: Files<File = F>, F: SharedFile>(
    rt: &R,
    path: &str,
    sharing: Sharing,
    file: &F,
) -> io::Result<bool> {
    match sharing {
        Sharing::Alone => file.try_lock()?,
        Sharing::InTurn => file.lock()?,
        Sharing::Shared => return Ok(true),
    }
    let named = match fs::metadata(rt, path) {
        Ok(named) => named,
        Err(error) if error.kind() == ErrorKind::NotFound => return Ok(false),
        Err(error) => return Err(error),
    };
    let own = file.metadata()?;
    Ok(named.dev() == own.dev() && named.ino() == own.ino())
}

/// Brings to the disk what an earlier process has written and not synced, and drops what the system holds of the file: after
/// a sync that failed, that may be other than what the disk has. The folder is synced too, since it names the file.
fn settle<R: Files<File = F>, F: SharedFile>(rt: &R, path: &str, file: &F) -> io::Result<()> {
    file.sync_all()?;
    file.forget()?;
    fs::open(rt, folder_of(path))?.sync_all()
}

/// Makes the file with the byte 0. It is written under another name, and gets its own once it is safe from a crash: so no
/// process finds it without that byte, whenever this one is killed. Where the path names a file by then, that one stays.
fn make<R: Files<File = F>, F: SharedFile>(
    rt: &R,
    path: &str,
    name: &mut String,
) -> io::Result<()> {
    for number in 0..TRIES {
        spell(name, path, number)?;
        let made = OpenOptions::new()
            .write(true)
            .create_new(true)
            .open(rt, name.as_str());
        match made {
            Ok(file) => {
                let answer = begin(rt, path, name.as_str(), &file);
                let _ = fs::remove_file(rt, name.as_str());
                return answer;
            }
            // another process makes one, or was killed as it did
            Err(error) if error.kind() == ErrorKind::AlreadyExists => {}
            Err(error) => return Err(error),
        }
    }
    Err(ErrorKind::AlreadyExists.into())
}

/// Writes the byte 0, syncs the file, and gives it its own name where that isn't taken.
fn begin<R: Files<File = F>, F: SharedFile>(
    rt: &R,
    path: &str,
    name: &str,
    file: &F,
) -> io::Result<()> {
    file.write_all_at(&[0], 0)?;
    file.sync_all()?;
    match fs::hard_link(rt, name, path) {
        Err(error) if error.kind() == ErrorKind::AlreadyExists => Ok(()),
        answer => answer,
    }
}

/// How many bytes a name has more than the path that it is for.
const MORE: usize = 16;

/// The text for a name that a new file at this path is made under. It is empty, and has room for each of them.
pub(crate) fn room_for_name(alloc: Global, path: &str) -> Result<String, AllocError> {
    String::with_capacity(alloc, path.len().saturating_add(MORE))
}

/// Spells the name of this number.
fn spell(name: &mut String, path: &str, number: u32) -> io::Result<()> {
    name.clear();
    name.push_str(path)?;
    name.push_str(".new")?;
    write!(name, "{number}")?;
    Ok(())
}

/// The folder that names the file.
fn folder_of(path: &str) -> &str {
    match Path::new(path).parent() {
        Some(folder) if !folder.as_str().is_empty() => folder.as_str(),
        _ => ".",
    }
}
