// The files that a command names.
use ld_io::NoMemory;
use ld_real::FileDisk;
use ld_words::{Command, Places, read};
use std::fs;
use std::fs::{File, Metadata};
use std::io::ErrorKind;
use std::os::unix::fs::MetadataExt;
use std::path::Path;

/// The file of the store; a command that has none opens none.
pub fn store_of(places: &Places) -> &str {
    match &places.store {
        Some(store) => store.as_str(),
        None => "",
    }
}

/// Whether the command is for the store of a stopped node, which has one.
fn is_stopped(rt: &HostRuntime, words: &[String]) -> Result<bool, NoMemory> {
    match read(rt.alloc(), words) {
        Ok(Some(Command::Mend(_) | Command::Replace(_) | Command::Show(_))) => Ok(true),
        Ok(_) => Ok(false),
        Err(_) => Err(NoMemory),
    }
}

/// The store's disk. A node that serves makes a file that isn't there; for a stopped one it fails.
pub fn disk_of<'a>(
    rt: &'a HostRuntime,
    words: &[String],
    places: &'a Places,
) -> Result<FileDisk<'a, HostRuntime, File>, NoMemory> {
    if is_stopped(rt, words)? {
        return Ok(FileDisk::there(rt, store_of(places)));
    }
    FileDisk::new(rt.alloc(), rt, store_of(places))
}

/// Whether the store and the register are one file, by whatever paths. Where neither is there yet, a symbolic link may name
/// the other one once that is made: it counts as that. A command that only shows a store has no register.
pub fn are_one_file(rt: &HostRuntime, places: &Places) -> bool {
    let register = places.register.as_str();
    match &places.store {
        Some(store) if !register.is_empty() => is_one_file(rt, store.as_str(), register),
        _ => false,
    }
}

/// Whether two paths name one file; of paths that name none yet, whether they are one name in one folder.
fn is_one_file(rt: &HostRuntime, one: &str, other: &str) -> bool {
    match (fs::metadata(rt, one), fs::metadata(rt, other)) {
        (Ok(one), Ok(other)) => is_same(&one, &other),
        (Err(_), Err(_)) => is_link(rt, one) || is_link(rt, other) || is_one_name(rt, one, other),
        _ => false,
    }
}

/// Whether nothing has this path.
pub fn is_missing(rt: &HostRuntime, path: &str) -> bool {
    match fs::metadata(rt, path) {
        Ok(_) => false,
        Err(error) => error.kind() == ErrorKind::NotFound,
    }
}

/// Whether the path is that of a symbolic link.
fn is_link(rt: &HostRuntime, path: &str) -> bool {
    match fs::symlink_metadata(rt, path) {
        Ok(found) => found.is_symlink(),
        Err(_) => false,
    }
}

/// Whether two paths end in one name, in one folder.
fn is_one_name(rt: &HostRuntime, one: &str, other: &str) -> bool {
    if name_of(one) != name_of(other) {
        return false;
    }
    match (
        fs::metadata(rt, folder_of(one)),
        fs::metadata(rt, folder_of(other)),
    ) {
        (Ok(one), Ok(other)) => is_same(&one, &other),
        _ => false,
    }
}

/// Whether these are of one file or folder.
fn is_same(one: &Metadata, other: &Metadata) -> bool {
    one.dev() == other.dev() && one.ino() == other.ino()
}

/// The last name of a path.
fn name_of(path: &str) -> &str {
    match path.rsplit_once('/') {
        Some((_, name)) => name,
        None => path,
    }
}

/// The folder of a path.
fn folder_of(path: &str) -> &str {
    match Path::new(path).parent() {
        Some(folder) if !folder.as_str().is_empty() => folder.as_str(),
        _ => ".",
    }
}
