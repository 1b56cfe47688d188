// What disks and registers over files ask of the system, in which order: over files that write down each call.
use ld_disk::Disk;
use ld_ids::{LogId, NodeId};
use ld_real::{FileDisk, FileRegister, SharedFile};
use ld_register::Register;
use std::alloc::{Allocator, Global};
use std::cell::{Cell, RefCell};
use std::fs::{Metadata, OpenFile, OpenOptions};
use std::io;
use std::io::{ErrorKind, Read, Seek, SeekFrom, Write};
use std::os::unix::fs::FileExt;
use std::rt::Files;
use std::test::Fail;

/// What is written down, and what the system has.
#[derive(Drop)]
struct Kept {
    calls: RefCell<String>,
    /// Whether the file is there that is asked for.
    is_there: Cell<bool>,
    /// Whether a file is there of the first name that a new one is made under.
    is_left: bool,
    /// Whether another process has the file's lock.
    is_locked: bool,
    /// Whether another process makes the file before this one gives it its name.
    is_made: bool,
    /// The call that fails, where one does.
    fails: &'static str,
}

impl Kept {
    /// Nothing was called yet.
    fn new(alloc: Global, is_there: bool) -> Kept {
        Kept {
            calls: RefCell::new(String::new(alloc)),
            is_there: Cell::new(is_there),
            is_left: false,
            is_locked: false,
            is_made: false,
            fails: "",
        }
    }

    /// Writes a call down; fails where it is the one that does.
    fn note(&self, call: &'static str, name: &str) -> io::Result<()> {
        if let Ok(mut calls) = self.calls.try_borrow_mut() {
            let calls = &mut *calls;
            calls.push_str(call)?;
            calls.push_str(" ")?;
            calls.push_str(name)?;
            calls.push_str("\n")?;
        }
        if call == self.fails {
            return Err(ErrorKind::Other.into());
        }
        Ok(())
    }

    /// Whether these are the calls so far.
    fn is(&self, wanted: &str) -> bool {
        match self.calls.try_borrow() {
            Ok(calls) => calls.as_str() == wanted,
            Err(_) => false,
        }
    }
}

/// Files that write down each call.
#[derive(Drop)]
struct Listed<'a> {
    kept: &'a Kept,
}

/// An open file of these.
#[derive(Drop)]
struct ListedFile<'a> {
    kept: &'a Kept,
    name: &'static str,
}

/// The names that are opened.
fn name_of(path: &str) -> &'static str {
    match path {
        "f" => "f",
        "f.new0" => "f.new0",
        "f.new1" => "f.new1",
        "." => ".",
        _ => "another",
    }
}

impl<'a> Files for Listed<'a> {
    type File = ListedFile<'a>;

    type Dir = ListedFile<'a>;

    fn open_file(&self, how: &OpenOptions, path: &str) -> io::Result<ListedFile<'a>> {
        let name = name_of(path);
        if how.asks_create_new() {
            self.kept.note("create", name)?;
            if self.kept.is_left && name == "f.new0" {
                return Err(ErrorKind::AlreadyExists.into());
            }
        } else if how.asks_write() {
            self.kept.note("open", name)?;
        } else {
            self.kept.note("open to read", name)?;
        }
        if name == "f" && !self.kept.is_there.get() {
            return Err(ErrorKind::NotFound.into());
        }
        Ok(ListedFile {
            kept: self.kept,
            name,
        })
    }

    fn open_dir(&self, _path: &str) -> io::Result<ListedFile<'a>> {
        Err(ErrorKind::Unsupported.into())
    }

    fn metadata(&self, path: &str) -> io::Result<Metadata> {
        self.kept.note("name", name_of(path))?;
        Ok(Metadata::of_file(1))
    }

    fn symlink_metadata(&self, path: &str) -> io::Result<Metadata> {
        self.metadata(path)
    }

    fn copy(&self, _from: &str, _to: &str) -> io::Result<u64> {
        Err(ErrorKind::Unsupported.into())
    }

    fn rename(&self, _from: &str, _to: &str) -> io::Result<()> {
        Err(ErrorKind::Unsupported.into())
    }

    fn remove_file(&self, path: &str) -> io::Result<()> {
        self.kept.note("remove", name_of(path))
    }

    fn create_dir(&self, _path: &str) -> io::Result<()> {
        Err(ErrorKind::Unsupported.into())
    }

    fn remove_dir(&self, _path: &str) -> io::Result<()> {
        Err(ErrorKind::Unsupported.into())
    }

    fn remove_dir_all<B: Allocator>(&self, _alloc: B, _path: &str) -> io::Result<()> {
        Err(ErrorKind::Unsupported.into())
    }

    fn hard_link(&self, original: &str, link: &str) -> io::Result<()> {
        self.kept.note("link", name_of(original))?;
        self.kept.is_there.set(name_of(link) == "f");
        if self.kept.is_made {
            return Err(ErrorKind::AlreadyExists.into());
        }
        Ok(())
    }
}

impl<'a> Read for ListedFile<'a> {
    fn read(&mut self, _buf: &mut [u8]) -> io::Result<usize> {
        Err(ErrorKind::Unsupported.into())
    }
}

impl<'a> Write for ListedFile<'a> {
    fn write(&mut self, _buf: &[u8]) -> io::Result<usize> {
        Err(ErrorKind::Unsupported.into())
    }

    fn flush(&mut self) -> io::Result<()> {
        Ok(())
    }
}

impl<'a> Seek for ListedFile<'a> {
    fn seek(&mut self, _to: SeekFrom) -> io::Result<u64> {
        Err(ErrorKind::Unsupported.into())
    }
}

impl<'a> OpenFile for ListedFile<'a> {
    /// One byte long.
    fn metadata(&self) -> io::Result<Metadata> {
        self.kept.note("size", self.name)?;
        Ok(Metadata::of_file(1))
    }

    fn set_len(&self, _size: u64) -> io::Result<()> {
        Err(ErrorKind::Unsupported.into())
    }

    fn sync_all(&self) -> io::Result<()> {
        self.kept.note("sync", self.name)
    }

    fn sync_data(&self) -> io::Result<()> {
        self.kept.note("sync data", self.name)
    }
}

impl<'a> FileExt for ListedFile<'a> {
    /// The one byte 0.
    fn read_at(&self, buf: &mut [u8], offset: u64) -> io::Result<usize> {
        self.kept.note("read", self.name)?;
        if buf.is_empty() || offset > 0 {
            return Ok(0);
        }
        buf[0] = 0;
        Ok(1)
    }

    fn write_at(&self, buf: &[u8], _offset: u64) -> io::Result<usize> {
        self.kept.note("write", self.name)?;
        Ok(buf.len())
    }
}

impl<'a> SharedFile for ListedFile<'a> {
    fn lock(&self) -> io::Result<()> {
        self.kept.note("lock", self.name)
    }

    fn try_lock(&self) -> io::Result<()> {
        self.kept.note("try lock", self.name)?;
        if self.kept.is_locked {
            return Err(ErrorKind::WouldBlock.into());
        }
        Ok(())
    }

    fn forget(&self) -> io::Result<()> {
        self.kept.note("forget", self.name)
    }
}

/// Whether the length is told, and bytes are written and synced, and why the last call failed.
fn writes(alloc: Global, kept: &Kept) -> ([bool; 3], Option<ErrorKind>) {
    let files = Listed { kept };
    let Ok(mut disk) = FileDisk::new(alloc, &files, "f") else {
        return ([false; 3], None);
    };
    let done = [
        disk.len() == Ok(1),
        disk.write_at(3, &[7, 8]) == Ok(()),
        disk.sync() == Ok(()),
    ];
    (done, disk.cause())
}

const WRITES: &str = "size f\nwrite f\nsync data f\n";

/// Whether the calls were these, and then those of a write.
fn writes_by(alloc: Global, kept: &Kept, calls: &str) -> Result<bool, Fail> {
    let answers = writes(alloc, kept);
    let all = format!(in alloc; "{calls}{WRITES}")?;
    Ok(answers == ([true; 3], None) && kept.is(all.as_str()))
}

/// The calls of an opening.
const OPENS: &str =
    "open f\ntry lock f\nname f\nsize f\nsync f\nforget f\nopen to read .\nsync .\n";

#[test]
fn a_file_is_settled_before_it_is_used(rt: HostRuntime) -> Result<(), Fail> {
    let kept = Kept::new(rt.alloc(), true);
    assert!(rt; writes_by(rt.alloc(), &kept, OPENS)?);
    Ok(())
}

#[test]
fn a_new_file_is_whole_before_it_has_its_name(rt: HostRuntime) -> Result<(), Fail> {
    let kept = Kept::new(rt.alloc(), false);
    let calls = format!(in rt.alloc();
        "open f\ncreate f.new0\nwrite f.new0\nsync f.new0\nlink f.new0\nremove f.new0\n{OPENS}"
    )?;
    assert!(rt; writes_by(rt.alloc(), &kept, calls.as_str())?);
    Ok(())
}

#[test]
fn what_another_process_made_stays(rt: HostRuntime) -> Result<(), Fail> {
    let mut kept = Kept::new(rt.alloc(), false);
    kept.is_left = true;
    kept.is_made = true;
    let calls = format!(in rt.alloc();
        "open f\ncreate f.new0\ncreate f.new1\nwrite f.new1\nsync f.new1\nlink f.new1\nremove f.new1\n{OPENS}"
    )?;
    assert!(rt; writes_by(rt.alloc(), &kept, calls.as_str())?);
    Ok(())
}

#[test]
fn a_file_in_use_is_left_alone(rt: HostRuntime) -> Result<(), Fail> {
    let mut kept = Kept::new(rt.alloc(), true);
    kept.is_locked = true;
    let answers = writes(rt.alloc(), &kept);
    assert!(rt; answers == ([false; 3], Some(ErrorKind::WouldBlock)));
    assert!(rt; kept.is("open f\ntry lock f\nopen f\ntry lock f\nopen f\ntry lock f\n"));
    Ok(())
}

/// How two syncs end.
fn syncs_twice(alloc: Global, kept: &Kept) -> [bool; 2] {
    let files = Listed { kept };
    let Ok(mut disk) = FileDisk::new(alloc, &files, "f") else {
        return [true; 2];
    };
    [disk.sync() == Ok(()), disk.sync() == Ok(())]
}

#[test]
fn after_a_sync_that_failed_none_is_tried(rt: HostRuntime) -> Result<(), Fail> {
    let mut kept = Kept::new(rt.alloc(), true);
    kept.fails = "sync data";
    let answers = syncs_twice(rt.alloc(), &kept);
    let calls = format!(in rt.alloc(); "{OPENS}sync data f\n")?;
    assert!(rt; answers == [false; 2] && kept.is(calls.as_str()));
    Ok(())
}

#[test]
fn a_file_that_is_not_settled_is_not_used(rt: HostRuntime) -> Result<(), Fail> {
    for call in ["sync", "forget", "name", "open to read"] {
        let mut kept = Kept::new(rt.alloc(), true);
        kept.fails = call;
        let answers = writes(rt.alloc(), &kept);
        assert!(rt; answers.0 == [false; 3]);
    }
    Ok(())
}

/// Whether a draw of node 1 is made over these files.
fn drawn(alloc: Global, kept: &Kept) -> bool {
    let files = Listed { kept };
    let mut register = FileRegister::new(&files, "f");
    match NodeId::new(1) {
        Some(node) => register.draw(alloc, node).is_ok(),
        None => false,
    }
}

/// Whether a look at log 1 succeeds over these files.
fn looked(alloc: Global, kept: &Kept) -> bool {
    let files = Listed { kept };
    let mut register = FileRegister::new(&files, "f");
    match LogId::new(1) {
        Some(log) => register.look(alloc, log, 1).is_ok(),
        None => false,
    }
}

/// A load reads the gate of the first record, which is shut, up to the end of the file.
const LOADS: &str = "sync data f\nsize f\nread f\nread f\n";

#[test]
fn a_register_is_locked_from_its_load_to_its_change(rt: HostRuntime) -> Result<(), Fail> {
    let kept = Kept::new(rt.alloc(), true);
    let done = drawn(rt.alloc(), &kept);
    let calls = format!(in rt.alloc();
        "open f\nlock f\nname f\nsize f\nsync f\nforget f\nopen to read .\nsync .\n{LOADS}write f\nsync data f\nwrite f\nsync data f\n"
    )?;
    assert!(rt; done && kept.is(calls.as_str()));
    Ok(())
}

#[test]
fn a_look_takes_no_lock_and_makes_no_file(rt: HostRuntime) -> Result<(), Fail> {
    let kept = Kept::new(rt.alloc(), true);
    let done = looked(rt.alloc(), &kept);
    let calls = format!(in rt.alloc();
        "open to read f\nsync f\nforget f\nopen to read .\nsync .\n{LOADS}"
    )?;
    assert!(rt; done && kept.is(calls.as_str()));
    let none = Kept::new(rt.alloc(), false);
    assert!(rt; !looked(rt.alloc(), &none) && none.is("open to read f\n"));
    Ok(())
}
