// A disk in memory, which fails and crashes where it is told to.
ghost use Rattle.std.specs.Prelude.{◌≡◌, ◌≤◌, Some};
ghost use Rattle.ld_io.specs.Causes.{Rose};

use crate::fate::Fate;
use crate::kept::Kept;
use crate::{Disk, Fault, Picture};
use ld_io::{Failed, NoMemory};
use std::alloc::Global;

/// A disk in memory. It keeps a record of its writing calls, so that it answers for every moment.
///
/// After a crash the writes since the last successful sync stay what they were, and each crash's picture is of all
/// of them: the last one decides what a read gives after `restart`.
#[derive(Drop)]
pub struct MemDisk {
    kept: Kept,
    armed: Option<Fault>,
    crashed: bool,
    faults: u64,
}

impl MemDisk {
    ghost use Rattle.std.specs.Prelude.{IfOk};
    ghost use Rattle.ld_disk.specs.Memory.{disk_plain, held_by, faults_of};
    ghost use Rattle.std.specs.Prelude.{not};
    ghost use Rattle.ld_disk.specs.Plain.{fate, armed_after, crashed_after, armed_with, new_disk, restarted, read_succeeds, armed_after_read};

    /// A new disk, which holds the one stable byte 0.
    pub fn new(alloc: Global) -> Result<MemDisk, NoMemory>
        ensures plain { IfOk result (λ disk. disk_plain disk ≡ new_disk) }
        ensures faults { IfOk result (λ disk. faults_of disk ≡ 0) }
    {
        Ok(MemDisk {
            kept: Kept::new(alloc)?,
            armed: None,
            crashed: false,
            faults: 0,
        })
    }

    /// The k-th writing call from now on fails and changes nothing. This replaces what was armed before; k is 1 for
    /// the next call, and 0 for none.
    pub fn fail_at(&mut self, k: u64)
        ensures plain { disk_plain self.new ≡ armed_with (Fault.FailAt k) (disk_plain self.old) }
        ensures held { held_by self.new ≡ held_by self.old }
        ensures faults { faults_of self.new ≡ faults_of self.old }
    {
        self.armed = Some(Fault::FailAt(k));
    }

    /// The k-th read from now on fails. This replaces what was armed before; k is 1 for the next call, and 0 for none.
    pub fn fail_read_at(&mut self, k: u64)
        ensures plain { disk_plain self.new ≡ armed_with (Fault.FailReadAt k) (disk_plain self.old) }
        ensures held { held_by self.new ≡ held_by self.old }
        ensures faults { faults_of self.new ≡ faults_of self.old }
    {
        self.armed = Some(Fault::FailReadAt(k));
    }

    /// The disk crashes in the k-th writing call from now on, with this picture, and from then on fails each `read`,
    /// `write_at`, `sync` and `len` until `restart`. This replaces what was armed before; k is 1 for the next call,
    /// and 0 for none.
    pub fn crash_at(&mut self, k: u64, picture: Picture)
        ensures plain { disk_plain self.new ≡ armed_with (Fault.CrashAt k picture) (disk_plain self.old) }
        ensures held { held_by self.new ≡ held_by self.old }
        ensures faults { faults_of self.new ≡ faults_of self.old }
    {
        self.armed = Some(Fault::CrashAt(k, picture));
    }

    /// Puts a new disk in its place, which holds the one stable byte 0, with nothing armed and no crash.
    pub fn wipe(&mut self)
        ensures plain { disk_plain self.new ≡ new_disk }
        ensures faults { faults_of self.new ≡ faults_of self.old }
    {
        self.kept.wipe();
        self.armed = None;
        self.crashed = false;
    }

    /// Ends a crash. What is read is what the crash's picture left.
    pub fn restart(&mut self)
        ensures plain { disk_plain self.new ≡ restarted (disk_plain self.old) }
        ensures held { held_by self.new ≡ held_by self.old }
        ensures faults { faults_of self.new ≡ faults_of self.old }
    {
        self.crashed = false;
    }

    /// What the armed fault does to this writing call, which is counted.
    fn next_fate(&mut self) -> Fate
        ensures fate { result ≡ fate self.old.crashed self.old.armed }
        ensures armed { self.new.armed ≡ armed_after self.old.crashed self.old.armed }
        ensures crashed { self.new.crashed ≡ crashed_after self.old.crashed result }
        ensures kept { self.new.kept ≡ self.old.kept }
        ensures faults { self.new.faults ≡ self.old.faults }
    {
        if self.crashed {
            return Fate::Fails;
        }
        match self.armed {
            Some(Fault::FailAt(1)) => {
                self.armed = None;
                Fate::Fails
            }
            Some(Fault::CrashAt(1, picture)) => {
                self.armed = None;
                self.crashed = true;
                Fate::Crashes(picture)
            }
            Some(Fault::FailAt(k)) => {
                self.armed = Some(Fault::FailAt(k.saturating_sub(1)));
                Fate::Made
            }
            Some(Fault::CrashAt(k, picture)) => {
                self.armed = Some(Fault::CrashAt(k.saturating_sub(1), picture));
                Fate::Made
            }
            _ => Fate::Made,
        }
    }

    /// Whether this call of `read`, which is counted, fails.
    fn read_fails(&mut self) -> bool
        ensures fails { result ≡ not (read_succeeds self.old.crashed self.old.armed) }
        ensures armed { self.new.armed ≡ armed_after_read self.old.crashed self.old.armed }
        ensures crashed { self.new.crashed ≡ self.old.crashed }
        ensures kept { self.new.kept ≡ self.old.kept }
        ensures faults { self.new.faults ≡ self.old.faults }
    {
        if self.crashed {
            return true;
        }
        if let Some(Fault::FailReadAt(k)) = self.armed {
            if k == 1 {
                self.armed = None;
                return true;
            }
            self.armed = Some(Fault::FailReadAt(k.saturating_sub(1)));
        }
        false
    }

    fn count_fault(&mut self) -> Failed
        ensures armed { self.new.armed ≡ self.old.armed }
        ensures crashed { self.new.crashed ≡ self.old.crashed }
        ensures kept { self.new.kept ≡ self.old.kept }
        ensures rises { Rose self.old.faults self.new.faults }
        ensures later { self.old.faults ≤ self.new.faults }
    {
        self.faults = self.faults.saturating_add(1);
        Failed
    }
}

impl Disk for MemDisk {
    ghost use Rattle.std.specs.Prelude.{◌∷◌};
    ghost use Rattle.ld_disk.specs.Kept.{kept_state, kept_moment, kept_since, bytes_of, kept_counts, kept_only};
    ghost use Rattle.ld_disk.specs.Record.{leaves};
    ghost use mathlib.Core.Logic.{inl};
    ghost use Rattle.std.proofs.Common.{ap};
    ghost use Rattle.std.specs.Option.{option_map};
    ghost use Rattle.ld_disk.specs.Memory.{disk_plain};

    ghost seen = { λ m. Some m.kept.bytes.items };

    ghost may_leave = { λ m c. leaves (kept_state m.kept) c };

    ghost moment = { λ m. kept_moment m.kept };

    ghost left_since = { λ m t c. kept_since m.kept t c };

    ghost plain = { λ m. Some (disk_plain m) };

    ghost room = { λ m. m.kept.room };

    ghost reach = { λ m. m.kept.reach };

    ghost faults = { λ m. m.faults };

    ghost identity = { λ _. 0 };

    ghost reads_an_image = { λ m bytes is. inl (bytes_of is) };

    ghost plain_is_seen = { λ m p is. ap (option_map (λ q. q.state.bytes)) is };

    ghost counts_now = { λ m t c le now. kept_counts m.kept t c now };

    ghost only_now = { λ m c left. kept_only m.kept c left };

    fn read(&mut self, at: u64, buf: &mut [u8]) -> Result<usize, Failed> {
        if self.read_fails() {
            return Err(self.count_fault());
        }
        Ok(self.kept.read(at, buf))
    }

    fn write_at(&mut self, at: u64, bytes: &[u8]) -> Result<(), Failed> {
        match self.next_fate() {
            Fate::Made => {
                self.kept.write(at, bytes, None);
                Ok(())
            }
            Fate::Fails => Err(self.count_fault()),
            Fate::Crashes(picture) => {
                self.kept.write(at, bytes, Some(picture));
                Err(self.count_fault())
            }
        }
    }

    fn sync(&mut self) -> Result<(), Failed> {
        match self.next_fate() {
            Fate::Made => {
                self.kept.sync();
                Ok(())
            }
            Fate::Fails => Err(self.count_fault()),
            Fate::Crashes(picture) => {
                self.kept.crash(picture);
                Err(self.count_fault())
            }
        }
    }

    fn len(&mut self) -> Result<u64, Failed> {
        if self.crashed {
            return Err(self.count_fault());
        }
        Ok(self.kept.len())
    }

    fn reserve(&mut self, end: u64, calls: u64) -> Result<(), NoMemory> {
        self.kept.reserve(end, calls)
    }

    fn arm(&mut self, fault: Fault) {
        self.armed = Some(fault);
    }
}
