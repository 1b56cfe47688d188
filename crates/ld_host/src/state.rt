// What a host has.
ghost use Rattle.std.specs.Prelude.{◌≡◌, ◌≤◌, ℕ, true, false};
ghost use Rattle.ld_disk.specs.Memory.{disk_plain};
ghost use Rattle.ld_disk.specs.Plain.{fault_of, restarted};
ghost use Rattle.ld_config.specs.declared.config.Config.{Config as Settings};
ghost use Rattle.ld_machine.specs.Disk.{Node as Seen, Fault as Told};
ghost use Rattle.ld_machine.specs.Step.{with_fault};
ghost use Rattle.ld_host.specs.States.{blank_in, disk_in, IsFailedAt, IsDownAt};
ghost use Rattle.ld_host.specs.Faults.{crash_of};
ghost use Rattle.ld_host.specs.Stands.{StandsAs};

use crate::kept::Kept;
use ld_disk::{Disk, Fault, MemDisk};
use ld_node::Node;
use std::mem;

/// A host's disk, and the node that runs on it where one runs.
#[derive(Drop)]
pub(crate) enum State {
    /// Its store isn't formatted.
    Blank(MemDisk),
    /// A node runs.
    Up(Node<MemDisk>),
    /// No node runs.
    Down(MemDisk),
    /// A call of the disk failed, or the journal was full.
    Failed(MemDisk),
    /// A call had no memory.
    Gone,
}

impl State {
    /// The disk, where it isn't gone. What a node keeps in memory alone is lost.
    pub(crate) fn into_disk(self) -> Option<MemDisk>
        ensures { result ≡ disk_in self }
    {
        match self {
            State::Blank(disk) => Some(disk),
            State::Up(node) => Some(node.into_disk()),
            State::Down(disk) => Some(disk),
            State::Failed(disk) => Some(disk),
            State::Gone => None,
        }
    }

    /// Tells the disk to fail or to crash. This replaces what it was told before.
    pub(crate) fn armed(self, fault: Fault) -> State
        ensures blank { blank_in result ≡ blank_in self }
        ensures stands { (c : Settings) (n : ℕ) (x : Seen) (f : Told) → fault ≡ fault_of f.left (crash_of f.crash) → 1 ≤ f.left → StandsAs c n self x → StandsAs c n result (with_fault x f) }
    {
        match self {
            State::Blank(mut disk) => {
                disk.arm(fault);
                State::Blank(disk)
            }
            State::Up(mut node) => {
                node.arm(fault);
                State::Up(node)
            }
            State::Down(mut disk) => {
                disk.arm(fault);
                State::Down(disk)
            }
            State::Failed(mut disk) => {
                disk.arm(fault);
                State::Failed(disk)
            }
            State::Gone => State::Gone,
        }
    }
}

/// The state after a call of the disk that failed, and whether the disk crashed in it. A crash is over then.
pub(crate) fn fallen(mut disk: MemDisk) -> (State, Kept)
    ensures blank { blank_in result.0 ≡ false }
    ensures failed { (disk_plain disk).crashed ≡ false → (result.1 ≡ Kept.Failed) × IsFailedAt (disk_plain disk) result.0 }
    ensures crashed { (disk_plain disk).crashed ≡ true → (result.1 ≡ Kept.Crashed) × IsDownAt (restarted (disk_plain disk)) result.0 }
{
    if disk.len().is_ok() {
        return (State::Failed(disk), Kept::Failed);
    }
    disk.restart();
    (State::Down(disk), Kept::Crashed)
}

/// Puts a state in the place of another. What was there goes to a call, so that no proof here goes through it.
pub(crate) fn put(slot: &mut State, state: State)
    ensures { slot.new ≡ state }
{
    drop(mem::replace(slot, state));
}
