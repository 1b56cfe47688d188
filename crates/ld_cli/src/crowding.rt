// A node is served, and several peers are there at once.
ghost use Rattle.std.specs.Prelude.{◌≡◌, []};
ghost use Rattle.ld_cli.specs.Crowds.{IsCrowded};
ghost use Rattle.ld_cli.specs.Serving.{DiskFaults, RegisterFaults};

use crate::serving::status_of;
use crate::status::Status;
use ld_crowd::Crowd;
use ld_disk::Disk;
use ld_register::Register;
use ld_serve::serve_many;
use ld_words::CrowdWords;
use std::alloc::Global;

/// Serves the node that the arguments ask for, with several peers at once.
pub(crate) fn crowded<D: Disk, G: Register, C: Crowd>(
    alloc: Global,
    words: &CrowdWords,
    disk: &mut D,
    reg: &mut G,
    crowd: &mut C,
) -> Status
    requires nobody { C.did crowd.old ≡ [] }
    ensures crowded { IsCrowded (D.faults disk.old) (D.faults disk.new) (D.seen disk.old) (D.seen disk.new) (D.may_leave disk.old) (D.may_leave disk.new)
        (G.faults reg.old) (G.faults reg.new) (G.told reg.old) (G.holds reg.old) (G.holds reg.new) (G.may_hold reg.old) (G.may_hold reg.new) (G.damaged reg.old)
        (C.faults crowd.old) (C.faults crowd.new) (C.did crowd.new) crowd.old crowd.new reg.old reg.new words.now result }
    ensures usage { result ≡ Status.Usage → ⊥ }
    ensures read { result ≡ Status.Read → ⊥ }
    ensures write { result ≡ Status.Write → ⊥ }
    ensures disk { DiskFaults (D.faults disk.old) (D.faults disk.new) result }
    ensures register { RegisterFaults (G.faults reg.old) (G.faults reg.new) result }
{
    match serve_many(
        alloc,
        words.node.id,
        &words.node.config,
        words.node.format,
        words.node.turns,
        disk,
        reg,
        crowd,
    ) {
        Ok(()) => Status::Ok,
        Err(stop) => status_of(stop),
    }
}
