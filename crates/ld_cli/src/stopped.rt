// A stopped node is mended, takes another one's place, or its store is shown.
ghost use Rattle.std.specs.Prelude.{◌≡◌, ℕ, nat_lt};
ghost use Rattle.ld_io.specs.Causes.{Rose};
ghost use Rattle.ld_cli.specs.Serving.{DiskFaults, RegisterFaults, LinkFaults};
ghost use Rattle.ld_cli.specs.Stopped.{status_of as told, status_mended, status_done, IsShown, IsReplaced, IsMended};

use crate::status::Status;
use ld_dial::Nodes;
use ld_disk::Disk;
use ld_io::Sink;
use ld_register::Register;
use ld_stopped::{Stop, mend_store, replace_in, show_store};
use ld_words::{MendWords, ReplaceWords, ShowWords};
use std::alloc::Global;

/// The status of a stop.
fn status_of(stop: Stop) -> Status
    ensures { result ≡ told stop }
{
    match stop {
        Stop::NoMemory => Status::NoMemory,
        Stop::Disk => Status::Disk,
        Stop::Register => Status::Register,
        Stop::Write => Status::Write,
        Stop::BadFrame(fault) => Status::BadFrame(fault),
        Stop::Damaged(which, place) => Status::Damaged { which, place },
        Stop::Blank => Status::Blank,
        Stop::Full(which) => Status::JournalFull(which),
        Stop::SwapLimit => Status::SwapLimit,
    }
}

/// The status of a node that was mended or wasn't, by the nodes' count of failures before and now.
fn status_of_mend(ended: Result<bool, Stop>, before: u64, now: u64) -> Status
    ensures { result ≡ status_mended ended (nat_lt before now) }
{
    match ended {
        Ok(true) => Status::Ok,
        Ok(false) => {
            if before < now {
                Status::Link
            } else {
                Status::NotDone
            }
        }
        Err(stop) => status_of(stop),
    }
}

/// The status of what was done or wasn't.
fn status_of_done(ended: Result<(), Stop>) -> Status
    ensures { result ≡ status_done ended }
{
    match ended {
        Ok(()) => Status::Ok,
        Err(stop) => status_of(stop),
    }
}

/// Mends the stopped node that the arguments name.
pub(crate) fn mended<O: Sink, D: Disk, G: Register, N: Nodes>(
    alloc: Global,
    words: &MendWords,
    out: &mut O,
    disk: &mut D,
    reg: &mut G,
    nodes: &mut N,
) -> Status
    ensures mended { IsMended D.faults D.seen D.may_leave O.faults O.written G.faults G.told G.damaged G.holds G.may_hold G.tells G.identity N.faults N.tells N.silent N.off disk.old disk.new reg.old reg.new nodes.old nodes.new out.old out.new words.now result }
    ensures usage { result ≡ Status.Usage → ⊥ }
    ensures read { result ≡ Status.Read → ⊥ }
    ensures write { result ≡ Status.Write → Rose (O.faults out.old) (O.faults out.new) }
    ensures disk { DiskFaults (D.faults disk.old) (D.faults disk.new) result }
{
    let before = nodes.failures();
    let ended = mend_store(
        alloc,
        words.id,
        &words.config,
        words.rounds,
        disk,
        reg,
        nodes,
        out,
    );
    let now = nodes.failures();
    status_of_mend(ended, before, now)
}

/// Has the stopped node that the arguments name take the place of another one.
pub(crate) fn replaced<O: Sink, D: Disk, G: Register>(
    alloc: Global,
    words: &ReplaceWords,
    out: &mut O,
    disk: &mut D,
    reg: &mut G,
) -> Status
    ensures replaced { IsReplaced D.faults D.seen D.may_leave O.faults O.written G.faults G.told G.damaged G.holds G.may_hold G.tells disk.old disk.new reg.old reg.new out.old out.new words.now result }
    ensures usage { result ≡ Status.Usage → ⊥ }
    ensures read { result ≡ Status.Read → ⊥ }
    ensures write { result ≡ Status.Write → Rose (O.faults out.old) (O.faults out.new) }
    ensures disk { DiskFaults (D.faults disk.old) (D.faults disk.new) result }
    ensures link { (n : ℕ) → LinkFaults n n result }
{
    let ended = replace_in(
        alloc,
        words.id,
        words.of,
        &words.config,
        words.log,
        disk,
        reg,
        out,
    );
    status_of_done(ended)
}

/// Shows the store of the stopped node that the arguments name.
pub(crate) fn shown<O: Sink, D: Disk>(
    alloc: Global,
    words: &ShowWords,
    out: &mut O,
    disk: &mut D,
) -> Status
    ensures shown { IsShown D.faults D.seen D.may_leave O.faults O.written disk.old disk.new out.old out.new words.now result }
    ensures usage { result ≡ Status.Usage → ⊥ }
    ensures read { result ≡ Status.Read → ⊥ }
    ensures write { result ≡ Status.Write → Rose (O.faults out.old) (O.faults out.new) }
    ensures disk { DiskFaults (D.faults disk.old) (D.faults disk.new) result }
    ensures register { (n : ℕ) → RegisterFaults n n result }
    ensures link { (n : ℕ) → LinkFaults n n result }
{
    let ended = show_store(alloc, words.id, &words.config, words.json, disk, out);
    status_of_done(ended)
}
