// What a stopped node's store holds is written.
ghost use Rattle.std.specs.Prelude.{◌≡◌, ◌≢◌, ◌⊎◌, ◌++◌, ℕ, List, Some, IfOk, IfErr, IfSome, OnOk, IsErrOf, MatchResult, false};
ghost use Rattle.ld_op.specs.Plain.{Plain as State};
ghost use Rattle.ld_store.specs.Ops.{StandsFor};
ghost use Rattle.ld_store.specs.Open.{disk_of, IsOpened};
ghost use Rattle.ld_mend.specs.Output.{WritesPart};
ghost use Rattle.ld_serve.specs.Opening.{IsBlank};
ghost use Rattle.ld_stopped.specs.Opening.{IsNotLoaded, LeavesMarked, ShowsMarked};
ghost use Rattle.ld_stopped.specs.Output.{Tells};
ghost use Rattle.ld_stopped.specs.Shown.{shown_text};
ghost use Rattle.ld_stopped.specs.Showing.{IsShowStop};
ghost use Rattle.ld_stopped.specs.Stops.{DiskCounts, OutputCounts, stop_of_store};

use crate::Stop;
use crate::lines::shown_text;
use crate::opening::let_go;
use crate::output::write;
use ld_config::Config;
use ld_disk::Disk;
use ld_ids::NodeId;
use ld_io::Sink;
use ld_op::Plain;
use ld_serve::Which;
use ld_store::{Store, StoreFault};
use std::alloc::Global;

/// Why a store wasn't loaded.
fn store_stop(fault: StoreFault) -> Stop
    requires { fault ≢ StoreFault.NeedsLoad }
    ensures { result ≡ stop_of_store fault }
{
    match fault {
        StoreFault::Disk => Stop::Disk,
        StoreFault::Damaged(place) => Stop::Damaged(Which::Store, place),
        StoreFault::Full => Stop::Full(Which::Store),
        StoreFault::NoMemory => Stop::NoMemory,
        StoreFault::NeedsLoad => unreachable!(),
    }
}

/// Loads the store of a stopped node, on which some record has to stand.
fn loaded<D: Disk>(alloc: Global, disk: D) -> Result<Store<D>, (D, Stop)>
    ensures opens { IfOk result (λ store. IfSome (D.seen disk) (IsOpened D.seen D.may_leave store)) }
    ensures formatted { IfOk result (λ _. IfSome (D.seen disk) (λ bytes. ¬ IsBlank bytes)) }
    ensures same { IfOk result (λ store. ShowsMarked (D.seen disk) (D.seen (disk_of store))) }
    ensures leaves { IfOk result (λ store. LeavesMarked (D.seen disk) (D.may_leave disk) (D.may_leave (disk_of store))) }
    ensures refused { IfErr result (λ e. IsNotLoaded (D.faults disk) (D.faults e.0) (D.seen disk) (D.seen e.0) (D.may_leave disk) (D.may_leave e.0) e.1) }
    ensures itself { MatchResult result (λ store. D.identity (disk_of store) ≡ D.identity disk) (λ e. D.identity e.0 ≡ D.identity disk) }
    ensures counts { MatchResult result (λ store. D.faults (disk_of store) ≡ D.faults disk) (λ e. DiskCounts (D.faults disk) (D.faults e.0) e.1) }
{
    let store = match Store::load(alloc, disk) {
        Ok(store) => store,
        Err((disk, fault)) => return Err((disk, store_stop(fault))),
    };
    if store.is_blank() {
        return Err((store.into_disk(), Stop::Blank));
    }
    Ok(store)
}

/// Writes what the store with this index holds.
fn show<O: Sink>(
    alloc: Global,
    id: NodeId,
    config: &Config,
    json: bool,
    index: &Plain,
    out: &mut O,
) -> Result<(), Stop>
    ensures tells { Tells (O.written out.old) (O.written out.new) (shown_text json id index.now.state config.now.logs) result }
    ensures counts { MatchResult result (λ _. O.faults out.new ≡ O.faults out.old) (OutputCounts (O.faults out.old) (O.faults out.new)) }
{
    let text = shown_text(alloc, json, id, index, config)?;
    write(out, &text)
}

/// Shows as `show_store` does, and hands the disk back.
fn show_on<D: Disk, O: Sink>(
    alloc: Global,
    id: NodeId,
    config: &Config,
    json: bool,
    disk: D,
    out: &mut O,
) -> (D, Result<(), Stop>)
    ensures lent { D.identity result.0 ≡ D.identity disk }
    ensures shown { (bytes : List ℕ) (p : State) → D.seen disk ≡ Some bytes → StandsFor p bytes
        → MatchResult result.1 (λ _. O.written out.new ≡ O.written out.old ++ shown_text json id p config.now.logs)
        (λ _. WritesPart (O.written out.old) (O.written out.new) (shown_text json id p config.now.logs)) }
    ensures formatted { OnOk result.1 (IfSome (D.seen disk) (λ bytes. ¬ IsBlank bytes)) }
    ensures cause { IfErr result.1 (IsShowStop (D.faults disk) (D.faults result.0) (D.seen disk) (O.faults out.old) (O.faults out.new)) }
    ensures unwritten { IfErr result.1 (λ stop. (stop ≡ Stop.Write) ⊎ (O.written out.new ≡ O.written out.old)) }
    ensures same { IsErrOf result.1 Stop.Disk ⊎ ShowsMarked (D.seen disk) (D.seen result.0) }
    ensures leaves { LeavesMarked (D.seen disk) (D.may_leave disk) (D.may_leave result.0) }
    ensures disk_counts { MatchResult result.1 (λ _. D.faults result.0 ≡ D.faults disk) (DiskCounts (D.faults disk) (D.faults result.0)) }
    ensures output_counts { MatchResult result.1 (λ _. O.faults out.new ≡ O.faults out.old) (OutputCounts (O.faults out.old) (O.faults out.new)) }
{
    let store = match loaded(alloc, disk) {
        Ok(store) => store,
        Err((disk, stop)) => return (disk, Err(stop)),
    };
    let shown = show(alloc, id, config, json, store.index(), out);
    (store.into_disk(), shown)
}

/// Writes what the store of the stopped node of this number holds: a line for the node, with its generation and how many
/// entries it has, and one for each log of the configuration, in the order of the text: the greatest ballot that it has seen,
/// the trim point, the lowest epoch that isn't clean there, the epoch up to which the log is lost there and the one up to which
/// it was and is filled again, 0 for none, and, where it is lost, the lowest number that is missing. With `json` each line is an
/// object of the same fields.
///
/// It stops as a load of the store does: with `Disk` where a call of it failed, with `Damaged(Store, place)`, with
/// `Full(Store)` where a mark, or the segment that it needs, would make the store longer than 2^40 bytes; with `Blank` where no
/// record stands on the disk; with `Write` where the output failed, when a part of the text may be written from the front; and
/// with `NoMemory`. At another one than `Write` nothing is written. But for `Disk` no byte of the disk has changed, but that a
/// store of the first version is marked as one of the second.
pub fn show_store<D: Disk, O: Sink>(
    alloc: Global,
    id: NodeId,
    config: &Config,
    json: bool,
    disk: &mut D,
    out: &mut O,
) -> Result<(), Stop>
    // Where the disk tells bytes that represent a plain state, the text of that was written, and at an error a part of it from
    // the front.
    ensures shown { (bytes : List ℕ) (p : State) → D.seen disk.old ≡ Some bytes → StandsFor p bytes
        → MatchResult result (λ _. O.written out.new ≡ O.written out.old ++ shown_text json id p config.now.logs)
        (λ _. WritesPart (O.written out.old) (O.written out.new) (shown_text json id p config.now.logs)) }

    // A blank store isn't shown.
    ensures formatted { OnOk result (IfSome (D.seen disk.old) (λ bytes. ¬ IsBlank bytes)) }

    // Why it stops, and that nothing was written unless the output failed.
    ensures cause { IfErr result (IsShowStop (D.faults disk.old) (D.faults disk.new) (D.seen disk.old) (O.faults out.old) (O.faults out.new)) }
    ensures unwritten { IfErr result (λ stop. (stop ≡ Stop.Write) ⊎ (O.written out.new ≡ O.written out.old)) }

    // The disk shows what it showed, but for a mark; and a crash leaves what it might have left.
    ensures same { IsErrOf result Stop.Disk ⊎ ShowsMarked (D.seen disk.old) (D.seen disk.new) }
    ensures leaves { LeavesMarked (D.seen disk.old) (D.may_leave disk.old) (D.may_leave disk.new) }
    ensures disk_counts { MatchResult result (λ _. D.faults disk.new ≡ D.faults disk.old) (DiskCounts (D.faults disk.old) (D.faults disk.new)) }
    ensures output_counts { MatchResult result (λ _. O.faults out.new ≡ O.faults out.old) (OutputCounts (O.faults out.old) (O.faults out.new)) }
{
    let (disk, shown) = show_on(alloc, id, config, json, &mut *disk, out);
    let_go(disk, shown)
}
