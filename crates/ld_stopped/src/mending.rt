// A stopped node's store is opened, and the node is mended.
ghost use Rattle.std.specs.Prelude.{◌≡◌, ◌≤◌, ◌⊎◌, ℕ, List, Option, Some, IfErr, IfSome, OnOk, MatchResult, true};
ghost use Rattle.ld_msg.specs.Register.{Register as Contents};
ghost use Rattle.ld_op.specs.Plain.{Plain as State};
ghost use Rattle.ld_store.specs.Ops.{StandsFor};
ghost use Rattle.ld_machine.specs.Disk.{Node as Place};
ghost use Rattle.ld_node.specs.Known.{known_in};
ghost use Rattle.ld_mend.specs.Course.{ToldAs, IsHushed};
ghost use Rattle.ld_mend.specs.Standing.{logs_of};
ghost use Rattle.ld_mend.specs.Stops.{AreLater, WasDamaged, counts};
ghost use Rattle.ld_serve.specs.Opening.{IsBlank};
ghost use Rattle.ld_stopped.specs.Opening.{IsNotLoaded};
ghost use Rattle.ld_stopped.specs.Mending.{HasMended, HasHalted, IsNotOpened, IsMendStop, ended};
ghost use Rattle.ld_stopped.specs.Stops.{stop_of_mend, DiskCounts};

use crate::Stop;
use crate::opening::{let_go, opened};
use ld_config::Config;
use ld_dial::Nodes;
use ld_disk::Disk;
use ld_ids::NodeId;
use ld_io::Sink;
use ld_mend::{Stop as Halt, mend};
use ld_register::Register;
use ld_serve::Which;
use std::alloc::Global;

/// Why a node that was opened isn't mended to the end.
fn mend_stop(halt: Halt) -> Stop
    ensures { result ≡ stop_of_mend halt }
{
    match halt {
        Halt::Disk => Stop::Disk,
        Halt::Damaged(place) => Stop::Damaged(Which::Store, place),
        Halt::Full => Stop::Full(Which::Store),
        Halt::Register => Stop::Register,
        Halt::RegisterDamaged(place) => Stop::Damaged(Which::Register, place),
        Halt::BadFrame(fault) => Stop::BadFrame(fault),
        Halt::Write => Stop::Write,
        Halt::NoMemory => Stop::NoMemory,
    }
}

/// How mending ended.
fn ended(mended: Result<bool, Halt>) -> Result<bool, Stop>
    ensures { result ≡ ended mended }
{
    match mended {
        Ok(mended) => Ok(mended),
        Err(halt) => Err(mend_stop(halt)),
    }
}

/// Mends as `mend_store` does, and hands the disk back.
fn mend_on<D: Disk, G: Register, N: Nodes, O: Sink>(
    alloc: Global,
    id: NodeId,
    config: &Config,
    rounds: u32,
    disk: D,
    reg: &mut G,
    nodes: &mut N,
    out: &mut O,
) -> (D, Result<bool, Stop>)
    ensures lent { D.identity result.0 ≡ D.identity disk }
    ensures mended { (bytes : List ℕ) (p : State) (r : Contents) (far : Option (List (ℕ × Place)))
        → D.seen disk ≡ Some bytes → StandsFor p bytes → G.holds reg.old r → ToldAs (N.tells nodes.old config.now) far
        → IsHushed (N.silent nodes.new) far ⊎ MatchResult result.1
        (HasMended id (known_in config.now) config.now r bytes p far (D.may_leave result.0) (O.written out.old) (O.written out.new) (G.holds reg.new r) (N.tells nodes.new config.now) (logs_of config.now.logs))
        (λ stop. IsNotOpened (IsNotLoaded (D.faults disk) (D.faults result.0) (D.seen disk) (D.seen result.0) (D.may_leave disk) (D.may_leave result.0)) reg.old reg.new nodes.old nodes.new out.old out.new stop
        ⊎ HasHalted id (known_in config.now) config.now r bytes p far (D.may_leave result.0) (O.written out.old) (O.written out.new) stop) }
    ensures formatted { OnOk result.1 (IfSome (D.seen disk) (λ bytes. ¬ IsBlank bytes)) }
    ensures cause { IfErr result.1 (λ stop. IsNotOpened (IsNotLoaded (D.faults disk) (D.faults result.0) (D.seen disk) (D.seen result.0) (D.may_leave disk) (D.may_leave result.0)) reg.old reg.new nodes.old nodes.new out.old out.new stop
        ⊎ IsMendStop (WasDamaged G.told G.damaged G.identity reg.old) (counts (D.faults disk) (G.faults reg.old) (O.faults out.old)) (counts (D.faults result.0) (G.faults reg.new) (O.faults out.new)) (N.off nodes.new) stop) }
    ensures silent { N.silent nodes.old ≡ true → N.silent nodes.new ≡ true }
    ensures later { AreLater (counts (D.faults disk) (G.faults reg.old) (O.faults out.old)) (counts (D.faults result.0) (G.faults reg.new) (O.faults out.new)) }
    ensures disk_counts { MatchResult result.1 (λ _. D.faults result.0 ≡ D.faults disk) (DiskCounts (D.faults disk) (D.faults result.0)) }
    ensures told { G.told reg.old → G.told reg.new }
    ensures itself { G.identity reg.new ≡ G.identity reg.old }
{
    let mut node = match opened(alloc, id, config, disk) {
        Ok(node) => node,
        Err((disk, stop)) => return (disk, Err(stop)),
    };
    let mended = mend(alloc, id, config, rounds, &mut node, reg, nodes, out);
    (node.into_disk(), ended(mended))
}

/// Opens the stopped node of this number on its disk, which has to be formatted, and mends it: in so many rounds at most it is
/// ticked for each log of the configuration until a tick asks or has nothing to do, each ask is handed to the node that it is
/// for, and each answer to it is taken by the node. A node that couldn't be dialed isn't dialed again. A line
/// `node N rebuilt LOG` is written where the node isn't lost for a log any more; behind the rounds each log is told of:
/// `mended LOG`, or `lacks LOG LSN` with the lowest number that the node lacks, or the first one of the epoch behind the last
/// closed one, where the node is lost for that.
///
/// True where the node lacks nothing of any log, false where it does behind all rounds.
///
/// It stops as a load of the store does: with `Disk`, `Damaged(Store, place)`, `Full(Store)`; with `Blank` where no record
/// stands on the disk; and nothing else is called then. Once it is open it stops with `Disk` where a call of the disk failed,
/// with `Full(Store)` where the store would be longer than 2^40 bytes, with `Damaged(Store, place)` where the disk ends before
/// a payload does, with `Register` where a call of the register failed, with `Damaged(Register, place)` where its bytes are no
/// journal of its changes, with `BadFrame` where what a node sent begins no frame, with `Write` where the output failed, and
/// with `NoMemory`. What was done before stands.
pub fn mend_store<D: Disk, G: Register, N: Nodes, O: Sink>(
    alloc: Global,
    id: NodeId,
    config: &Config,
    rounds: u32,
    disk: &mut D,
    reg: &mut G,
    nodes: &mut N,
    out: &mut O,
) -> Result<bool, Stop>
    // Where the disk tells bytes that represent a plain state, and the register what it holds: the store wasn't opened; or all
    // that was done from that state on are ticks of the node by those contents and answers to its own asks that it took, and
    // what was written is the text of that, and of how it stood for each log behind the rounds. It is mended where it lacks
    // nothing of any. What a crash leaves of the disk represents the last state, or, where the disk failed, perhaps that of one
    // deed more. Where the other nodes are told of too, each ask that was handed over did what the written machine says at a
    // node that is up, and what that answered is what the node took.
    ensures mended { (bytes : List ℕ) (p : State) (r : Contents) (far : Option (List (ℕ × Place)))
        → D.seen disk.old ≡ Some bytes → StandsFor p bytes → G.holds reg.old r → ToldAs (N.tells nodes.old config.now) far
        → IsHushed (N.silent nodes.new) far ⊎ MatchResult result
        (HasMended id (known_in config.now) config.now r bytes p far (D.may_leave disk.new) (O.written out.old) (O.written out.new) (G.holds reg.new r) (N.tells nodes.new config.now) (logs_of config.now.logs))
        (λ stop. IsNotOpened (IsNotLoaded (D.faults disk.old) (D.faults disk.new) (D.seen disk.old) (D.seen disk.new) (D.may_leave disk.old) (D.may_leave disk.new)) reg.old reg.new nodes.old nodes.new out.old out.new stop
        ⊎ HasHalted id (known_in config.now) config.now r bytes p far (D.may_leave disk.new) (O.written out.old) (O.written out.new) stop) }

    // A blank store's node isn't mended.
    ensures formatted { OnOk result (IfSome (D.seen disk.old) (λ bytes. ¬ IsBlank bytes)) }

    // Whatever they tell: why it stops, and what is left where the store wasn't opened.
    ensures cause { IfErr result (λ stop. IsNotOpened (IsNotLoaded (D.faults disk.old) (D.faults disk.new) (D.seen disk.old) (D.seen disk.new) (D.may_leave disk.old) (D.may_leave disk.new)) reg.old reg.new nodes.old nodes.new out.old out.new stop
        ⊎ IsMendStop (WasDamaged G.told G.damaged G.identity reg.old) (counts (D.faults disk.old) (G.faults reg.old) (O.faults out.old)) (counts (D.faults disk.new) (G.faults reg.new) (O.faults out.new)) (N.off nodes.new) stop) }
    ensures silent { N.silent nodes.old ≡ true → N.silent nodes.new ≡ true }
    ensures later { AreLater (counts (D.faults disk.old) (G.faults reg.old) (O.faults out.old)) (counts (D.faults disk.new) (G.faults reg.new) (O.faults out.new)) }
    ensures disk_counts { MatchResult result (λ _. D.faults disk.new ≡ D.faults disk.old) (DiskCounts (D.faults disk.old) (D.faults disk.new)) }
    ensures told { G.told reg.old → G.told reg.new }
    ensures itself { G.identity reg.new ≡ G.identity reg.old }
{
    let (disk, mended) = mend_on(alloc, id, config, rounds, &mut *disk, reg, nodes, out);
    let_go(disk, mended)
}
