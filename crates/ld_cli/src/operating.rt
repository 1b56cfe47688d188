// What an operator does with a stopped node's store, or with a log.
ghost use Rattle.std.specs.Prelude.{◌≡◌, ℕ};
ghost use Rattle.ld_io.specs.Causes.{Rose};
ghost use Rattle.ld_words.specs.Bounds.{HasBounds};
ghost use Rattle.ld_words.specs.declared.command.CopyWords.{CopyWords as CopyWanted};
ghost use Rattle.ld_words.specs.declared.command.MendWords.{MendWords as MendWanted};
ghost use Rattle.ld_words.specs.declared.command.ReplaceWords.{ReplaceWords as ReplaceWanted};
ghost use Rattle.ld_words.specs.declared.command.ShowWords.{ShowWords as ShowWanted};
ghost use Rattle.ld_words.specs.declared.command.TrimWords.{TrimWords as TrimWanted};
ghost use Rattle.ld_words.specs.declared.command.Command.TheVariants.{Mend, Replace, Show, Trim, Copy};
ghost use Rattle.ld_cli.specs.Clients.{Looks, Calls, Dials, Operates};
ghost use Rattle.ld_cli.specs.Serving.{DiskFaults, RegisterFaults, LinkFaults};
ghost use Rattle.ld_cli.specs.Stopped.{IsShown, IsReplaced, IsMended};
ghost use Rattle.ld_cli.specs.Trims.{IsOffTrim, IsTrimmed};

use crate::status::Status;
use crate::stopped::{mended, replaced, shown};
use crate::trims::trimmed;
use ld_dial::Nodes;
use ld_disk::Disk;
use ld_io::Sink;
use ld_register::Register;
use ld_words::Command;
use std::alloc::Global;

/// Runs a command over a stopped node's store, or a trim. A copy of a register is another one's: nothing is called.
pub(crate) fn operated<O: Sink, D: Disk, G: Register, N: Nodes>(
    alloc: Global,
    command: Command,
    out: &mut O,
    disk: &mut D,
    reg: &mut G,
    nodes: &mut N,
) -> Status
    requires bounds { HasBounds command }
    requires operates { Operates command }
    ensures mended { (w : MendWanted) → command ≡ Mend w → IsMended D.faults D.seen D.may_leave O.faults O.written G.faults G.told G.damaged G.holds G.may_hold G.tells G.identity N.faults N.tells N.silent N.off disk.old disk.new reg.old reg.new nodes.old nodes.new out.old out.new w result }
    ensures replaced { (w : ReplaceWanted) → command ≡ Replace w → IsReplaced D.faults D.seen D.may_leave O.faults O.written G.faults G.told G.damaged G.holds G.may_hold G.tells disk.old disk.new reg.old reg.new out.old out.new w result }
    ensures shown { (w : ShowWanted) → command ≡ Show w → (reg.new ≡ reg.old) × IsShown D.faults D.seen D.may_leave O.faults O.written disk.old disk.new out.old out.new w result }
    ensures trimmed { (w : TrimWanted) → command ≡ Trim w → (disk.new ≡ disk.old) × IsTrimmed N.faults N.endings N.tells N.silent N.off G.faults G.told G.damaged G.holds G.may_hold G.tells O.faults O.written nodes.old nodes.new reg.old reg.new out.old out.new w result }
    ensures off { (w : TrimWanted) → command ≡ Trim w → IsOffTrim (N.off nodes.new) result }
    ensures copied { (w : CopyWanted) → command ≡ Copy w → (result ≡ Status.Ok) × (out.new ≡ out.old) × (disk.new ≡ disk.old) × (reg.new ≡ reg.old) }
    ensures usage { result ≡ Status.Usage → ⊥ }
    ensures read { result ≡ Status.Read → ⊥ }
    ensures write { result ≡ Status.Write → Rose (O.faults out.old) (O.faults out.new) }
    ensures disk { DiskFaults (D.faults disk.old) (D.faults disk.new) result }
    ensures register { (Looks command → ⊥) → RegisterFaults (G.faults reg.old) (G.faults reg.new) result }
    ensures link { (Calls command → ⊥) → (n : ℕ) → LinkFaults n n result }
    ensures undriven { (Dials command → ⊥) → nodes.new ≡ nodes.old }
{
    match command {
        Command::Mend(words) => mended(alloc, &words, out, disk, reg, nodes),
        Command::Replace(words) => replaced(alloc, &words, out, disk, reg),
        Command::Show(words) => shown(alloc, &words, out, disk),
        Command::Trim(words) => trimmed(alloc, &words, out, reg, nodes),
        other => {
            drop(other);
            Status::Ok
        }
    }
}
