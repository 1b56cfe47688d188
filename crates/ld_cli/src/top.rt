// The top call.
ghost use Rattle.std.specs.Prelude.{◌≡◌, ◌⊎◌, ⊤, ℕ, List, [], Some, true, false, codes, length, drop, map, string_bytes};
ghost use Rattle.ld_io.specs.Causes.{Rose};
ghost use Rattle.ld_io.specs.Input.{left_of};
ghost use Rattle.ld_link.specs.Peers.{Peers};
ghost use Rattle.ld_register.specs.Calls.{after_draw, ChangedOrNot};
ghost use Rattle.ld_node.specs.Known.{known_in};
ghost use Rattle.ld_serve.specs.Complete.{AreSpoken, MayOpen, IsFaultOrLimit};
ghost use Rattle.ld_serve.specs.Opening.{IsBlank, Stands};
ghost use Rattle.ld_serve.specs.Stops.{IsServingStop};
ghost use Rattle.ld_serve.specs.Whole.{HasServed, HasStopped, HasTold, HasToldUntil, IsNotOpened};
ghost use Rattle.ld_words.specs.Bounds.{HasBounds};
ghost use Rattle.ld_words.specs.declared.command.AppendWords.{AppendWords as AppendWanted};
ghost use Rattle.ld_words.specs.declared.command.NodeWords.{NodeWords as Wanted};
ghost use Rattle.ld_words.specs.declared.command.TailWords.{TailWords as TailWanted};
ghost use Rattle.ld_words.specs.declared.command.CrowdWords.{CrowdWords as CrowdWanted};
ghost use Rattle.ld_words.specs.declared.command.RegisterWords.{RegisterWords as RegisterWanted};
ghost use Rattle.ld_words.specs.declared.command.StatusWords.{StatusWords as StatusWanted};
ghost use Rattle.ld_words.specs.declared.command.CopyWords.{CopyWords as CopyWanted};
ghost use Rattle.ld_words.specs.declared.command.MendWords.{MendWords as MendWanted};
ghost use Rattle.ld_words.specs.declared.command.ReplaceWords.{ReplaceWords as ReplaceWanted};
ghost use Rattle.ld_words.specs.declared.command.ShowWords.{ShowWords as ShowWanted};
ghost use Rattle.ld_words.specs.declared.command.TrimWords.{TrimWords as TrimWanted};
ghost use Rattle.ld_words.specs.declared.command.Command.{Command as Wish};
ghost use Rattle.ld_words.specs.declared.command.Command.TheVariants.{Replay, Exercise, Node as Serve, Crowd as Gather, Append, Tail, Register as Tell, Status as Ask, Mend, Replace, Show, Trim, Copy};
ghost use Rattle.ld_words.specs.Meaning.{Asks, IsNoCommand, HasNoPlaces, AskForNoPlaces};
ghost use Rattle.ld_machine.specs.Config.{first_spec};
ghost use Rattle.ld_machine.specs.State.{State};
ghost use Rattle.ld_machine.specs.Step.{spec_set};
ghost use Rattle.ld_dial.specs.Far.{Far};
ghost use Rattle.ld_schedule.specs.declared.event.Event.{Event};
ghost use Rattle.ld_config.specs.Bounds.{IsInBounds};
ghost use Rattle.ld_rounds.specs.Drives.{counted, HasBroken};
ghost use Rattle.ld_rounds.specs.Onward.{reached, EndsRun};
ghost use Rattle.ld_rounds.specs.Endings.{IsOffAs, IsEndedOff};
ghost use Rattle.ld_rounds.specs.Reaching.{Begins};
ghost use Rattle.ld_append.specs.Acting.{MayCrowd, HoldsSome, LacksRoom};
ghost use Rattle.ld_append.specs.Appends.{HasNone as HasNoSequencers, sequencing, IsAppended, IsEndOfAppend, IsRefused};
ghost use Rattle.ld_tail.specs.Tails.{HasNone as HasNoReaders, IsTailed, IsTailEnd, EndsTail};
ghost use Rattle.ld_cli.specs.Payloads.{payloads_in};
ghost use Rattle.ld_cli.specs.Clients.{Drives, Looks, Shows, Gathers, Calls, Dials, Operates, AskForNone, EndsDrive, OnlyLooks};
ghost use Rattle.ld_cli.specs.Crowds.{IsCrowded};
ghost use Rattle.ld_operate.specs.Heard.{IsBroken as HasFallenSilent, IsStatusStop};
ghost use Rattle.ld_operate.specs.Status.{HasStatus};
ghost use Rattle.ld_cli.specs.Looks.{EndsRegister, EndsStatus};
ghost use Rattle.ld_cli.specs.Ends.{EndsBy, IsReplayed, IsSchedule, Completes};
ghost use Rattle.ld_cli.specs.Exercise.{EndsExercise};
ghost use Rattle.ld_cli.specs.Serving.{EndsServing, DiskFaults, RegisterFaults, LinkFaults};
ghost use Rattle.ld_cli.specs.Stopped.{IsShown, IsReplaced, IsMended};
ghost use Rattle.ld_cli.specs.Trims.{IsOffTrim, IsTrimmed};

use crate::clients::{appended, tailed};
use crate::crowding::crowded;
use crate::exercise::exercised;
use crate::looks::{asked, registered};
use crate::operating::operated;
use crate::replay::replayed;
use crate::serving::served;
use crate::status::Status;
use ld_crowd::Crowd;
use ld_dial::Nodes;
use ld_disk::Disk;
use ld_io::Sink;
use ld_link::Link;
use ld_ready::Ready;
use ld_register::Register;
use ld_words::{Command, read};
use std::alloc::Global;

/// Runs the command that the arguments name: a schedule from the input to the output, a made schedule to the output, a node
/// over the disk, the register and the link, or a sequencer or a reader over the register and the nodes. What a command has
/// no use for isn't called.
pub fn run<I: Ready, O: Sink, D: Disk, G: Register, L: Link, N: Nodes, C: Crowd>(
    alloc: Global,
    words: &[String],
    input: &mut I,
    out: &mut O,
    disk: &mut D,
    reg: &mut G,
    link: &mut L,
    nodes: &mut N,
    crowd: &mut C,
) -> Status
    requires nobody { C.did crowd.old ≡ [] }
    ensures usage { result ≡ Status.Usage → IsNoCommand (map string_bytes words.now) }
    ensures refused { IsNoCommand (map string_bytes words.now) → (result ≡ Status.Usage) ⊎ (result ≡ Status.NoMemory) }

    // `replay`: whatever the whole input may be, what was written in this call, by how the run ends. It may be no input that it
    // couldn't be before.
    ensures replayed { Asks (map string_bytes words.now) Replay → (all : List ℕ) → I.may_be input.new all → EndsBy (drop (length (I.gave input.old)) all) (Some (O.written out.old)) (Some (O.written out.new)) result }
    ensures fed { Asks (map string_bytes words.now) Replay → (all : List ℕ) → I.may_be input.new all → I.may_be input.old all }
    // At the status Ok the input was read to its end, and what was written in this call is the transcript of what was read in it.
    ensures read_to_end { Asks (map string_bytes words.now) Replay → result ≡ Status.Ok → (all : List ℕ) → I.may_be input.new all → all ≡ I.gave input.new }
    ensures transcribed { Asks (map string_bytes words.now) Replay → result ≡ Status.Ok → IsReplayed (drop (length (I.gave input.old)) (I.gave input.new)) (Some (O.written out.old)) (Some (O.written out.new)) }
    // A schedule is replayed to its end, unless the source, the sink or the memory fails.
    ensures complete { Asks (map string_bytes words.now) Replay → (all : List ℕ) → I.may_be input.new all → IsSchedule (drop (length (I.gave input.old)) all) → Completes (Rose (I.faults input.old) (I.faults input.new)) (Rose (O.faults out.old) (O.faults out.new)) result }

    // `exercise`: the summary of the made schedule's run, unless the sink or the memory fails.
    ensures exercised { (seed events : ℕ) → Asks (map string_bytes words.now) (Exercise seed events) → EndsExercise seed events (Some (O.written out.old)) (Some (O.written out.new)) result }

    // `node`: it was opened and has served its turns; or it was opened, and stopped while it served; or it wasn't opened.
    // Each stop has its cause. Where it was formatted, also where it stopped then, the register holds that one draw more.
    ensures served { (n : Wanted) (start : Peers) → Asks (map string_bytes words.now) (Serve n) → L.peers link.old ≡ Some start
        → EndsServing (HasServed (D.seen disk.old) (D.may_leave disk.new) (G.holds reg.old) (G.holds reg.new) n.id (known_in n.config) n.format start (L.peers link.new) n.turns)
        (λ stop. IsNotOpened (D.faults disk.old) (D.faults disk.new) (D.seen disk.old) (D.seen disk.new) (D.may_leave disk.old) (D.may_leave disk.new)
        (G.faults reg.old) (G.faults reg.new) (G.told reg.old) (G.holds reg.old) (G.holds reg.new) (G.damaged reg.old) n.id n.format link.old link.new stop
        ⊎ HasStopped (D.seen disk.old) (D.may_leave disk.new) (G.holds reg.old) (G.holds reg.new) n.id (known_in n.config) n.format start (L.peers link.new) stop) result }
    // The same of every link, by the calls that it answered: each frame was read while no whole one was held, and the frames of its
    // answers were written before the next read. Each peer but the present one was read to its end.
    ensures told { (n : Wanted) → Asks (map string_bytes words.now) (Serve n) → EndsServing (HasTold (D.seen disk.old) (D.may_leave disk.new) (G.holds reg.old) (G.holds reg.new) n.id (known_in n.config) n.format (L.did link.old) (L.did link.new) n.turns)
        (λ stop. IsNotOpened (D.faults disk.old) (D.faults disk.new) (D.seen disk.old) (D.seen disk.new) (D.may_leave disk.old) (D.may_leave disk.new)
        (G.faults reg.old) (G.faults reg.new) (G.told reg.old) (G.holds reg.old) (G.holds reg.new) (G.damaged reg.old) n.id n.format link.old link.new stop
        ⊎ HasToldUntil (D.seen disk.old) (D.may_leave disk.new) (G.holds reg.old) (G.holds reg.new) n.id (known_in n.config) n.format (L.did link.old) (L.did link.new) n.turns stop) result }
    // Whatever the link tells: what no serving node stops with comes before the link is called, and has its cause.
    ensures opening { (n : Wanted) → Asks (map string_bytes words.now) (Serve n) → EndsServing ⊤
        (λ stop. IsNotOpened (D.faults disk.old) (D.faults disk.new) (D.seen disk.old) (D.seen disk.new) (D.may_leave disk.old) (D.may_leave disk.new)
        (G.faults reg.old) (G.faults reg.new) (G.told reg.old) (G.holds reg.old) (G.holds reg.new) (G.damaged reg.old) n.id n.format link.old link.new stop
        ⊎ IsServingStop (Stands (D.seen disk.old)) stop) result }
    // Where the peers' bytes are frames, but for a last one that may be cut, and the disk's bytes are a formatted store's
    // journal, or are blank, to be formatted, beside a register that isn't damaged: it serves its turns, unless one of the
    // three or the memory fails, or a limit is reached.
    ensures complete_node { (n : Wanted) (start : Peers) (bytes : List ℕ) → Asks (map string_bytes words.now) (Serve n) → L.peers link.old ≡ Some start → AreSpoken start.coming
        → D.seen disk.old ≡ Some bytes → MayOpen (G.told reg.old) (G.damaged reg.old) n.format bytes → EndsServing ⊤ IsFaultOrLimit result }
    // The register is called only where a format is asked for and the disk is blank, and then it is one draw at most.
    ensures unasked { (n : Wanted) → Asks (map string_bytes words.now) (Serve n) → n.format ≡ false → reg.new ≡ reg.old }
    ensures formatted { (n : Wanted) (bytes : List ℕ) → Asks (map string_bytes words.now) (Serve n) → D.seen disk.old ≡ Some bytes → (IsBlank bytes → ⊥) → reg.new ≡ reg.old }
    ensures drawn { (n : Wanted) → Asks (map string_bytes words.now) (Serve n) → G.told reg.old → ChangedOrNot (G.may_hold reg.old) (G.may_hold reg.new) (λ c. after_draw c n.id) }

    // `node` with several peers at once: each frame that was taken, in the order over all peers, is one step of the node; of each
    // peer what was read is its frames and then less than one or what begins none, and what was said to it are the answers to its
    // own frames, in order. Each stop has its cause, and the rest is as of a node that serves one peer after the other.
    ensures crowded { (w : CrowdWanted) → Asks (map string_bytes words.now) (Gather w) → IsCrowded (D.faults disk.old) (D.faults disk.new) (D.seen disk.old) (D.seen disk.new) (D.may_leave disk.old) (D.may_leave disk.new)
        (G.faults reg.old) (G.faults reg.new) (G.told reg.old) (G.holds reg.old) (G.holds reg.new) (G.may_hold reg.old) (G.may_hold reg.new) (G.damaged reg.old)
        (C.faults crowd.old) (C.faults crowd.new) (C.did crowd.new) crowd.old crowd.new reg.old reg.new w result }

    // `register`: the text of what the register holds of the log was written, or, where it stopped, a part of it from the front,
    // and why.
    ensures registered { (r : RegisterWanted) → Asks (map string_bytes words.now) (Tell r) → EndsRegister (G.told reg.old) (G.damaged reg.old) (G.faults reg.old) (G.faults reg.new) (O.faults out.old) (O.faults out.new) (G.holds reg.old) (O.written out.old) (O.written out.new) r result }

    // `status`: the same of the last epochs, and then what each node of the configuration answers. At Ok each was asked and told all;
    // at Link one was silent, whose call failed or which had ended.
    ensures asked { (s : StatusWanted) → Asks (map string_bytes words.now) (Ask s) → EndsStatus (HasStatus s.json (G.holds reg.old) (N.tells nodes.old) (N.tells nodes.new) (N.silent nodes.new) s.config s.log s.epochs (O.written out.old) (O.written out.new))
        (HasFallenSilent (N.faults nodes.old) (N.faults nodes.new) (N.endings nodes.old) (N.endings nodes.new))
        (IsStatusStop (λ place. G.told reg.old → G.damaged reg.old place) (G.faults reg.old) (G.faults reg.new) (O.faults out.old) (O.faults out.new) (N.off nodes.new)) result }
    ensures shows { (asked : Wish) → Asks (map string_bytes words.now) asked → Shows asked → OnlyLooks (G.told reg.old) (G.told reg.new) (G.may_hold reg.old) (G.may_hold reg.new) }

    // `tail`: where the nodes and the register tell what stands there, from any sound state of the written machine with these
    // and without readers: the drive is steps of the machine, the opening of the reader and then round by round a poll and
    // visits of the configuration's nodes, one after the other, each until nothing waits for its node; a reader of one copy
    // polls just at the start of those rounds at which nothing waits for any of them. What was written are the reader's lines of
    // those steps. At the status Ok the reader of the state that was reached is past its last number; at NoMemory and Write the
    // last step may be done in part.
    ensures tailed { (t : TailWanted) (s : State) (far : Far) → Asks (map string_bytes words.now) (Tail t) → N.tells nodes.old t.of.config far → Begins (HasNoReaders (G.tells reg.old)) t.of.config s far
        → (N.silent nodes.new ≡ true) ⊎ EndsDrive (N.faults nodes.old) (N.faults nodes.new)
        (IsTailed (record { name = codes "r"; log = t.of.log; from = t.from; until = t.until; style = t.style }) (counted (N.faults nodes.old) (N.faults nodes.new) (N.endings nodes.old) (N.endings nodes.new)) t.of.rounds (N.tells nodes.new) (G.tells reg.new) t.of.config s (Some (O.written out.old)) (Some (O.written out.new))) result }
    // Where a run of the written machine leads to such a state, that run goes on by those steps, and is safe as a whole.
    ensures safe_tail { (t : TailWanted) (before : List Event) (far : Far) → Asks (map string_bytes words.now) (Tail t) → IsInBounds t.of.config → N.tells nodes.old t.of.config far → Begins (HasNoReaders (G.tells reg.old)) t.of.config (reached t.of.config before) far
        → (N.silent nodes.new ≡ true) ⊎ EndsDrive (N.faults nodes.old) (N.faults nodes.new)
        (EndsTail (record { name = codes "r"; log = t.of.log; from = t.from; until = t.until; style = t.style }) (HasBroken (counted (N.faults nodes.old) (N.faults nodes.new) (N.endings nodes.old) (N.endings nodes.new))) t.of.config before (Some (O.written out.old)) (Some (O.written out.new))) result }
    // Whatever they tell, each status has its cause: Register comes only where the register's count of faults rose, and Damaged
    // only where its bytes are no journal from that offset on.
    ensures tail_ends { (t : TailWanted) → Asks (map string_bytes words.now) (Tail t) → EndsDrive (N.faults nodes.old) (N.faults nodes.new)
        (IsTailEnd (λ place. G.told reg.old → G.damaged reg.old place) (G.faults reg.old) (G.faults reg.new) (O.faults out.old) (O.faults out.new)) result }
    // It changes nothing of the register.
    ensures only_looks { (t : TailWanted) → Asks (map string_bytes words.now) (Tail t) → OnlyLooks (G.told reg.old) (G.told reg.new) (G.may_hold reg.old) (G.may_hold reg.new) }

    // `append`: where the nodes and the register tell what stands there, from any sound state of the written machine with these
    // and without sequencers, in which the log's next activation fixes what the configuration says of it: the drive is steps of
    // the machine, the activation and then round by round what is sent again (but in the first), appends and trims, and visits
    // of the configuration's nodes, one after the other, each until nothing waits for its node; and what was written are the
    // sequencer's lines of those steps. A trim comes only where each append is acknowledged and each epoch before its own is
    // closed. The payloads and trims that the machine took are those that the lines of the input spell, or the payloads of the
    // batches whose messages they spell where batches are asked for: the first ones in their order, all at the status Ok, and at
    // BadSchedule all before the line with a syntax error. At the status Ok each append is acknowledged, each epoch before its
    // own is closed, and no message waits.
    ensures appended { (w : AppendWanted) (s : State) (far : Far) → Asks (map string_bytes words.now) (Append w) → N.tells nodes.old w.of.config far → Begins (HasNoSequencers (codes "s") (G.tells reg.old)) w.of.config s far → spec_set w.of.config s w.of.log ≡ first_spec w.of.config w.of.log
        → (N.silent nodes.new ≡ true) ⊎ EndsDrive (N.faults nodes.old) (N.faults nodes.new)
        (IsAppended (codes "s") w.of.log (counted (N.faults nodes.old) (N.faults nodes.new) (N.endings nodes.old) (N.endings nodes.new)) (payloads_in w.batches (left_of (I.known input.old) (I.gave input.old))) w.of.rounds (N.tells nodes.new) (G.tells reg.new) w.of.config s (Some (O.written out.old)) (Some (O.written out.new))) result }
    // Where a run of the written machine leads to such a state, with whatever other sequencers, that run goes on by those steps,
    // and is safe as a whole.
    ensures safe_append { (w : AppendWanted) (before : List Event) (far : Far) → Asks (map string_bytes words.now) (Append w) → IsInBounds w.of.config → N.tells nodes.old w.of.config far → Begins (HasNoSequencers (codes "s") (G.tells reg.old)) w.of.config (reached w.of.config before) far → spec_set w.of.config (reached w.of.config before) w.of.log ≡ first_spec w.of.config w.of.log
        → (N.silent nodes.new ≡ true) ⊎ EndsDrive (N.faults nodes.old) (N.faults nodes.new) (EndsRun (sequencing (codes "s")) (HasBroken (counted (N.faults nodes.old) (N.faults nodes.new) (N.endings nodes.old) (N.endings nodes.new))) w.of.config before (Some (O.written out.old)) (Some (O.written out.new))) result }
    // Whatever they tell: the count of their failures says which status the last round gives, and a line came before what it
    // refuses, or the register was damaged, or may have held as many other logs as may be.
    ensures append_ends { (w : AppendWanted) → Asks (map string_bytes words.now) (Append w) → EndsDrive (N.faults nodes.old) (N.faults nodes.new)
        (IsEndOfAppend (G.told reg.old → MayCrowd (G.may_hold reg.old) w.of.log) (λ place. G.told reg.old → G.damaged reg.old place) (payloads_in w.batches (left_of (I.known input.old) (I.gave input.old))) (I.faults input.old) (I.faults input.new) (O.faults out.old) (O.faults out.new) (Some (O.written out.old)) (Some (O.written out.new))) result }

    // Register comes only where the register's count of faults rose. Where it didn't, and the register tells what it holds,
    // Damaged comes only where that was no journal from that offset on, and JournalFull only where it was a whole one and what
    // it holds now leaves no room for an activation or a close.
    ensures append_refused { (w : AppendWanted) → Asks (map string_bytes words.now) (Append w) → EndsDrive (N.faults nodes.old) (N.faults nodes.new)
        (IsRefused (λ place. G.told reg.old → G.damaged reg.old place) (G.told reg.old → HoldsSome (G.holds reg.old) × LacksRoom (G.holds reg.new)) (G.faults reg.old) (G.faults reg.new)) result }

    // BadFrame comes of these two only by the fault that the nodes found in the bytes of the one that was dialed last, and it comes
    // wherever they found one.
    ensures off { (asked : Wish) → Asks (map string_bytes words.now) asked → Drives asked → EndsDrive (N.faults nodes.old) (N.faults nodes.new) (IsOffAs (N.off nodes.new)) result }
    ensures ended { (asked : Wish) → Asks (map string_bytes words.now) asked → Drives asked → EndsDrive (N.faults nodes.old) (N.faults nodes.new) (IsEndedOff (N.off nodes.old) (N.off nodes.new)) result }

    // `mend`: the node's store was opened, and all that was done are ticks of the node and answers to its own asks that it took, and
    // what was written is the text of that and of how it stands for each log: at Ok it lacks nothing of any. Or it stopped behind
    // such deeds; or the store wasn't opened. Each stop has its cause.
    ensures mended { (w : MendWanted) → Asks (map string_bytes words.now) (Mend w) → IsMended D.faults D.seen D.may_leave O.faults O.written G.faults G.told G.damaged G.holds G.may_hold G.tells G.identity N.faults N.tells N.silent N.off disk.old disk.new reg.old reg.new nodes.old nodes.new out.old out.new w result }
    // `replace`: the register was asked for the node to take the other one's place, once at most, as the specification says of the
    // node's plain state and of what the register held, and the line of that was written. Each stop has its cause.
    ensures replaced { (w : ReplaceWanted) → Asks (map string_bytes words.now) (Replace w) → IsReplaced D.faults D.seen D.may_leave O.faults O.written G.faults G.told G.damaged G.holds G.may_hold G.tells disk.old disk.new reg.old reg.new out.old out.new w result }
    // `show`: the text of the plain state that the store represents was written, or a part of it from the front, and why.
    ensures shown { (w : ShowWanted) → Asks (map string_bytes words.now) (Show w) → (reg.new ≡ reg.old) × IsShown D.faults D.seen D.may_leave O.faults O.written disk.old disk.new out.old out.new w result }
    // `trim`: the drive is as of an append of this one trim. Where it is done, the lines of how far each node has trimmed come
    // behind its own ones, and at Ok each has trimmed as far as was asked for.
    ensures trimmed { (w : TrimWanted) → Asks (map string_bytes words.now) (Trim w) → (disk.new ≡ disk.old) × IsTrimmed N.faults N.endings N.tells N.silent N.off G.faults G.told G.damaged G.holds G.may_hold G.tells O.faults O.written nodes.old nodes.new reg.old reg.new out.old out.new w result }
    // `trim` as well ends with BadFrame only by the fault that the nodes found.
    ensures off_trim { (w : TrimWanted) → Asks (map string_bytes words.now) (Trim w) → IsOffTrim (N.off nodes.new) result }
    // `register --copy` isn't carried out here: nothing is called.
    ensures copied { (w : CopyWanted) → Asks (map string_bytes words.now) (Copy w) → ((result ≡ Status.Ok) ⊎ (result ≡ Status.NoMemory)) × (out.new ≡ out.old) × (disk.new ≡ disk.old) × (reg.new ≡ reg.old) }

    // Each of these statuses comes only where the count of that object rose; at any other the last three stay.
    ensures read { result ≡ Status.Read → Rose (I.faults input.old) (I.faults input.new) }
    ensures write { result ≡ Status.Write → Rose (O.faults out.old) (O.faults out.new) }
    ensures disk { DiskFaults (D.faults disk.old) (D.faults disk.new) result }
    ensures register { AskForNone Looks (map string_bytes words.now) → RegisterFaults (G.faults reg.old) (G.faults reg.new) result }
    ensures link { AskForNone Calls (map string_bytes words.now) → LinkFaults (L.faults link.old) (L.faults link.new) result }

    // What a command has no use for stays as it was.
    ensures unread { (seed events : ℕ) → Asks (map string_bytes words.now) (Exercise seed events) → input.new ≡ input.old }
    ensures streams { (n : Wanted) → Asks (map string_bytes words.now) (Serve n) → (input.new ≡ input.old) × (out.new ≡ out.old) }
    ensures untouched { IsNoCommand (map string_bytes words.now) → (input.new ≡ input.old) × (out.new ≡ out.old) }
    ensures outside { AskForNoPlaces (map string_bytes words.now) → (disk.new ≡ disk.old) × (reg.new ≡ reg.old) × (link.new ≡ link.old) }
    ensures driven { (asked : Wish) → Asks (map string_bytes words.now) asked → Drives asked → (disk.new ≡ disk.old) × (link.new ≡ link.old) }
    ensures undriven { AskForNone Dials (map string_bytes words.now) → nodes.new ≡ nodes.old }
    ensures alone { AskForNone Gathers (map string_bytes words.now) → crowd.new ≡ crowd.old }
    ensures gathers { (w : CrowdWanted) → Asks (map string_bytes words.now) (Gather w) → (input.new ≡ input.old) × (out.new ≡ out.old) × (link.new ≡ link.old) }
    ensures untold { (asked : Wish) → Asks (map string_bytes words.now) asked → Shows asked → (input.new ≡ input.old) × (disk.new ≡ disk.old) × (link.new ≡ link.old) }
    ensures unfed { (t : TailWanted) → Asks (map string_bytes words.now) (Tail t) → input.new ≡ input.old }
    ensures operated { (asked : Wish) → Asks (map string_bytes words.now) asked → Operates asked → (input.new ≡ input.old) × (link.new ≡ link.old) }
{
    match read(alloc, words) {
        Ok(Some(command)) => carry_out(alloc, command, input, out, disk, reg, link, nodes, crowd),
        Ok(None) => Status::Usage,
        Err(_) => Status::NoMemory,
    }
}

/// Runs a command.
fn carry_out<I: Ready, O: Sink, D: Disk, G: Register, L: Link, N: Nodes, C: Crowd>(
    alloc: Global,
    command: Command,
    input: &mut I,
    out: &mut O,
    disk: &mut D,
    reg: &mut G,
    link: &mut L,
    nodes: &mut N,
    crowd: &mut C,
) -> Status
    requires bounds { HasBounds command }
    requires nobody { C.did crowd.old ≡ [] }
    ensures usage { result ≡ Status.Usage → ⊥ }
    ensures replayed { command ≡ Replay → (all : List ℕ) → I.may_be input.new all → EndsBy (drop (length (I.gave input.old)) all) (Some (O.written out.old)) (Some (O.written out.new)) result }
    ensures fed { command ≡ Replay → (all : List ℕ) → I.may_be input.new all → I.may_be input.old all }
    ensures read_to_end { command ≡ Replay → result ≡ Status.Ok → (all : List ℕ) → I.may_be input.new all → all ≡ I.gave input.new }
    ensures transcribed { command ≡ Replay → result ≡ Status.Ok → IsReplayed (drop (length (I.gave input.old)) (I.gave input.new)) (Some (O.written out.old)) (Some (O.written out.new)) }
    ensures complete { command ≡ Replay → (all : List ℕ) → I.may_be input.new all → IsSchedule (drop (length (I.gave input.old)) all) → Completes (Rose (I.faults input.old) (I.faults input.new)) (Rose (O.faults out.old) (O.faults out.new)) result }
    ensures exercised { (seed events : ℕ) → command ≡ Exercise seed events → EndsExercise seed events (Some (O.written out.old)) (Some (O.written out.new)) result }
    ensures served { (n : Wanted) (start : Peers) → command ≡ Serve n → L.peers link.old ≡ Some start
        → EndsServing (HasServed (D.seen disk.old) (D.may_leave disk.new) (G.holds reg.old) (G.holds reg.new) n.id (known_in n.config) n.format start (L.peers link.new) n.turns)
        (λ stop. IsNotOpened (D.faults disk.old) (D.faults disk.new) (D.seen disk.old) (D.seen disk.new) (D.may_leave disk.old) (D.may_leave disk.new)
        (G.faults reg.old) (G.faults reg.new) (G.told reg.old) (G.holds reg.old) (G.holds reg.new) (G.damaged reg.old) n.id n.format link.old link.new stop
        ⊎ HasStopped (D.seen disk.old) (D.may_leave disk.new) (G.holds reg.old) (G.holds reg.new) n.id (known_in n.config) n.format start (L.peers link.new) stop) result }
    ensures told { (n : Wanted) → command ≡ Serve n → EndsServing (HasTold (D.seen disk.old) (D.may_leave disk.new) (G.holds reg.old) (G.holds reg.new) n.id (known_in n.config) n.format (L.did link.old) (L.did link.new) n.turns)
        (λ stop. IsNotOpened (D.faults disk.old) (D.faults disk.new) (D.seen disk.old) (D.seen disk.new) (D.may_leave disk.old) (D.may_leave disk.new)
        (G.faults reg.old) (G.faults reg.new) (G.told reg.old) (G.holds reg.old) (G.holds reg.new) (G.damaged reg.old) n.id n.format link.old link.new stop
        ⊎ HasToldUntil (D.seen disk.old) (D.may_leave disk.new) (G.holds reg.old) (G.holds reg.new) n.id (known_in n.config) n.format (L.did link.old) (L.did link.new) n.turns stop) result }
    ensures opening { (n : Wanted) → command ≡ Serve n → EndsServing ⊤
        (λ stop. IsNotOpened (D.faults disk.old) (D.faults disk.new) (D.seen disk.old) (D.seen disk.new) (D.may_leave disk.old) (D.may_leave disk.new)
        (G.faults reg.old) (G.faults reg.new) (G.told reg.old) (G.holds reg.old) (G.holds reg.new) (G.damaged reg.old) n.id n.format link.old link.new stop
        ⊎ IsServingStop (Stands (D.seen disk.old)) stop) result }
    ensures complete_node { (n : Wanted) (start : Peers) (bytes : List ℕ) → command ≡ Serve n → L.peers link.old ≡ Some start → AreSpoken start.coming
        → D.seen disk.old ≡ Some bytes → MayOpen (G.told reg.old) (G.damaged reg.old) n.format bytes → EndsServing ⊤ IsFaultOrLimit result }
    ensures unasked { (n : Wanted) → command ≡ Serve n → n.format ≡ false → reg.new ≡ reg.old }
    ensures formatted { (n : Wanted) (bytes : List ℕ) → command ≡ Serve n → D.seen disk.old ≡ Some bytes → (IsBlank bytes → ⊥) → reg.new ≡ reg.old }
    ensures drawn { (n : Wanted) → command ≡ Serve n → G.told reg.old → ChangedOrNot (G.may_hold reg.old) (G.may_hold reg.new) (λ c. after_draw c n.id) }
    ensures crowded { (w : CrowdWanted) → command ≡ Gather w → IsCrowded (D.faults disk.old) (D.faults disk.new) (D.seen disk.old) (D.seen disk.new) (D.may_leave disk.old) (D.may_leave disk.new)
        (G.faults reg.old) (G.faults reg.new) (G.told reg.old) (G.holds reg.old) (G.holds reg.new) (G.may_hold reg.old) (G.may_hold reg.new) (G.damaged reg.old)
        (C.faults crowd.old) (C.faults crowd.new) (C.did crowd.new) crowd.old crowd.new reg.old reg.new w result }
    ensures registered { (r : RegisterWanted) → command ≡ Tell r → EndsRegister (G.told reg.old) (G.damaged reg.old) (G.faults reg.old) (G.faults reg.new) (O.faults out.old) (O.faults out.new) (G.holds reg.old) (O.written out.old) (O.written out.new) r result }
    ensures asked { (s : StatusWanted) → command ≡ Ask s → EndsStatus (HasStatus s.json (G.holds reg.old) (N.tells nodes.old) (N.tells nodes.new) (N.silent nodes.new) s.config s.log s.epochs (O.written out.old) (O.written out.new))
        (HasFallenSilent (N.faults nodes.old) (N.faults nodes.new) (N.endings nodes.old) (N.endings nodes.new))
        (IsStatusStop (λ place. G.told reg.old → G.damaged reg.old place) (G.faults reg.old) (G.faults reg.new) (O.faults out.old) (O.faults out.new) (N.off nodes.new)) result }
    ensures shows { Shows command → OnlyLooks (G.told reg.old) (G.told reg.new) (G.may_hold reg.old) (G.may_hold reg.new) }
    ensures tailed { (t : TailWanted) (s : State) (far : Far) → command ≡ Tail t → N.tells nodes.old t.of.config far → Begins (HasNoReaders (G.tells reg.old)) t.of.config s far
        → (N.silent nodes.new ≡ true) ⊎ EndsDrive (N.faults nodes.old) (N.faults nodes.new)
        (IsTailed (record { name = codes "r"; log = t.of.log; from = t.from; until = t.until; style = t.style }) (counted (N.faults nodes.old) (N.faults nodes.new) (N.endings nodes.old) (N.endings nodes.new)) t.of.rounds (N.tells nodes.new) (G.tells reg.new) t.of.config s (Some (O.written out.old)) (Some (O.written out.new))) result }
    ensures tail_ends { (t : TailWanted) → command ≡ Tail t → EndsDrive (N.faults nodes.old) (N.faults nodes.new)
        (IsTailEnd (λ place. G.told reg.old → G.damaged reg.old place) (G.faults reg.old) (G.faults reg.new) (O.faults out.old) (O.faults out.new)) result }
    ensures only_looks { (t : TailWanted) → command ≡ Tail t → OnlyLooks (G.told reg.old) (G.told reg.new) (G.may_hold reg.old) (G.may_hold reg.new) }
    ensures appended { (w : AppendWanted) (s : State) (far : Far) → command ≡ Append w → N.tells nodes.old w.of.config far → Begins (HasNoSequencers (codes "s") (G.tells reg.old)) w.of.config s far → spec_set w.of.config s w.of.log ≡ first_spec w.of.config w.of.log
        → (N.silent nodes.new ≡ true) ⊎ EndsDrive (N.faults nodes.old) (N.faults nodes.new)
        (IsAppended (codes "s") w.of.log (counted (N.faults nodes.old) (N.faults nodes.new) (N.endings nodes.old) (N.endings nodes.new)) (payloads_in w.batches (left_of (I.known input.old) (I.gave input.old))) w.of.rounds (N.tells nodes.new) (G.tells reg.new) w.of.config s (Some (O.written out.old)) (Some (O.written out.new))) result }
    ensures append_ends { (w : AppendWanted) → command ≡ Append w → EndsDrive (N.faults nodes.old) (N.faults nodes.new)
        (IsEndOfAppend (G.told reg.old → MayCrowd (G.may_hold reg.old) w.of.log) (λ place. G.told reg.old → G.damaged reg.old place) (payloads_in w.batches (left_of (I.known input.old) (I.gave input.old))) (I.faults input.old) (I.faults input.new) (O.faults out.old) (O.faults out.new) (Some (O.written out.old)) (Some (O.written out.new))) result }
    ensures append_refused { (w : AppendWanted) → command ≡ Append w → EndsDrive (N.faults nodes.old) (N.faults nodes.new)
        (IsRefused (λ place. G.told reg.old → G.damaged reg.old place) (G.told reg.old → HoldsSome (G.holds reg.old) × LacksRoom (G.holds reg.new)) (G.faults reg.old) (G.faults reg.new)) result }
    ensures off { Drives command → EndsDrive (N.faults nodes.old) (N.faults nodes.new) (IsOffAs (N.off nodes.new)) result }
    ensures ended { Drives command → EndsDrive (N.faults nodes.old) (N.faults nodes.new) (IsEndedOff (N.off nodes.old) (N.off nodes.new)) result }
    ensures mended { (w : MendWanted) → command ≡ Mend w → IsMended D.faults D.seen D.may_leave O.faults O.written G.faults G.told G.damaged G.holds G.may_hold G.tells G.identity N.faults N.tells N.silent N.off disk.old disk.new reg.old reg.new nodes.old nodes.new out.old out.new w result }
    ensures replaced { (w : ReplaceWanted) → command ≡ Replace w → IsReplaced D.faults D.seen D.may_leave O.faults O.written G.faults G.told G.damaged G.holds G.may_hold G.tells disk.old disk.new reg.old reg.new out.old out.new w result }
    ensures shown { (w : ShowWanted) → command ≡ Show w → (reg.new ≡ reg.old) × IsShown D.faults D.seen D.may_leave O.faults O.written disk.old disk.new out.old out.new w result }
    ensures trimmed { (w : TrimWanted) → command ≡ Trim w → (disk.new ≡ disk.old) × IsTrimmed N.faults N.endings N.tells N.silent N.off G.faults G.told G.damaged G.holds G.may_hold G.tells O.faults O.written nodes.old nodes.new reg.old reg.new out.old out.new w result }
    ensures off_trim { (w : TrimWanted) → command ≡ Trim w → IsOffTrim (N.off nodes.new) result }
    ensures copied { (w : CopyWanted) → command ≡ Copy w → (result ≡ Status.Ok) × (out.new ≡ out.old) × (disk.new ≡ disk.old) × (reg.new ≡ reg.old) }
    ensures read { result ≡ Status.Read → Rose (I.faults input.old) (I.faults input.new) }
    ensures write { result ≡ Status.Write → Rose (O.faults out.old) (O.faults out.new) }
    ensures disk { DiskFaults (D.faults disk.old) (D.faults disk.new) result }
    ensures register { (Looks command → ⊥) → RegisterFaults (G.faults reg.old) (G.faults reg.new) result }
    ensures link { (Calls command → ⊥) → LinkFaults (L.faults link.old) (L.faults link.new) result }
    ensures unread { (seed events : ℕ) → command ≡ Exercise seed events → input.new ≡ input.old }
    ensures streams { (n : Wanted) → command ≡ Serve n → (input.new ≡ input.old) × (out.new ≡ out.old) }
    ensures outside { HasNoPlaces command → (disk.new ≡ disk.old) × (reg.new ≡ reg.old) × (link.new ≡ link.old) }
    ensures driven { Drives command → (disk.new ≡ disk.old) × (link.new ≡ link.old) }
    ensures undriven { (Dials command → ⊥) → nodes.new ≡ nodes.old }
    ensures alone { (Gathers command → ⊥) → crowd.new ≡ crowd.old }
    ensures gathers { (w : CrowdWanted) → command ≡ Gather w → (input.new ≡ input.old) × (out.new ≡ out.old) × (link.new ≡ link.old) }
    ensures untold { Shows command → (input.new ≡ input.old) × (disk.new ≡ disk.old) × (link.new ≡ link.old) }
    ensures unfed { (t : TailWanted) → command ≡ Tail t → input.new ≡ input.old }
    ensures operated { Operates command → (input.new ≡ input.old) × (link.new ≡ link.old) }
{
    match command {
        Command::Replay => replayed(alloc, input, out),
        Command::Exercise { seed, events } => exercised(alloc, seed, events, out),
        Command::Node(node) => served(alloc, &node, disk, reg, link),
        Command::Crowd(words) => crowded(alloc, &words, disk, reg, crowd),
        Command::Append(append) => appended(alloc, &append, input, out, reg, nodes),
        Command::Tail(tail) => tailed(alloc, &tail, out, reg, nodes),
        Command::Register(words) => registered(alloc, &words, out, reg),
        Command::Status(words) => asked(alloc, &words, out, reg, nodes),
        other => operated(alloc, other, out, disk, reg, nodes),
    }
}
