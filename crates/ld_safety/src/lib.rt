//! What holds of every run of the written machine, as laws on empty functions.
#![tactic(auto)]

ghost use Rattle.std.specs.Prelude.{ℕ, ◌≡◌, ◌⊎◌, ◌≤◌, ◌<◌, List, [], false, true};
ghost use Rattle.ld_lsn.specs.Number.{epoch_of, numbered};
ghost use Rattle.ld_msg.specs.declared.msg.Summary.{Summary};
ghost use Rattle.ld_config.specs.declared.config.Config.{Config};
ghost use Rattle.ld_config.specs.Bounds.{IsInBounds};
ghost use Rattle.ld_schedule.specs.declared.event.Event.{Event};
ghost use Rattle.ld_machine.specs.Safe.{AcksWereAppended, BatchesWereAppended, ItemsTile, LossesHappened, NothingHidden, NumbersDiffer, NumbersHaveEpochs, NumbersRise, OneNumber, RecordsWereAppended, ReleasesWereAcked, Safe, StylesAreKept, TrimsWereIssued};
ghost use Rattle.ld_transcript.specs.declared.line.Line.TheVariants.{NodeRebuilt, NodeWiped};
ghost use Rattle.ld_op.specs.Plain.{Plain, log_of};
ghost use Rattle.ld_op.specs.Ticks.{missing};
ghost use Rattle.ld_machine.specs.Config.{fixed_of, spec_of};
ghost use Rattle.ld_machine.specs.State.{node_at};
ghost use Rattle.ld_machine.specs.Facts.{Writes};
ghost use Rattle.ld_machine.specs.World.{MayHold, Stored, begin, chosen};
ghost use Rattle.ld_machine.specs.Run.{Move, history, trace, world_after};
ghost use Rattle.ld_machine.specs.Invariant.{Acked, Agrees, AppendsOf, BallotsDrawn, Closed, CopiesOf, CopyAt, EntriesAreItems, Epoch, GenerationsDrawn, HasLoss, HeldWasSent, IsOpen, LossesLast, LossesSay, LossesWereGone, OnePlan, OpenTrims, Ready, ReleasesAcked, Retains, SealsHold, SequencersDrawn, ShortCopies, StandsOn, SummariesAgree, TrimsIssued};
ghost use Rattle.ld_safety.specs.Closes.{ClosesSay, FullOrShort};
ghost use Rattle.ld_safety.specs.Lost.{CopiesWereLost, LossesWereAsked, LossesWereSeen, LossesWereTold, LostOnce, WholeStays};
ghost use Rattle.ld_safety.specs.OneCopy.{OneSends};
ghost use Rattle.ld_safety.specs.Together.{AllHold, LostInLines};
ghost use Rattle.ld_safety.specs.OneRun.{LinesAreTheSteps, StepsAreTheTrace};

/// But for `none`, the lines of a run's steps are those of its transcript.
pub fn lines_are_the_steps()
    ensures { LinesAreTheSteps }
{}

/// The steps of a run are the trace of what they take, which leads to the run's state.
pub fn steps_are_the_trace()
    ensures { StepsAreTheTrace }
{}

/// What each reader gets tiles the numbers from its first one on.
pub fn items_tile()
    ensures { (c : Config) (es : List Event) → IsInBounds c → ItemsTile c (history c es) }
{}

/// The numbers of each sequencer's appends rise.
pub fn numbers_rise()
    ensures { (c : Config) (es : List Event) → IsInBounds c → NumbersRise (history c es) }
{}

/// Two appends of a log don't share a number.
pub fn numbers_differ()
    ensures { (c : Config) (es : List Event) → IsInBounds c → NumbersDiffer (history c es) }
{}

/// A step appends one number at most, which has its sequencer's epoch: the one that was told active before, and no other one
/// was.
pub fn numbers_have_epochs()
    ensures one { (c : Config) (es : List Event) → IsInBounds c → OneNumber (history c es) }
    ensures epochs { (c : Config) (es : List Event) → IsInBounds c → NumbersHaveEpochs (history c es) }
{}

/// A number that is acknowledged was appended before. A released number isn't past its sequencer's epoch, which was told
/// active before, and each number of the epoch up to it was acknowledged by then; it may be the end of an epoch before.
pub fn numbers_were_appended()
    ensures acked { (c : Config) (es : List Event) → IsInBounds c → AcksWereAppended (history c es) }
    ensures released { (c : Config) (es : List Event) → IsInBounds c → ReleasesWereAcked (history c es) }
{}

/// A record that a reader gets is the payload that was appended under its number before.
pub fn records_were_appended()
    ensures { (c : Config) (es : List Event) → IsInBounds c → RecordsWereAppended c (history c es) }
{}

/// The step that gives a reader a message of a batch gives it all messages of the payload that was appended under its number before, one after the other in their order, and no other message of that number.
pub fn batches_were_appended()
    ensures { (c : Config) (es : List Event) → IsInBounds c → BatchesWereAppended c (history c es) }
{}

/// A reader of messages gets no record that is a batch, and one of records gets no message.
pub fn styles_are_kept()
    ensures { (c : Config) (es : List Event) → IsInBounds c → StylesAreKept c (history c es) }
{}

/// No hole or bridge that a reader gets holds a number that was acknowledged, or read as a record or a message, earlier or later.
pub fn nothing_is_hidden()
    ensures { (c : Config) (es : List Event) → IsInBounds c → NothingHidden c (history c es) }
{}

/// A trim gap ends at or below a point that was issued before.
pub fn trims_were_issued()
    ensures { (c : Config) (es : List Event) → IsInBounds c → TrimsWereIssued c (history c es) }
{}

/// What as many nodes as there are copies stored for a ballot is in each plan of a greater ballot, unless it is trimmed or known good there; loss plans are left out.
pub fn recoveries_agree()
    ensures { (c : Config) (ms : List Move) → IsInBounds c → Agrees c (world_after c (begin c) ms) }
{}

/// In every state, a loss plan was made where as many of the nodes that were fixed for its epoch as there are copies were blank or lost for it, each plan of a greater ballot is a loss plan too, and between what it vouches for nothing of and its end it says the record of the best statement, and where that is none, a plug.
pub fn losses_are_planned()
    ensures gone { (c : Config) (ms : List Move) → IsInBounds c → LossesWereGone c (world_after c (begin c) ms) }
    ensures last { (c : Config) (ms : List Move) → IsInBounds c → LossesLast (world_after c (begin c) ms) }
    ensures say { (c : Config) (ms : List Move) → IsInBounds c → LossesSay (world_after c (begin c) ms) }
{}

/// In every state, of each closed epoch that has no loss plan: each number above its trim and its last known good offset and below its end, where each item of the closing plan was settled by as many nodes as there are copies, as many nodes of the epoch, as swaps left it, settled the number so or took places in the epoch, and each of these is blank, or lost for the epoch, or trimmed at the number, or has what the closing plan says; also where not each was, as many nodes of the epoch are so, whether or not they settled the number; up to that offset as many stored the number's append or took places in the epoch, and each of these is blank, or lost, or trimmed so, or has its record.
pub fn copies_stand()
    ensures settled { (c : Config) (ms : List Move) → IsInBounds c → (l e k : ℕ) (s : Summary) → Closed (world_after c (begin c) ms) l e s → Ready c (world_after c (begin c) ms) l e s.ballot → s.trim < numbered e k → s.lng < k → k < s.end → CopiesOf c (world_after c (begin c) ms) l (numbered e k) s.ballot ⊎ HasLoss (world_after c (begin c) ms) l e }
    ensures short { (c : Config) (ms : List Move) → IsInBounds c → (l e k : ℕ) (s : Summary) → Closed (world_after c (begin c) ms) l e s → s.trim < numbered e k → s.lng < k → k < s.end → ShortCopies c (world_after c (begin c) ms) l (numbered e k) s.ballot ⊎ HasLoss (world_after c (begin c) ms) l e }
    ensures known_good { (c : Config) (ms : List Move) → IsInBounds c → (l e k : ℕ) (s : Summary) → Closed (world_after c (begin c) ms) l e s → s.trim < numbered e k → 0 < k → k ≤ s.lng → AppendsOf c (world_after c (begin c) ms) l (numbered e k) ⊎ HasLoss (world_after c (begin c) ms) l e }
{}

/// In every state, an epoch is closed fully or short. Fully: by a plan that found what it says, each item of which, the bridge too, as many nodes as there are copies, of those that were fixed for the epoch, settled for that plan. Short: each node that was fixed for the epoch settled each item of the closing plan for it, the bridge too, or told its sequencer that it is lost for the epoch, and no plan of the epoch has a greater ballot. The closing plan has an item at each offset up to its end that is above its trim and its last known good offset.
pub fn closes_are_full_or_short()
    ensures how { (c : Config) (ms : List Move) → IsInBounds c → FullOrShort c (world_after c (begin c) ms) }
    ensures say { (c : Config) (ms : List Move) → IsInBounds c → ClosesSay (world_after c (begin c) ms) }
{}

/// In every state, what a node stored for a ballot it still has with at least that ballot, unless it doesn't serve the epoch, was trimmed at the number, or a later plan cut the number off.
pub fn stored_stays()
    ensures { (c : Config) (ms : List Move) → IsInBounds c → Retains (world_after c (begin c) ms) }
{}

/// In every state, a node that gave a page for a ballot is sealed at it, unless it doesn't serve the epoch.
pub fn seals_hold()
    ensures { (c : Config) (ms : List Move) → IsInBounds c → SealsHold (world_after c (begin c) ms) }
{}

/// In every state, each sequencer has an epoch that was handed out, and no two of a log have the same.
pub fn epochs_are_drawn_once()
    ensures { (c : Config) (ms : List Move) → IsInBounds c → SequencersDrawn (world_after c (begin c) ms) }
{}

/// In every state, each generation at a node, in what a node says and in what a reader asks it once more for was handed out to that node, and no two formats of a node have the same.
pub fn generations_are_drawn_once()
    ensures { (c : Config) (ms : List Move) → IsInBounds c → GenerationsDrawn (trace c (begin c) ms) (world_after c (begin c) ms) }
{}

/// In every state, each entry at a node, in a store or in a page, but for withheld ones, has a ballot that was handed out, at least its epoch, and nodes are sealed at ballots that were handed out, as they say.
pub fn ballots_were_drawn()
    ensures { (c : Config) (ms : List Move) → IsInBounds c → BallotsDrawn (world_after c (begin c) ms) }
{}

/// In every state, each summary at a node or in a message is the one that closed its epoch in the register, and its ballot was handed out after the epoch.
pub fn summaries_agree()
    ensures { (c : Config) (ms : List Move) → IsInBounds c → SummariesAgree (world_after c (begin c) ms) }
{}

/// In every state, where a reader asks for one copy of each record in a round, each record in a page of that round comes from the node that is to send it, so from one node at most.
pub fn one_node_sends()
    ensures { (c : Config) (ms : List Move) → IsInBounds c → OneSends (world_after c (begin c) ms) }
{}

/// In every state, each answer that a reader holds was sent to it by that node, and each entry in a recovery's digest came in a page of that node to the recovery's sequencer.
pub fn what_is_held_was_sent()
    ensures { (c : Config) (ms : List Move) → IsInBounds c → HeldWasSent (world_after c (begin c) ms) }
{}

/// In every state, a ballot has planned an epoch of a log at most once.
pub fn plans_are_made_once()
    ensures { (c : Config) (ms : List Move) → IsInBounds c → OnePlan (world_after c (begin c) ms) }
{}

/// In every state, each trim at a node, in a summary, in a message, in a recovery's digest, plan or summary, and in a digest that a plan was made from is none, or a point that was issued for the log.
pub fn trims_are_issued_points()
    ensures { (c : Config) (ms : List Move) → IsInBounds c → TrimsIssued (trace c (begin c) ms) (world_after c (begin c) ms) }
{}

/// In every state, each entry at a node, in a store or in a page, but for withheld ones, each item of a plan that is stored and each append that waits says what its ballot says of its number, or was refilled where it was known good as the epoch was closed or where a loss plan says it, and a record is the payload that was appended under it.
pub fn entries_are_items()
    ensures { (c : Config) (ms : List Move) → IsInBounds c → EntriesAreItems (trace c (begin c) ms) (world_after c (begin c) ms) }
{}

/// In every state, what a plan says that closed its epoch, or that is settled while its epoch is open, is in each plan of a greater ballot, unless it is trimmed or known good in one of the two, and none of these ends before it; loss plans are left out.
pub fn what_stands_is_followed()
    ensures { (c : Config) (ms : List Move) → IsInBounds c → StandsOn c (world_after c (begin c) ms) }
{}

/// In every state, a released number with a place covers only numbers of its epoch that lines acknowledged, and the epochs before it are closed.
pub fn releases_cover_acknowledged()
    ensures { (c : Config) (ms : List Move) → IsInBounds c → ReleasesAcked (trace c (begin c) ms) (world_after c (begin c) ms) }
{}

/// In every state, a point of an open epoch that was issued covers only numbers of the epoch that lines acknowledged.
pub fn open_trims_cover_acknowledged()
    ensures { (c : Config) (ms : List Move) → IsInBounds c → OpenTrims (trace c (begin c) ms) (world_after c (begin c) ms) }
{}

/// In every state, an acknowledged number of an open epoch was stored by as many nodes as there are copies, of those that were fixed for the epoch, and each node that stored it is blank, or lost for the epoch, or trimmed at the number, or has the record. Swaps leave the nodes, factor and extras of an open epoch as they were fixed.
pub fn acknowledged_copies_stand()
    ensures enough { (c : Config) (ms : List Move) → IsInBounds c → (l n : ℕ) → IsOpen (world_after c (begin c) ms) l (epoch_of n) → Acked (trace c (begin c) ms) l n → chosen c (world_after c (begin c) ms) l n (epoch_of n) ≡ true }
    ensures kept { (c : Config) (ms : List Move) → IsInBounds c → (l n y : ℕ) → IsOpen (world_after c (begin c) ms) l (epoch_of n) → Acked (trace c (begin c) ms) l n → Stored (world_after c (begin c) ms) l y n (epoch_of n) → CopyAt (world_after c (begin c) ms) l n (epoch_of n) y }
    ensures set { (c : Config) (ms : List Move) → IsInBounds c → (l e : ℕ) → IsOpen (world_after c (begin c) ms) l e → Epoch (world_after c (begin c) ms) l e → spec_of c (world_after c (begin c) ms).state.register l e ≡ fixed_of c (world_after c (begin c) ms).state.register l e }
{}

/// In every state, a log that isn't lost at a node has each number above its trim of the clean epochs that were lost; a node that was rebuilt isn't lost again before it is wiped, nor rebuilt again, and the same holds from any state on in which it isn't lost, also where a crash hid the record that it is rebuilt.
pub fn rebuilt_once()
    ensures full { (c : Config) (ms : List Move) → IsInBounds c → (y l : ℕ) (p : Plain) → MayHold (node_at (world_after c (begin c) ms).state y) p → (log_of p l).lost ≡ false → missing (log_of p l) ≡ [] }
    ensures stays { (c : Config) (ms : List Move) → IsInBounds c → (n l j : ℕ) → Writes (trace c (begin c) ms) j (NodeRebuilt n l) → ((k : ℕ) → Writes (trace c (begin c) ms) k (NodeWiped n) → k < j) → (p : Plain) → MayHold (node_at (world_after c (begin c) ms).state n) p → (log_of p l).lost ≡ false }
    ensures once { (c : Config) (ms : List Move) → IsInBounds c → (n l i j : ℕ) → Writes (trace c (begin c) ms) i (NodeRebuilt n l) → Writes (trace c (begin c) ms) j (NodeRebuilt n l) → i < j → (k : ℕ) × (i < k) × (k < j) × Writes (trace c (begin c) ms) k (NodeWiped n) }
    ensures hidden { WholeStays }
{}

/// In every state, a node that may be lost for an epoch of a log stands lost for it in the lines.
pub fn lost_stands_in_lines()
    ensures { (c : Config) (ms : List Move) → IsInBounds c → LostInLines (trace c (begin c) ms) (world_after c (begin c) ms) }
{}

/// A node that is lost for an epoch under a generation, and is so at a later moment, was so at each moment between.
pub fn lost_once()
    ensures { LostOnce }
{}

/// When a reader asks once more for a number that it then calls lost, each node of the number's epoch, as swaps left it by then, is lost for it, in its plain state and in the lines, or had shown the reader a clean page without the number.
pub fn losses_were_seen()
    ensures { LossesWereSeen }
{}

/// A number that a reader calls lost had a moment, not after the step that says so, at which as many nodes of its epoch, as swaps had left it, as it has copies stood lost for it: of one that a plan says is lost, the moment is before that plan.
pub fn losses_happened()
    ensures { (c : Config) (es : List Event) → IsInBounds c → LossesHappened c (history c es) }
{}

/// When a reader asks once more for a number that it then calls lost, the number's epoch is closed, and as many of its nodes, as swaps left it by then, as it has copies are lost for it, each in its plain state: before a record that was cut short, where there is one. Where the number was known good as the epoch was closed, or each item of the closing plan was settled by as many nodes, so many of those are lost that stored its append, or settled it for the closing plan, or took places in the epoch. Each item was settled so where the epoch was closed fully; else it was closed short.
pub fn copies_were_lost()
    ensures { CopiesWereLost }
{}

/// Numbers that a reader calls lost are of an epoch that has a plan that says what is lost, except the one number whose confirmation the step completes; and before the step that made this plan, as many of the nodes that were fixed for the epoch as it has copies stood lost for it in the lines.
pub fn losses_were_told()
    ensures { LossesWereTold }
{}

/// The one number that is excepted there, whose confirmation the step completes, was confirmed: a step before sent the confirming asks of the round, so that what holds of a confirmed loss holds of it.
pub fn losses_were_asked()
    ensures { LossesWereAsked }
{}

/// Every run is safe: what readers get tiles their numbers, records and batches were appended before, each reader gets records or messages as it was opened, nothing that was acknowledged or read is hidden, trims were issued, losses happened, the numbers of appends rise and differ, one a step, each of its sequencer's epoch, and what is acknowledged or released was appended before.
pub fn every_run_is_safe()
    ensures { (c : Config) (es : List Event) → IsInBounds c → Safe c (history c es) }
{}

/// All that holds along every run, at once: in every state the invariant of the written machine, how epochs are closed, that
/// what may be lost stands so in the lines, and that one node alone sends a record where one copy is asked for; and between
/// states, that a node is lost once under a generation, and one that isn't stays so until it is wiped. The parts are laws
/// above.
pub fn invariants_hold()
    ensures { AllHold }
{}
