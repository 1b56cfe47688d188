// What holds of a register's answers over any list of calls.
ghost use Rattle.std.specs.Prelude.{◌≡◌, ◌≤◌, ◌<◌, ◌⊎◌, ◌++◌, ◌∷◌, [], ℕ, Bool, List, Option, Ok, Some};
ghost use Rattle.ld_table.specs.Table.{find};
ghost use Rattle.std.specs.declared.result.Result.{Result as Outcome};
ghost use Rattle.ld_disk.specs.Plain.{Plain};
ghost use Rattle.ld_ids.specs.declared.set.Spec.{Spec};
ghost use Rattle.ld_msg.specs.declared.msg.Summary.{Summary};
ghost use Rattle.ld_msg.specs.Register.{Register as Contents, lce_of, epochs_of, generation_of, summary_shown};
ghost use Rattle.ld_register.specs.declared.fault.RegisterFault.{RegisterFault};
ghost use Rattle.ld_register.specs.declared.faulty.FaultyRegister.{FaultyRegister};
ghost use Rattle.ld_register.specs.declared.register.Grant.{Grant};
ghost use Rattle.ld_register.specs.declared.register.Drawn.{Drawn};
ghost use Rattle.ld_register.specs.declared.register.View.{View};
ghost use Rattle.ld_register.specs.Calls.{IsFree, ChangedOrNot, with_and_without, unarmed, spec_told};
ghost use Rattle.ld_register.specs.Stands.{StandsFor};
ghost use Rattle.ld_register.specs.Held.{Holds};
ghost use Rattle.ld_register.specs.Arming.{kept_in, disk_in, Foresees};
ghost use Rattle.ld_register.specs.Histories.{Call, Activates, Closes, Draws, Looks, Ends, Passes, Runs};

use crate::Register;
use ld_disk::Disk;

/// Of two activations of a log that answered, the later one got a greater epoch, whatever calls failed.
pub fn epochs_rise()
    ensures { (c d : Contents) (before between after : List Call) (one other : Spec) (first second : Grant)
        → one.log ≡ other.log → Runs c (before ++ Activates one (Ok first) ∷ (between ++ Activates other (Ok second) ∷ after)) d → first.epoch < second.epoch }
{}

/// Of two draws of a node that answered, the later one got a greater generation, whatever calls failed.
pub fn generations_rise()
    ensures { (c d : Contents) (before between after : List Call) (n : ℕ) (first second : Drawn)
        → Runs c (before ++ Draws n (Ok first) ∷ (between ++ Draws n (Ok second) ∷ after)) d → first.gen_ < second.gen_ }
{}

/// No epoch, last closed epoch, count of swaps or generation falls.
pub fn nothing_falls()
    ensures epoch { (c d : Contents) (calls : List Call) (l : ℕ) → Runs c calls d → (epochs_of c l).epoch ≤ (epochs_of d l).epoch }
    ensures lce { (c d : Contents) (calls : List Call) (l : ℕ) → Runs c calls d → lce_of c l ≤ lce_of d l }
    ensures swaps { (c d : Contents) (calls : List Call) (l : ℕ) → Runs c calls d → (epochs_of c l).swaps ≤ (epochs_of d l).swaps }
    ensures generation { (c d : Contents) (calls : List Call) (n : ℕ) → Runs c calls d → generation_of c n ≤ generation_of d n }
{}

/// The summary of a closed epoch never changes.
pub fn summaries_stay()
    ensures { (c d : Contents) (calls : List Call) (l e : ℕ) (y : Summary) → Runs c calls d → summary_shown c l e ≡ Some y → summary_shown d l e ≡ Some y }
{}

/// Each look after a close that answered shows the summary of that close.
pub fn closes_are_shown()
    ensures { (c d : Contents) (before between after : List Call) (l e : ℕ) (y : Summary) (short : Bool) (next : Option Spec) (view : View)
        → Runs c (before ++ Closes l e y short (Ok next) ∷ (between ++ Looks l e (Ok view) ∷ after)) d → view.summary ≡ Some y }
{}

/// What was fixed for an epoch that was handed out never changes; and as swaps left it, it changes only where the count of
/// swaps rises, and only once the epoch is closed.
pub fn specs_stay()
    ensures fixed { (c d : Contents) (calls : List Call) (l e : ℕ) → Runs c calls d → e ≤ (epochs_of c l).epoch → find e (epochs_of d l).specs ≡ find e (epochs_of c l).specs }
    ensures told { (c d : Contents) (calls : List Call) (l e : ℕ) → Runs c calls d → 1 ≤ e → e ≤ (epochs_of c l).epoch
        → ((epochs_of d l).swaps ≡ (epochs_of c l).swaps) ⊎ (lce_of d l < e) → spec_told d l e ≡ spec_told c l e }
{}

/// Each look after an activation that answered shows of its epoch what that activation fixed, as long as the epoch isn't
/// closed or there was no swap of the log.
pub fn activations_are_shown()
    ensures { (c d : Contents) (before between after : List Call) (spec : Spec) (grant : Grant) (view : View)
        → Runs c (before ++ Activates spec (Ok grant) ∷ (between ++ Looks spec.log grant.epoch (Ok view) ∷ after)) d
        → (view.swaps ≡ 0) ⊎ (view.lce < grant.epoch) → view.spec ≡ Some spec }
{}

/// Of two looks at a log that answered, the later one shows no smaller epoch, no smaller last closed epoch and no smaller
/// count of swaps, and of the same epoch the same summary; and where it was handed out by then the same that is fixed for
/// it, as long as the count of swaps is the same or the epoch isn't closed.
pub fn looks_agree()
    ensures { (c d : Contents) (before between after : List Call) (l e k : ℕ) (first second : View)
        → Runs c (before ++ Looks l e (Ok first) ∷ (between ++ Looks l k (Ok second) ∷ after)) d
        → (first.epoch ≤ second.epoch) × (first.lce ≤ second.lce) × (first.swaps ≤ second.swaps) × ((y : Summary) → e ≡ k → first.summary ≡ Some y → second.summary ≡ Some y)
        × (e ≡ k → 1 ≤ e → e ≤ first.epoch → (second.swaps ≡ first.swaps) ⊎ (second.lce < e) → second.spec ≡ first.spec) }
{}

/// A call of a register is one step of such a list: what may be held after it is led to from what might be held
/// before it. It follows from what each call's contract says of the contents that are held and that may be.
pub fn calls_are_steps<R: Register, T>()
    ensures { (old new : R) (result : Outcome T RegisterFault) (answer : Contents → Outcome T RegisterFault) (change : Contents → Contents)
        → ((c : Contents) → R.holds old c → IsFree result ⊎ ((result ≡ answer c) × R.holds new (change c)))
        → IsFree result ⊎ ((c : Contents) × R.holds old c)
        → IsFree result ⊎ ((c : Contents) → R.may_hold new c → R.holds new c)
        → ChangedOrNot (R.may_hold old) (R.may_hold new) change
        → (d : Contents) → R.may_hold new d → (c : Contents) × R.may_hold old c × Ends result (answer c) c (change c) d }
{}

/// After a call that failed, where a crash before it might have left these contents alone, the register holds them or
/// what the call's change makes of them, and nothing else; which of the two, the next call that answers tells by its
/// answer.
pub fn failures_are_told<R: Register, T>()
    ensures holds { (failed : R) (c : Contents) (change : Contents → Contents) → R.told failed → R.leaves failed (with_and_without change (c ∷ []))
        → R.holds failed c ⊎ R.holds failed (change c) }
    ensures alone { (failed : R) (c d : Contents) (change : Contents → Contents) → R.leaves failed (with_and_without change (c ∷ []))
        → R.may_hold failed d → (d ≡ c) ⊎ (d ≡ change c) }
    ensures tells { (failed next : R) (c : Contents) (change after : Contents → Contents) (result : Outcome T RegisterFault) (answer : Contents → Outcome T RegisterFault)
        → R.told failed → R.leaves failed (with_and_without change (c ∷ []))
        → ((d : Contents) → R.holds failed d → IsFree result ⊎ ((result ≡ answer d) × R.holds next (after d)))
        → IsFree result ⊎ ((result ≡ answer c) × R.holds next (after c)) ⊎ ((result ≡ answer (change c)) × R.holds next (after (change c))) }
{}

/// A step behind a list makes a longer list, so that the calls of a register, one after the other, are such a list.
pub fn steps_make_lists()
    ensures none { (c : Contents) → Runs c [] c }
    ensures more { (c b d : Contents) (calls : List Call) (call : Call) → Runs c calls b → Passes b call d → Runs c (calls ++ call ∷ []) d }
{}

/// The bytes of the disk of a register are a journal of changes that lead to what it holds, and to what it tells but
/// for the armed fault.
pub fn bytes_lead_to_contents<D: Disk>()
    ensures holds { (r : FaultyRegister D D.Disk) (c : Contents) (bytes : List ℕ) → Holds (kept_in r) c → D.seen (disk_in r) ≡ Some bytes → StandsFor bytes c }
    ensures tells { (r : FaultyRegister D D.Disk) (c : Contents) (bytes : List ℕ) → Foresees r c → D.seen (disk_in r) ≡ Some bytes → StandsFor bytes (unarmed c) }
    ensures plain { (r : FaultyRegister D D.Disk) (c : Contents) (p : Plain) → Foresees r c → D.plain (disk_in r) ≡ Some p → StandsFor p.state.bytes (unarmed c) }
{}
