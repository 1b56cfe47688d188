// What holds of the answered calls of all programs that share records.
ghost use Rattle.std.specs.Prelude.{◌≡◌, ◌≤◌, ◌<◌, ◌++◌, ◌∷◌, [], ℕ, Bool, true, List, Option, Ok, Some, length};
ghost use Rattle.ld_ids.specs.declared.set.Spec.{Spec};
ghost use Rattle.ld_msg.specs.declared.msg.Summary.{Summary};
ghost use Rattle.ld_msg.specs.Register.{Register as Contents, empty_register};
ghost use Rattle.ld_records.specs.Growth.{Grows, IsAt};
ghost use Rattle.ld_register.specs.Calls.{activated, after_activate, closed, after_close, drawn, after_draw, swapped, after_swap, looked};
ghost use Rattle.ld_register.specs.Histories.{Call, Activates, Closes, Draws, Swaps, Looks, Runs};
ghost use Rattle.ld_register.specs.declared.register.Grant.{Grant};
ghost use Rattle.ld_register.specs.declared.register.Drawn.{Drawn};
ghost use Rattle.ld_register.specs.declared.register.View.{View};
ghost use Rattle.ld_shared.specs.Says.{Answers, IsLate, LeadTo, values_of};
ghost use Rattle.ld_shared.specs.Together.{Said, Stands, User, AreUsers, AreAllOf, AreAmong, AreCalls, InOrder, IsChangeAt, IsOneMore};
ghost use Rattle.ld_shared.specs.declared.shared.SharedRegister.{SharedRegister as Shared};
ghost use Rattle.ld_shared.specs.declared.shared.Unsettled.{Unsettled};

use ld_records::Records;

/// By what each call ensures, a call that answered is one more of its program's answered calls, behind those before it.
pub fn calls_are_in_order<C: Records>()
    ensures activations { (old new : Shared C) (values : List (List ℕ)) (calls : List Said) (spec : Spec) (grant : Grant)
        → Answers C.Records old new (Ok grant) (λ c. activated c spec) (λ c. after_activate c spec) → Grows (values_of C.Records new) values
        → IsOneMore C.Records old new values calls (Activates spec (Ok grant)) }
    ensures closes { (old new : Shared C) (values : List (List ℕ)) (calls : List Said) (l e : ℕ) (y : Summary) (short : Bool) (next : Option Spec)
        → Answers C.Records old new (Ok next) (λ c. closed c l e y short) (λ c. after_close c l e y short) → Grows (values_of C.Records new) values
        → IsOneMore C.Records old new values calls (Closes l e y short (Ok next)) }
    ensures draws { (old new : Shared C) (values : List (List ℕ)) (calls : List Said) (n : ℕ) (given : Drawn)
        → Answers C.Records old new (Ok given) (λ c. drawn c n) (λ c. after_draw c n) → Grows (values_of C.Records new) values
        → IsOneMore C.Records old new values calls (Draws n (Ok given)) }
    ensures swaps { (old new : Shared C) (values : List (List ℕ)) (calls : List Said) (l upto member spare count : ℕ)
        → Answers C.Records old new (Ok count) (λ c. swapped c l upto member spare) (λ c. after_swap c l upto member spare) → Grows (values_of C.Records new) values
        → IsOneMore C.Records old new values calls (Swaps l upto member spare (Ok count)) }
    ensures looks { (old new : Shared C) (values : List (List ℕ)) (calls : List Said) (l e : ℕ) (view : View)
        → Answers C.Records old new (Ok view) (λ c. Ok (looked c l e)) (λ c. c) → Grows (values_of C.Records new) values
        → IsOneMore C.Records old new values calls (Looks l e (Ok view)) }
{}

/// Records that such registers alone append are changes of calls: none is there at first, each further one is the change of
/// an answered call, or of one whose outcome wasn't known and that was made later.
pub fn records_are_calls()
    ensures none { AreCalls [] }
    ensures one_more { (values : List (List ℕ)) (value : List ℕ) → AreCalls values → IsChangeAt (length values) (values ++ value ∷ []) → AreCalls (values ++ value ∷ []) }
    ensures answered { (values : List (List ℕ)) (s : Said) → Stands values s → s.makes ≡ true → IsChangeAt s.count values }
    ensures activated { (own : List ℕ) (values : List (List ℕ)) (u : Unsettled) (spec : Spec)
        → IsLate own values (λ c. after_activate c spec) u → IsAt u.number u.value.items values → IsChangeAt u.number values }
    ensures closed { (own : List ℕ) (values : List (List ℕ)) (u : Unsettled) (l e : ℕ) (y : Summary) (short : Bool)
        → IsLate own values (λ c. after_close c l e y short) u → IsAt u.number u.value.items values → IsChangeAt u.number values }
    ensures drawn { (own : List ℕ) (values : List (List ℕ)) (u : Unsettled) (n : ℕ)
        → IsLate own values (λ c. after_draw c n) u → IsAt u.number u.value.items values → IsChangeAt u.number values }
    ensures swapped { (own : List ℕ) (values : List (List ℕ)) (u : Unsettled) (l upto member spare : ℕ)
        → IsLate own values (λ c. after_swap c l upto member spare) u → IsAt u.number u.value.items values → IsChangeAt u.number values }
{}

/// The answered calls of all programs, none of which have the same mark, are one list in which those of each stand in its
/// order; and with the calls that made the other records it is a list of calls of one register.
pub fn programs_share_one_register()
    ensures one { (values : List (List ℕ)) (users : List User) (m : ℕ) → AreUsers values users m → (all : List Said) × AreAllOf users all × InOrder values 0 all m }
    ensures runs { (values : List (List ℕ)) (all : List Said) (m : ℕ) (c : Contents) → AreCalls values → m ≤ length values → LeadTo m values c → InOrder values 0 all m
        → (calls : List Call) × AreAmong all calls × Runs empty_register calls c }
{}

/// Of two activations of a log, or two draws of a node, by whichever programs, the later one got a greater number; and a look
/// behind a close shows its summary.
pub fn programs_agree()
    ensures epochs { (values : List (List ℕ)) (m : ℕ) (c : Contents) (before between after : List Said) (s t : Said) (one other : Spec) (first second : Grant)
        → AreCalls values → m ≤ length values → LeadTo m values c → InOrder values 0 (before ++ s ∷ (between ++ t ∷ after)) m
        → s.call ≡ Activates one (Ok first) → t.call ≡ Activates other (Ok second) → one.log ≡ other.log → first.epoch < second.epoch }
    ensures generations { (values : List (List ℕ)) (m : ℕ) (c : Contents) (before between after : List Said) (s t : Said) (n : ℕ) (first second : Drawn)
        → AreCalls values → m ≤ length values → LeadTo m values c → InOrder values 0 (before ++ s ∷ (between ++ t ∷ after)) m
        → s.call ≡ Draws n (Ok first) → t.call ≡ Draws n (Ok second) → first.gen_ < second.gen_ }
    ensures summaries { (values : List (List ℕ)) (m : ℕ) (c : Contents) (before between after : List Said) (s t : Said) (l e : ℕ) (y : Summary) (short : Bool) (next : Option Spec) (view : View)
        → AreCalls values → m ≤ length values → LeadTo m values c → InOrder values 0 (before ++ s ∷ (between ++ t ∷ after)) m
        → s.call ≡ Closes l e y short (Ok next) → t.call ≡ Looks l e (Ok view) → view.summary ≡ Some y }
{}
