// What writes to segments do to the bytes of their disk.
ghost use Rattle.std.specs.Prelude.{◌≡◌, ◌⊎◌, ◌<◌, ◌≤◌, ◌+◌, ◌^◌, ◌++◌, ◌∷◌, [], List, ℕ, length, drop, false};
ghost use Rattle.ld_disk.specs.Images.{overwrite, Torn};
ghost use Rattle.ld_journal.specs.Format.{records, IsJournal, IsWithOrWithout};
ghost use Rattle.ld_op.specs.declared.op.Op.{Op};
ghost use Rattle.ld_op.specs.Plain.{Plain as Whole, apply, op_length};
ghost use Rattle.ld_op.specs.Bytes.{op_bytes};
ghost use Rattle.ld_op.specs.Cells.{read_plain};
ghost use Rattle.ld_layout.specs.Layout.{Layout, switches, kept_in, kind_of};
ghost use Rattle.ld_segment.specs.Stays.{StaysOutside, IsSameAt, StandsAt};
ghost use Rattle.ld_segment.specs.Left.{Switching, FirstSwitch, IsRecordTorn, IsSwitchTorn, IsFirstSwitchTorn, staged, switched};
ghost use Rattle.ld_segment.specs.Slots.{Tells, IsNextSwitch, IsElsewhere, IsSlotAt, IsTold};
ghost use Rattle.ld_segment.specs.Lies.{Slots, LiesAs, IsSound, StandsFor, StandsForEither, MayKeep, written, gate_in, with_body, slots_with};
ghost use Rattle.ld_segment.specs.Plans.{Planned, planned, made_before};
ghost use Rattle.ld_segment.specs.Groups.{IsGroup, IsStageTorn, IsGroupTorn};
ghost use Rattle.ld_segment.specs.declared.slots.Slot.{Slot};

/// Records and other bytes that lie before the range that is written, or behind it, stay.
pub fn segments_stay()
    ensures rows { (from to at : ℕ) (bodies : List (List ℕ)) (old new : List ℕ) → StaysOutside from to old new
        → (at + (length (records bodies) + 1) ≤ from) ⊎ (to ≤ at) → IsJournal bodies (drop at old) → IsJournal bodies (drop at new) }
    ensures bytes { (from to at : ℕ) (piece old new : List ℕ) → StaysOutside from to old new
        → (at + length piece ≤ from) ⊎ (to ≤ at) → StandsAt at piece old → StandsAt at piece new }
{}

/// A crash in a record's calls leaves the row of records that it is written behind with it or without it; all calls
/// made leave it with it. What stands round the record stays.
pub fn records_are_there_or_not()
    ensures crash { (at : ℕ) (bodies : List (List ℕ)) (body old c : List ℕ) → at ≤ length old → length body < 2 ^ 32 → IsJournal bodies (drop at old)
        → IsRecordTorn (at + length (records bodies)) body old c
        → IsWithOrWithout bodies body (drop at c) × StaysOutside (at + length (records bodies)) (at + length (records bodies) + 6 + length body) old c }
    ensures made { (at : ℕ) (bodies : List (List ℕ)) (body old : List ℕ) → at ≤ length old → length body < 2 ^ 32 → IsJournal bodies (drop at old)
        → IsJournal (bodies ++ body ∷ []) (drop at (overwrite (at + length (records bodies)) (1 ∷ []) (staged (at + length (records bodies)) body old)))
        × StaysOutside (at + length (records bodies)) (at + length (records bodies) + 6 + length body) old (overwrite (at + length (records bodies)) (1 ∷ []) (staged (at + length (records bodies)) body old)) }
{}

/// A crash in the first switch's calls leaves the first segment as it was, or with the head behind it; then the slots
/// and the first Base stand where the head says.
pub fn heads_are_there_or_not()
    ensures { (bodies : List (List ℕ)) (head : List ℕ) (slots_at : ℕ) (slots old c : List ℕ) → length head < 2 ^ 32 → IsJournal bodies (drop 0 old)
        → length (records bodies) + 6 + length head ≤ slots_at
        → IsFirstSwitchTorn (record { gate_at = 0 + length (records bodies); slots_at = slots_at; slots = slots; head = head }) old c
        → IsJournal bodies (drop 0 c) ⊎ (IsJournal (bodies ++ head ∷ []) (drop 0 c) × StandsAt slots_at slots c) }
{}

/// A crash in the calls of a later switch leaves the slot that counted, or the one that names the new segment, whose Base
/// then stands; all calls made leave that one. What stands elsewhere stays.
pub fn slots_tell_the_segment()
    ensures crash { (this other number next place at : ℕ) (w : Switching) (old c : List ℕ) → Tells this other number at old → IsNextSwitch this other number next place w old
        → IsSwitchTorn w old c → Tells this other number at c ⊎ (Tells other this next place c × StandsAt w.base_at w.base c) }
    ensures made { (this other number next place at : ℕ) (w : Switching) (old : List ℕ) → Tells this other number at old → IsNextSwitch this other number next place w old
        → Tells other this next place (switched w old) × StandsAt w.base_at w.base (switched w old) }
    ensures elsewhere { (this other number next place at : ℕ) (w : Switching) (old c : List ℕ) (k n : ℕ) → Tells this other number at old → IsNextSwitch this other number next place w old
        → IsElsewhere w k n old → IsSwitchTorn w old c → IsSameAt k n old c }
    ensures elsewhere_made { (this other number next place at : ℕ) (w : Switching) (old : List ℕ) (k n : ℕ) → Tells this other number at old → IsNextSwitch this other number next place w old
        → IsElsewhere w k n old → IsSameAt k n old (switched w old) }
{}

/// Two slots that were read name the segment that the bytes tell.
pub fn slots_are_read()
    ensures { (this_at other_at number place : ℕ) (this other : Slot) (bytes : List ℕ) → Tells this_at other_at number place bytes → IsSlotAt this_at this bytes → IsSlotAt other_at other bytes
        → this.number < 2 ^ 64 → this.place < 2 ^ 64 → other.number < 2 ^ 64 → number < 2 ^ 64 → place < 2 ^ 64 → IsTold this other number place }
{}

/// The first op of a group stands behind the gate of the segment, or of a new one, which stays shut: a crash in its calls
/// leaves what represents the state without it. Each later one goes on the group. What is read has the payloads of all.
pub fn groups_grow()
    ensures begins { (y : Layout) (z : Slots) (o : Op) (b : List ℕ) (w : Planned) → w ≡ planned (kind_of y) y z (op_bytes o) → LiesAs (written y) y z b → IsSound y → MayKeep y o
        → IsGroup (read_plain b y.index) (kept_in y o) (slots_with y z (op_length o)) w.gate (made_before w.before b) (staged w.gate w.body (made_before w.before b))
        × (read_plain (staged w.gate w.body (made_before w.before b)) (kept_in y o).index ≡ apply (read_plain b y.index) o) }
    ensures crash { (y : Layout) (z : Slots) (o : Op) (b c : List ℕ) (w : Planned) → w ≡ planned (kind_of y) y z (op_bytes o) → LiesAs (written y) y z b → IsSound y → MayKeep y o → IsStageTorn w b c → StandsFor (read_plain b y.index) c }
    ensures goes_on { (p : Whole) (y : Layout) (z : Slots) (gate : ℕ) (safe shown : List ℕ) (o : Op) → IsGroup p y z gate safe shown → MayKeep y o → switches y (op_length o) ≡ false
        → IsGroup p (kept_in y o) z gate safe (with_body (gate_in y y.later) (op_bytes o) shown)
        × (read_plain (with_body (gate_in y y.later) (op_bytes o) shown) (kept_in y o).index ≡ apply (read_plain shown y.index) o) }
{}

/// Bytes behind a group's gate that a crash leaves represent the state before the group, as long as that gate is shut;
/// once they are all there and the gate is written, that state or the one with all of the group's ops.
pub fn groups_are_there_or_not()
    ensures shut { (p : Whole) (y : Layout) (z : Slots) (gate n : ℕ) (safe shown c : List ℕ) → IsGroup p y z gate safe shown → gate + n ≡ gate_in y y.later → Torn (gate + 1) n safe c → StandsFor p c }
    ensures crash { (p : Whole) (y : Layout) (z : Slots) (gate n : ℕ) (safe shown c : List ℕ) → IsGroup p y z gate safe shown → gate + n ≡ gate_in y y.later → Torn (gate + 1) n safe shown
        → IsGroupTorn gate n safe shown c → StandsForEither p (read_plain shown y.index) c }
{}
