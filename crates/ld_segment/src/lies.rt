// What the bytes of a disk in segments represent.
ghost use Rattle.std.specs.Prelude.{◌≡◌, ◌≤◌, ◌+◌, List, ℕ, length, Option, None, Some, true, false};
ghost use Rattle.ld_disk.specs.Record.{State};
ghost use Rattle.ld_disk.specs.Plain.{Plain as DiskPlain, IsTold, after_calls, all_made};
ghost use Rattle.ld_disk.specs.declared.disk.Picture.{Picture};
ghost use Rattle.ld_journal.specs.Pictures.{IsSafe, crashed_by};
ghost use Rattle.ld_msg.specs.Register.{journal_limit};
ghost use Rattle.ld_op.specs.declared.op.Op.{Op as Kind};
ghost use Rattle.ld_op.specs.declared.record.Record.{Record};
ghost use Rattle.ld_op.specs.declared.record.Record.TheVariants.{Mark};
ghost use Rattle.ld_op.specs.declared.version.Version.{Version};
ghost use Rattle.ld_op.specs.declared.version.Version.TheVariants.{First as OfFirst, Second as OfSecond};
ghost use Rattle.ld_op.specs.Plain.{Plain as Whole, apply, op_length};
ghost use Rattle.ld_op.specs.Bytes.{op_bytes, record_bytes};
ghost use Rattle.ld_op.specs.Cells.{read_plain};
ghost use Rattle.ld_layout.specs.Layout.{Layout, Segment, switches, kept_in, kind_of};
ghost use Rattle.ld_segment.specs.Ops.{state_after, IsJournalOf};
ghost use Rattle.ld_segment.specs.Plans.{Stays, First, Later, IsPlanTorn, planned, planned_calls, planned_count, planned_end, planned_made};
ghost use Rattle.ld_segment.specs.Lies.{Slots, LiesAs, IsSound, StandsFor, StandsForEither, MayKeep, IsRowTorn, written, segment_for, gate_in, first_switch, next_switch, row_of, op_row, row_made, slots_with, marked_in, mark_passes, switching, layout_left, plain_left};
ghost use Rattle.ld_layout.specs.declared.segment.Growth.TheVariants.{Still};

/// Bytes lie in one way at most, so they represent one plain state at most.
pub fn bytes_stand_for_one_state()
    ensures { (p q : Whole) (bytes : List ℕ) → StandsFor p bytes → StandsFor q bytes → p ≡ q }
{}

/// Bytes lie in one way at most: as one layout says, in a journal of one version. Whether the next segment is to grow no byte
/// tells.
pub fn bytes_lie_in_one_way()
    ensures { (v w : Version) (y x : Layout) (z q : Slots) (bytes : List ℕ) → LiesAs v y z bytes → IsSound y → LiesAs w x q bytes → IsSound x → (v ≡ w) × (y ≡ record x { grows = y.grows }) }
{}

/// A crash in an op's calls leaves bytes that represent the plain state as it was, or with the op.
pub fn kept_ops_or_not()
    ensures { (y : Layout) (z : Slots) (o : Kind) (b c : List ℕ) → LiesAs (written y) y z b → IsSound y → MayKeep y o → IsRowTorn (kind_of y) y z (op_bytes o) b c
        → StandsForEither (read_plain b y.index) (apply (read_plain b y.index) o) c }
{}

/// Once all calls of an op were made, the bytes lie as the layout with it says, and represent the plain state with it.
pub fn kept_ops_are_durable()
    ensures lies { (y : Layout) (z : Slots) (o : Kind) (bytes : List ℕ) (s : State) → LiesAs (written y) y z bytes → IsSound y → MayKeep y o → IsSafe bytes s
        → LiesAs (written (kept_in y o)) (kept_in y o) (slots_with y z (op_length o)) (all_made (op_row y z o) s).bytes × IsSafe (all_made (op_row y z o) s).bytes (all_made (op_row y z o) s) }
    ensures sound { (y : Layout) (o : Kind) → IsSound y → MayKeep y o → IsSound (kept_in y o) }
    ensures plain { (y : Layout) (z : Slots) (o : Kind) (bytes : List ℕ) (s : State) → LiesAs (written y) y z bytes → IsSound y → MayKeep y o → IsSafe bytes s
        → read_plain (all_made (op_row y z o) s).bytes (kept_in y o).index ≡ apply (read_plain bytes y.index) o }
    ensures made { (y : Layout) (z : Slots) (o : Kind) (bytes : List ℕ) → LiesAs (written y) y z bytes → IsSound y → MayKeep y o
        → LiesAs (written (kept_in y o)) (kept_in y o) (slots_with y z (op_length o)) (row_made (kind_of y) y z (op_bytes o) bytes)
        × (read_plain (row_made (kind_of y) y z (op_bytes o) bytes) (kept_in y o).index ≡ apply (read_plain bytes y.index) o) }
{}

/// Of a fault in one of an op's writing calls, that call and the pictures of the crashes since then decide what a load
/// finds: the op, or a switch alone, or neither.
pub fn picture_decides_the_layout()
    ensures lies { (y : Layout) (z : Slots) (o : Kind) (bytes : List ℕ) (call : ℕ) (how : Option Picture) (later : List Picture) (p : DiskPlain)
        → LiesAs (written y) y z bytes → IsSound y → MayKeep y o → IsSafe bytes p.state → IsTold call how p → call ≤ switching y o + 4
        → (w : Slots) × LiesAs (written (layout_left y o call how later)) (layout_left y o call how later) w (crashed_by later (after_calls (op_row y z o) p).state).bytes }
    ensures plain { (y : Layout) (z : Slots) (o : Kind) (bytes : List ℕ) (call : ℕ) (how : Option Picture) (later : List Picture) (p : DiskPlain)
        → LiesAs (written y) y z bytes → IsSound y → MayKeep y o → IsSafe bytes p.state → IsTold call how p → call ≤ switching y o + 4
        → read_plain (crashed_by later (after_calls (op_row y z o) p).state).bytes (layout_left y o call how later).index ≡ plain_left (read_plain bytes y.index) y o call how later }
{}

/// A journal of one segment represents what it did before there were others: the plain state that its records add up to.
pub fn journals_stand_as_before()
    ensures { (vs : List Record) (bytes : List ℕ) → IsJournalOf vs bytes → StandsFor (state_after vs) bytes }
{}

/// The plan of a record has its row's calls, leaves what they leave, and lies within all limits where an op may be kept.
pub fn plans_are_rows()
    ensures calls { (kind : ℕ) (y : Layout) (z : Slots) (body : List ℕ) → planned_calls (planned kind y z body) ≡ row_of kind y z body }
    ensures torn { (kind : ℕ) (y : Layout) (z : Slots) (body b c : List ℕ) → IsPlanTorn (planned kind y z body) b c → IsRowTorn kind y z body b c }
    ensures made { (kind : ℕ) (y : Layout) (z : Slots) (body b : List ℕ) → planned_made (planned kind y z body) b ≡ row_made kind y z body b }
    ensures stays { (kind : ℕ) (y : Layout) (z : Slots) (body : List ℕ) → switches y (length body) ≡ false → planned kind y z body ≡ record { before = Stays; gate = gate_in y y.later; body = body } }
    ensures first { (kind : ℕ) (y : Layout) (z : Slots) (body : List ℕ) → switches y (length body) ≡ true → y.later ≡ None
        → planned kind y z body ≡ record { before = First (first_switch kind y (segment_for y (length body))); gate = (segment_for y (length body)).end; body = body } }
    ensures later { (kind : ℕ) (y : Layout) (z : Slots) (body : List ℕ) (s : Segment) → switches y (length body) ≡ true → y.later ≡ Some s
        → planned kind y z body ≡ record { before = Later (next_switch kind y z (segment_for y (length body))); gate = (segment_for y (length body)).end; body = body } }
    ensures count { (y : Layout) (z : Slots) (o : Kind) → planned_count (planned (kind_of y) y z (op_bytes o)) ≡ switching y o + 4 }
    ensures fits { (y : Layout) (z : Slots) (o : Kind) (b : List ℕ) → LiesAs (written y) y z b → IsSound y → MayKeep y o → planned_end (planned (kind_of y) y z (op_bytes o)) ≤ journal_limit }
{}

/// A mark leaves the plain state as it is: whatever a crash leaves of its calls represents it, and once all are made the
/// journal is one of the second version. They lie within the limit where it doesn't pass that. Its segment doesn't grow.
pub fn marks_change_no_state()
    ensures torn { (y : Layout) (z : Slots) (b c : List ℕ) → LiesAs OfFirst y z b → IsSound y → mark_passes y ≡ false → y.grows ≡ Still → IsRowTorn 9 y z (record_bytes Mark) b c → StandsFor (read_plain b y.index) c }
    ensures made { (y : Layout) (z : Slots) (b : List ℕ) → LiesAs OfFirst y z b → IsSound y → mark_passes y ≡ false → y.grows ≡ Still
        → LiesAs OfSecond (marked_in y) (slots_with y z 2) (row_made 9 y z (record_bytes Mark) b) × (read_plain (row_made 9 y z (record_bytes Mark) b) (marked_in y).index ≡ read_plain b y.index) }
    ensures sound { (y : Layout) → IsSound y → mark_passes y ≡ false → IsSound (marked_in y) }
    ensures fits { (y : Layout) (z : Slots) (b : List ℕ) → LiesAs OfFirst y z b → IsSound y → mark_passes y ≡ false → y.grows ≡ Still → planned_end (planned 9 y z (record_bytes Mark)) ≤ journal_limit }
{}
