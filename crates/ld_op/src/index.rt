// What an index has in common with the plain state that it represents.
ghost use Rattle.std.specs.Prelude.{◌≡◌, ◌++◌, ℕ, List, Bool, map, drop};
ghost use Rattle.ld_table.specs.Table.{find};
ghost use Rattle.ld_msg.specs.declared.msg.Body.{Body};
ghost use Rattle.ld_msg.specs.declared.msg.Entry.{Entry};
ghost use Rattle.ld_msg.specs.declared.msg.Summary.{Summary};
ghost use Rattle.ld_op.specs.declared.op.Op.{Op as Kind};
ghost use Rattle.ld_op.specs.Plain.{Plain as State, Log, apply};
ghost use Rattle.ld_op.specs.Answers.{digest_decision, store_decision, is_same, digest_page, read_answer, one_answer, on_clean, on_trim};
ghost use Rattle.ld_op.specs.Ticks.{on_page, on_tick, missing};
ghost use Rattle.ld_op.specs.Cells.{each_entry, each_log, each_plain, each_op, each_body, byte_at, read_plain, placed, IsOrdered, AgreeOn};
ghost use Rattle.ld_op.specs.Bytes.{op_bytes};
ghost use Rattle.ld_op.specs.Rising.{IsRising};

/// Ops don't look into payloads: whatever stands in the place of each byte, an op makes the same of the plain state.
pub fn ops_leave_payloads()
    ensures { (f : ℕ → ℕ) (p : State) (o : Kind) → each_plain f (apply p o) ≡ apply (each_plain f p) (each_op f o) }
{}

/// Nor do answers: a page has the payloads that stand there, whatever they are, and all else that a node says or keeps of a
/// message is the same for all, but whether a store is there already.
pub fn answers_leave_payloads()
    ensures read { (f : ℕ → ℕ) (generation : ℕ) (g : Log) (released round from : ℕ) → each_body f (read_answer generation g released round from) ≡ read_answer generation (each_log f g) released round from }
    ensures one { (f : ℕ → ℕ) (n generation : ℕ) (g : Log) (released round from : ℕ) (set excluded : List Bool)
        → each_body f (one_answer n generation g released round from set excluded) ≡ one_answer n generation (each_log f g) released round from set excluded }
    ensures digest { (f : ℕ → ℕ) (g : Log) (from bound : ℕ) (es : List Entry) → each_body f (digest_page g from es bound) ≡ digest_page (each_log f g) from (map (each_entry f) es) bound }
    ensures decided { (f : ℕ → ℕ) (g : Log) (ballot from : ℕ) → digest_decision (each_log f g) ballot from ≡ digest_decision g ballot from }
    ensures store { (f : ℕ → ℕ) (g : Log) (e : Entry) → is_same e (find e.number (each_log f g).entries) ≡ is_same e (find e.number g.entries) → store_decision (each_log f g) e ≡ store_decision g e }
    ensures clean { (f : ℕ → ℕ) (g : Log) (l epoch : ℕ) (y : Summary) → on_clean (each_log f g) l epoch y ≡ on_clean g l epoch y }
    ensures trim { (f : ℕ → ℕ) (g : Log) (l t : ℕ) → on_trim (each_log f g) l t ≡ on_trim g l t }
    ensures page { (f : ℕ → ℕ) (g : Log) (l : ℕ) (b : Body) → on_page (each_log f g) l b ≡ on_page g l b }
    ensures tick { (f : ℕ → ℕ) (g : Log) (closed : List (ℕ × Summary)) → on_tick (each_log f g) closed ≡ on_tick g closed }
    ensures missing { (f : ℕ → ℕ) (g : Log) → missing (each_log f g) ≡ missing g }
{}

/// An op whose body stands at an offset of a disk is read there as it was written.
pub fn placed_ops_are_read()
    ensures { (at : ℕ) (o : Kind) (rest bytes : List ℕ) → drop at bytes ≡ op_bytes o ++ rest → each_op (byte_at bytes) (placed at o) ≡ o }
{}

/// An index reads the same where the bytes under it are, as long as its logs and entries rise, which ops keep; and once an op's body stands on the disk too, the index with the
/// op represents the plain state with the op.
pub fn indexes_are_read()
    ensures same { (i : State) (before now : List ℕ) → IsOrdered i → AgreeOn (byte_at now) (byte_at before) i → read_plain now i ≡ read_plain before i }
    ensures ordered { (i : State) (o : Kind) → IsRising o → IsOrdered i → IsOrdered (apply i o) }
    ensures kept { (i : State) (o : Kind) (at : ℕ) (rest before now : List ℕ) → read_plain now i ≡ read_plain before i → drop at now ≡ op_bytes o ++ rest
        → read_plain now (apply i (placed at o)) ≡ apply (read_plain before i) o }
{}
